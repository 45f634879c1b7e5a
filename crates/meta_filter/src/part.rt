//! The parts of a comparison.

ghost use Rattle.std.specs.Prelude.{◌≡◌, suc, max, ◌<◌, ◌^◌, IfOk, Some};
ghost use Rattle.meta_filter.specs.Parts as spec;
ghost use Rattle.meta_filter.specs.Build as build;

use crate::numeral::magnitude;
use crate::token::Word;
use node_tree::{List, Memory, Text};
use rule_form::{Amount, ArithOp, Boxed, CompareOp, Comparison};
use std::alloc::Global;

/// How deep a comparison may be, parentheses counted.
pub const MAX_DEPTH: usize = 100;

/// What a part stands for.
#[derive(Drop)]
pub enum Meaning {
    Truth(Comparison),
    Number(Amount),
    /// Neither: an operator got a part of the other kind, a number doesn't fit in 128 bits, or the part is too deep.
    Wrong,
}

/// A part of a comparison, with its depth.
#[derive(Drop)]
pub struct Part {
    pub depth: usize,
    pub meaning: Meaning,
}

/// The numbers of a chain so far, and the operators between them.
#[derive(Drop)]
pub struct Links {
    pub amounts: List<Amount>,
    pub ops: List<CompareOp>,
}

/// A part of this depth, whose meaning is let go where it is too deep. So no value gets deeper than the stack bears.
fn part_of(depth: usize, meaning: Meaning) -> Part
    ensures { result ≡ spec.part_of depth meaning }
{
    if depth <= MAX_DEPTH {
        Part { depth, meaning }
    } else {
        Part {
            depth,
            meaning: Meaning::Wrong,
        }
    }
}

/// The number that decimal digits write.
pub fn figure(text: &str) -> Part
    ensures { result ≡ spec.figure text.now }
{
    let meaning = match magnitude(10, text.as_bytes()) {
        Some(n) => {
            if n < 170141183460469231731687303715884105728 {
                Meaning::Number(Amount::Number(n as i128))
            } else {
                Meaning::Wrong
            }
        }
        None => Meaning::Wrong,
    };
    part_of(1, meaning)
}

/// `$NAME`
pub fn named(alloc: Global, name: &str) -> Result<Part, Memory>
    ensures { IfOk result (λ p. p ≡ spec.named name.now) }
{
    let name = Text::from_str(alloc, name)?;
    Ok(part_of(1, Meaning::Number(Amount::Value(name))))
}

/// `int($NAME)`
pub fn inside(alloc: Global, name: &str) -> Result<Part, Memory>
    ensures { IfOk result (λ p. p ≡ spec.inside name.now) }
{
    let name = Text::from_str(alloc, name)?;
    Ok(part_of(1, Meaning::Number(Amount::Content(name))))
}

/// A part in parentheses.
pub fn enclosed(part: Part) -> Part
    requires { suc part.depth < 2 ^ 64 }
    ensures { result ≡ spec.enclosed part }
{
    part_of(part.depth + 1, part.meaning)
}

/// `-` and a part.
pub fn negative(alloc: Global, part: Part) -> Result<Part, Memory>
    requires { suc part.depth < 2 ^ 64 }
    ensures { IfOk result (λ p. p ≡ spec.part_of (suc part.depth) (spec.negative part.meaning)) }
{
    let depth = part.depth + 1;
    let meaning = match part.meaning {
        Meaning::Number(amount) => Meaning::Number(Amount::Negated(Boxed::new(alloc, amount)?)),
        _other => Meaning::Wrong,
    };
    Ok(part_of(depth, meaning))
}

/// `not` and a part.
pub fn inverse(alloc: Global, part: Part) -> Result<Part, Memory>
    requires { suc part.depth < 2 ^ 64 }
    ensures { IfOk result (λ p. p ≡ spec.part_of (suc part.depth) (spec.inverse part.meaning)) }
{
    let depth = part.depth + 1;
    let meaning = match part.meaning {
        Meaning::Truth(truth) => Meaning::Truth(Comparison::Not(Boxed::new(alloc, truth)?)),
        _other => Meaning::Wrong,
    };
    Ok(part_of(depth, meaning))
}

fn arith_op(word: Word) -> Option<ArithOp>
    ensures { result ≡ spec.arith_op word }
{
    match word {
        Word::Plus => Some(ArithOp::Plus),
        Word::Minus => Some(ArithOp::Minus),
        Word::Times => Some(ArithOp::Times),
        Word::Divide => Some(ArithOp::Divide),
        Word::Remainder => Some(ArithOp::Remainder),
        _ => None,
    }
}

fn compare_op(word: Word) -> Option<CompareOp>
    ensures { result ≡ spec.compare_op word }
{
    match word {
        Word::Less => Some(CompareOp::Less),
        Word::LessEqual => Some(CompareOp::LessEqual),
        Word::Greater => Some(CompareOp::Greater),
        Word::GreaterEqual => Some(CompareOp::GreaterEqual),
        Word::Equal => Some(CompareOp::Equal),
        Word::NotEqual => Some(CompareOp::NotEqual),
        _ => None,
    }
}

/// An operator on two numbers.
fn arith(alloc: Global, op: Option<ArithOp>, a: Amount, b: Amount) -> Result<Meaning, Memory>
    ensures { IfOk result (λ m. m ≡ spec.arith op a b) }
{
    let Some(op) = op else {
        return Ok(Meaning::Wrong);
    };
    let left = Boxed::new(alloc, a)?;
    let right = Boxed::new(alloc, b)?;
    Ok(Meaning::Number(Amount::Arith(op, left, right)))
}

/// An operator on two truths.
fn both(alloc: Global, op: Word, c: Comparison, d: Comparison) -> Result<Meaning, Memory>
    ensures { IfOk result (λ m. m ≡ spec.both op c d) }
{
    let left = Boxed::new(alloc, c)?;
    let right = Boxed::new(alloc, d)?;
    Ok(match op {
        Word::Or => Meaning::Truth(Comparison::Or(left, right)),
        Word::And => Meaning::Truth(Comparison::And(left, right)),
        _ => Meaning::Wrong,
    })
}

/// An operator between two parts of its kind.
fn combined(alloc: Global, op: Word, left: Meaning, right: Meaning) -> Result<Meaning, Memory>
    ensures { IfOk result (λ m. m ≡ spec.combined op left right) }
{
    match (left, right) {
        (Meaning::Number(a), Meaning::Number(b)) => arith(alloc, arith_op(op), a, b),
        (Meaning::Truth(c), Meaning::Truth(d)) => both(alloc, op, c, d),
        _ => Ok(Meaning::Wrong),
    }
}

/// Two parts with an operator between them.
pub fn joined(alloc: Global, op: Word, left: Part, right: Part) -> Result<Part, Memory>
    requires { suc (max left.depth right.depth) < 2 ^ 64 }
    ensures { IfOk result (λ p. p ≡ spec.joined op left right) }
{
    let depth = left.depth.max(right.depth) + 1;
    let meaning = combined(alloc, op, left.meaning, right.meaning)?;
    Ok(part_of(depth, meaning))
}

/// The links of a chain that begins with a part, unless it is no number.
pub fn first_link(alloc: Global, meaning: Meaning) -> Result<Option<Links>, Memory>
    ensures { IfOk result (λ links. links ≡ build.first_link meaning) }
{
    let Meaning::Number(amount) = meaning else {
        return Ok(None);
    };
    let mut amounts = List::new(alloc);
    amounts.push(amount)?;
    Ok(Some(Links {
        amounts,
        ops: List::new(alloc),
    }))
}

/// The links with one more operator and number.
pub fn next_link(links: Option<Links>, op: Word, meaning: Meaning) -> Result<Option<Links>, Memory>
    ensures { IfOk result (λ more. more ≡ build.next_link links (spec.compare_op op) meaning) }
{
    let (Some(mut links), Some(op), Meaning::Number(amount)) = (links, compare_op(op), meaning)
    else {
        return Ok(None);
    };
    links.amounts.push(amount)?;
    links.ops.push(op)?;
    Ok(Some(links))
}

/// The chain of all its links, where the deepest of its parts is so deep.
pub fn chained(depth: usize, links: Option<Links>) -> Part
    requires { suc depth < 2 ^ 64 }
    ensures { result ≡ spec.part_of (suc depth) (build.chained links) }
{
    let meaning = match links {
        Some(links) => Meaning::Truth(Comparison::Chain(links.amounts, links.ops)),
        None => Meaning::Wrong,
    };
    part_of(depth + 1, meaning)
}
