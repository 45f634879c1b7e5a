//! Operators, from the loosest to the tightest.

ghost use Rattle.std.specs.Prelude.{◌≡◌, ◌≢◌, ◌+◌, ◌<◌, ◌≤◌, [], ◌∷◌, Some, length, IfOk};
ghost use Rattle.node_tree.specs.Gives.{Gives};
ghost use Rattle.py_expr.specs.reader.Reading as reading;
ghost use Rattle.py_expr.specs.Table.{Named, Test, LambdaTest, Not, Cmp, Cop, Unary, Power, Await};

use crate::build::{
    TOO_DEEP, Tail, attached, farther, ident, lambda_of, node_of, one, over, spine, text_at, three,
    two, two_words,
};
use crate::item::Item;
use crate::level::Binary;
use crate::look::{
    end_before, is, is_comparison, is_name, is_operator, is_sign, start_at, starts_cop,
    starts_param,
};
use crate::read::arguments::lambda_params;
use crate::read::primaries::prim;
use crate::word::Word;
use node_tree::{Kind, Node, ReadFault, Text};
use std::alloc::Global;

/// `NAME ":=" test | test`
#[cycle(reader)]
#[tactic(auto, using(crate::proofs::Steps::named_step, crate::proofs::Steps::level_none))]
pub fn named(
    alloc: Global,
    items: &[Item<'_>],
    room: u32,
    at: usize,
) -> Result<(Node, usize), ReadFault>
    requires { at ≤ length items.now }
    ensures within { IfOk result (λ x. x.1 ≤ length items.now) }
    ensures gives { Gives reading.one result (reading.level items.now room Named at) }
{
    if room == 0 {
        return Err(ReadFault::NoTree);
    }

    if is_name(items, at) {
        if is(items, at + 1, Word::Walrus) {
            return assigned(alloc, items, Kind::Walrus, room, at);
        }
    }
    test(alloc, items, room, at)
}

/// `NAME mark test`, where name and mark stand there.
#[cycle(reader)]
pub fn assigned(
    alloc: Global,
    items: &[Item<'_>],
    kind: Kind,
    room: u32,
    at: usize,
) -> Result<(Node, usize), ReadFault>
    requires here { at + 1 < length items.now }
    requires some { 0 < room }
    ensures within { IfOk result (λ x. x.1 ≤ length items.now) }
    ensures gives { Gives reading.one result (reading.assigned items.now room kind at) }
{
    let name = ident(alloc, items, at)?;
    let (value, end) = test(alloc, items, room, at + 2)?;
    let kids = two(alloc, name, value)?;
    let from = start_at(items, at);
    Ok((over(alloc, kind, from, end_before(items, end), kids), end))
}

/// `lambda | or ["if" or "else" test]`
#[cycle(reader)]
#[tactic(auto, using(crate::proofs::Steps::test_step, crate::proofs::Steps::level_none))]
pub fn test(
    alloc: Global,
    items: &[Item<'_>],
    room: u32,
    at: usize,
) -> Result<(Node, usize), ReadFault>
    requires { at ≤ length items.now }
    ensures within { IfOk result (λ x. x.1 ≤ length items.now) }
    ensures gives { Gives reading.one result (reading.level items.now room Test at) }
{
    if room == 0 {
        return Err(ReadFault::NoTree);
    }

    if is(items, at, Word::Lambda) {
        return lambda(alloc, items, room, at);
    }
    let (first, end) = binary(alloc, items, Binary::Or, room, at)?;
    if !is(items, end, Word::If) {
        return Ok((first, end));
    }
    let (condition, end) = binary(alloc, items, Binary::Or, room, end + 1)?;
    if !is(items, end, Word::Else) {
        return Err(ReadFault::NoTree);
    }
    let (last, end) = test(alloc, items, room - 1, end + 1)?;
    let kids = three(alloc, condition, first, last)?;
    let from = start_at(items, at);
    Ok((
        over(alloc, Kind::Cond, from, end_before(items, end), kids),
        end,
    ))
}

/// `"lambda" [params] ":" test`
#[cycle(reader)]
#[tactic(auto, using(crate::proofs::Steps::lambda_test_step, crate::proofs::Steps::level_none))]
fn lambda(
    alloc: Global,
    items: &[Item<'_>],
    room: u32,
    at: usize,
) -> Result<(Node, usize), ReadFault>
    requires { at ≤ length items.now }
    ensures within { IfOk result (λ x. x.1 ≤ length items.now) }
    ensures gives { Gives reading.one result (reading.level items.now room LambdaTest at) }
{
    if room == 0 {
        return Err(ReadFault::NoTree);
    }

    if !is(items, at, Word::Lambda) {
        return Err(ReadFault::NoTree);
    }
    let (params, end) = some_params(alloc, items, room, at + 1)?;
    if !is(items, end, Word::Colon) {
        return Err(ReadFault::NoTree);
    }
    let (value, end) = test(alloc, items, room - 1, end + 1)?;
    let from = start_at(items, at);
    let to = end_before(items, end);
    Ok((lambda_of(alloc, from, to, params, value)?, end))
}

/// The parameters of a lambda, where there are some.
#[cycle(reader)]
fn some_params(
    alloc: Global,
    items: &[Item<'_>],
    room: u32,
    at: usize,
) -> Result<(Option<Node>, usize), ReadFault>
    requires here { at ≤ length items.now }
    requires some { 0 < room }
    ensures within { IfOk result (λ x. x.1 ≤ length items.now) }
    ensures gives { Gives reading.maybe result (reading.some_params items.now room at) }
{
    if !starts_param(items, at) {
        return Ok((None, at));
    }
    let (list, end) = lambda_params(alloc, items, room - 1, at)?;
    Ok((Some(list), end))
}

/// `next {op next}`, from the left, for the operators of a level.
#[cycle(reader)]
#[tactic(auto, using(crate::proofs::Turns::tightest_none, crate::proofs::Steps::binary_step, crate::proofs::Steps::level_none))]
pub fn binary(
    alloc: Global,
    items: &[Item<'_>],
    level: Binary,
    room: u32,
    at: usize,
) -> Result<(Node, usize), ReadFault>
    requires { at ≤ length items.now }
    ensures within { IfOk result (λ x. x.1 ≤ length items.now) }
    ensures gives { Gives reading.one result (reading.level items.now room (reading.level_of level) at) }
{
    if room == 0 {
        return Err(ReadFault::NoTree);
    }

    let (first, end) = tightest(alloc, items, level, room, at)?;
    let (first, end) = climbed(alloc, items, level, room, at, first, end)?;
    chained(alloc, items, level, room, at, first, end)
}

/// What stands between the tightest operators that may stand in a chain of this level.
#[cycle(reader)]
fn tightest(
    alloc: Global,
    items: &[Item<'_>],
    level: Binary,
    room: u32,
    at: usize,
) -> Result<(Node, usize), ReadFault>
    requires { at ≤ length items.now }
    ensures within { IfOk result (λ x. x.1 ≤ length items.now) }
    ensures gives { Gives reading.one result (reading.level items.now room (reading.tightest_of level) at) }
{
    match level {
        Binary::Or | Binary::And => not(alloc, items, room, at),
        _ => unary(alloc, items, room, at),
    }
}

/// The level of operators that are the next tighter ones, where there is one.
fn tighter(level: Binary) -> Option<Binary>
    ensures { result ≡ reading.tighter_of level }
{
    match level {
        Binary::Or => Some(Binary::And),
        Binary::Bar => Some(Binary::Caret),
        Binary::Caret => Some(Binary::Ampersand),
        Binary::Ampersand => Some(Binary::Shift),
        Binary::Shift => Some(Binary::Sign),
        Binary::Sign => Some(Binary::Factor),
        Binary::And | Binary::Factor => None,
    }
}

/// An operand of the operators of a level: the chains of the tighter levels in turn, behind what stands before the first
/// of their operators.
#[cycle(reader)]
#[tactic(auto, using(crate::proofs::Turns::tighter_laws))]
fn climbed(
    alloc: Global,
    items: &[Item<'_>],
    level: Binary,
    room: u32,
    at: usize,
    first: Node,
    from: usize,
) -> Result<(Node, usize), ReadFault>
    requires here { from ≤ length items.now }
    requires some { 0 < room }
    requires read { reading.level items.now room (reading.tightest_of level) at ≡ Some (reading.one (first, from)) }
    ensures within { IfOk result (λ x. x.1 ≤ length items.now) }
    ensures gives { Gives reading.one result (reading.level items.now room (reading.operand_of level) at) }
{
    match tighter(level) {
        None => Ok((first, from)),
        Some(inner) => {
            let (first, end) = climbed(alloc, items, inner, room, at, first, from)?;
            chained(alloc, items, inner, room, at, first, end)
        }
    }
}

/// `{op next}` behind a first operand that was read, from the left, for the operators of a level.
#[cycle(reader)]
#[tactic(auto, using(crate::proofs::Turns::tightest_none, crate::proofs::Steps::binary_step, crate::proofs::Steps::binary_turn, crate::proofs::Steps::binary_turned))]
fn chained(
    alloc: Global,
    items: &[Item<'_>],
    level: Binary,
    room: u32,
    at: usize,
    first: Node,
    from: usize,
) -> Result<(Node, usize), ReadFault>
    requires here { from ≤ length items.now }
    requires some { 0 < room }
    requires read { reading.level items.now room (reading.operand_of level) at ≡ Some (reading.one (first, from)) }
    ensures within { IfOk result (λ x. x.1 ≤ length items.now) }
    ensures gives { Gives reading.one result (reading.level items.now room (reading.level_of level) at) }
{
    if !is_operator(items, from, level) {
        return Ok((first, from));
    }
    let start = start_at(items, at);
    let mut far = spine(&first, TOO_DEEP);
    let mut node = first;
    let mut end = from;
    for turn in 0..=items.len() {
        if !is_operator(items, end, level) {
            return Ok((node, end));
        }
        let text = text_at(alloc, items, end)?;
        let (right, next) = tightest(alloc, items, level, room, end + 1)?;
        let (right, next) = climbed(alloc, items, level, room, end + 1, right, next)?;
        let tail = Tail {
            kind: Kind::Binary,
            text,
            to: end_before(items, next),
            kid: Some(right),
        };
        node = attached(alloc, start, far, node, tail)?;
        far = farther(far);
        end = next;
    }
    Err(ReadFault::NoTree)
}

/// `"not" not | cmp`
#[cycle(reader)]
#[tactic(auto, using(crate::proofs::Steps::not_step, crate::proofs::Steps::level_none))]
pub fn not(
    alloc: Global,
    items: &[Item<'_>],
    room: u32,
    at: usize,
) -> Result<(Node, usize), ReadFault>
    requires { at ≤ length items.now }
    ensures within { IfOk result (λ x. x.1 ≤ length items.now) }
    ensures gives { Gives reading.one result (reading.level items.now room Not at) }
{
    if room == 0 {
        return Err(ReadFault::NoTree);
    }

    if !is(items, at, Word::Not) {
        return cmp(alloc, items, room, at);
    }
    let text = text_at(alloc, items, at)?;
    let (kid, end) = not(alloc, items, room - 1, at + 1)?;
    let kids = one(alloc, kid)?;
    let from = start_at(items, at);
    Ok((
        node_of(Kind::Unary, text, from, end_before(items, end), kids),
        end,
    ))
}

/// `bor {cop bor}`
#[cycle(reader)]
#[tactic(auto, using(crate::proofs::Steps::cmp_step, crate::proofs::Steps::cmp_turn, crate::proofs::Steps::cmp_turned, crate::proofs::Steps::level_none, crate::proofs::Steps::list_laws))]
pub fn cmp(
    alloc: Global,
    items: &[Item<'_>],
    room: u32,
    at: usize,
) -> Result<(Node, usize), ReadFault>
    requires { at ≤ length items.now }
    ensures within { IfOk result (λ x. x.1 ≤ length items.now) }
    ensures gives { Gives reading.one result (reading.level items.now room Cmp at) }
{
    if room == 0 {
        return Err(ReadFault::NoTree);
    }

    let (first, end) = binary(alloc, items, Binary::Bar, room, at)?;
    if !starts_cop(items, end) {
        return Ok((first, end));
    }
    let (mut text, next) = cop(alloc, items, room, end)?;
    let (second, mut end) = binary(alloc, items, Binary::Bar, room, next)?;
    let mut kids = two(alloc, first, second)?;
    let from = start_at(items, at);
    for turn in 1..=items.len() {
        if !starts_cop(items, end) {
            return Ok((
                node_of(Kind::Compare, text, from, end_before(items, end), kids),
                end,
            ));
        }
        let (more, next) = cop(alloc, items, room, end)?;
        text.push(" ")?;
        text.push(more.as_str())?;
        let (kid, next) = binary(alloc, items, Binary::Bar, room, next)?;
        kids.push(kid)?;
        end = next;
    }
    Err(ReadFault::NoTree)
}

/// An operator of a comparison, of one word or two with a space between them.
#[tactic(auto, using(crate::proofs::Steps::cop_step, crate::proofs::Steps::level_none))]
fn cop(alloc: Global, items: &[Item<'_>], room: u32, at: usize) -> Result<(Text, usize), ReadFault>
    requires { at ≤ length items.now }
    ensures within { IfOk result (λ x. x.1 ≤ length items.now) }
    ensures gives { Gives reading.one_sign result (reading.level items.now room Cop at) }
{
    if room == 0 {
        return Err(ReadFault::NoTree);
    }

    if is_comparison(items, at) {
        return Ok((text_at(alloc, items, at)?, at + 1));
    }
    if is(items, at, Word::Not) {
        if !is(items, at + 1, Word::In) {
            return Err(ReadFault::NoTree);
        }
        return Ok((two_words(alloc, items, at)?, at + 2));
    }
    if !is(items, at, Word::Is) {
        return Err(ReadFault::NoTree);
    }
    if !is(items, at + 1, Word::Not) {
        return Ok((text_at(alloc, items, at)?, at + 1));
    }
    Ok((two_words(alloc, items, at)?, at + 2))
}

/// `("+" | "-" | "~") unary | power`
#[cycle(reader)]
#[tactic(auto, using(crate::proofs::Steps::unary_step, crate::proofs::Steps::level_none))]
pub fn unary(
    alloc: Global,
    items: &[Item<'_>],
    room: u32,
    at: usize,
) -> Result<(Node, usize), ReadFault>
    requires { at ≤ length items.now }
    ensures within { IfOk result (λ x. x.1 ≤ length items.now) }
    ensures gives { Gives reading.one result (reading.level items.now room Unary at) }
{
    if room == 0 {
        return Err(ReadFault::NoTree);
    }

    if !is_sign(items, at) {
        return power(alloc, items, room, at);
    }
    let text = text_at(alloc, items, at)?;
    let (kid, end) = unary(alloc, items, room - 1, at + 1)?;
    let kids = one(alloc, kid)?;
    let from = start_at(items, at);
    Ok((
        node_of(Kind::Unary, text, from, end_before(items, end), kids),
        end,
    ))
}

/// `await ["**" unary]`
#[cycle(reader)]
#[tactic(auto, using(crate::proofs::Steps::power_step, crate::proofs::Steps::level_none))]
pub fn power(
    alloc: Global,
    items: &[Item<'_>],
    room: u32,
    at: usize,
) -> Result<(Node, usize), ReadFault>
    requires { at ≤ length items.now }
    ensures within { IfOk result (λ x. x.1 ≤ length items.now) }
    ensures gives { Gives reading.one result (reading.level items.now room Power at) }
{
    if room == 0 {
        return Err(ReadFault::NoTree);
    }

    let (first, end) = awaited(alloc, items, room, at)?;
    if !is(items, end, Word::Power) {
        return Ok((first, end));
    }
    let text = text_at(alloc, items, end)?;
    let (right, end) = unary(alloc, items, room - 1, end + 1)?;
    let from = start_at(items, at);
    let far = spine(&first, TOO_DEEP);
    let tail = Tail {
        kind: Kind::Binary,
        text,
        to: end_before(items, end),
        kid: Some(right),
    };
    Ok((attached(alloc, from, far, first, tail)?, end))
}

/// `["await"] prim`
#[cycle(reader)]
#[tactic(auto, using(crate::proofs::Steps::await_step, crate::proofs::Steps::level_none))]
pub fn awaited(
    alloc: Global,
    items: &[Item<'_>],
    room: u32,
    at: usize,
) -> Result<(Node, usize), ReadFault>
    requires { at ≤ length items.now }
    ensures within { IfOk result (λ x. x.1 ≤ length items.now) }
    ensures gives { Gives reading.one result (reading.level items.now room Await at) }
{
    if room == 0 {
        return Err(ReadFault::NoTree);
    }

    if !is(items, at, Word::Await) {
        return prim(alloc, items, room, at);
    }
    let (kid, end) = prim(alloc, items, room, at + 1)?;
    let kids = one(alloc, kid)?;
    let from = start_at(items, at);
    Ok((
        over(alloc, Kind::Await, from, end_before(items, end), kids),
        end,
    ))
}
