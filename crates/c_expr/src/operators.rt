//! Expressions with operators: a function for each level of the grammar, by the token in hand.

ghost use Rattle.std.specs.Prelude.{◌<◌, ◌≡◌, ◌≤◌, [], ◌∷◌, length, IfOk, IsTrue, map};
ghost use Rattle.node_tree.specs.declared.kind.Kind.TheVariants as kinds;
ghost use Rattle.c_expr.specs.Words.{none_is_end, class};
ghost use Rattle.c_expr.specs.Table.{Named};
ghost use Rattle.c_expr.specs.Build.{cut, grafted, built};
ghost use Rattle.c_expr.specs.reader.Reading as reading;
ghost use Rattle.node_tree.specs.Gives.{Gives};
ghost use Rattle.c_expr.specs.Table as table;

use crate::look::{is, is_among, span_at, start_at, text_at};
use crate::make::{graft_one, graft_two, over_one, over_two};
use crate::part::Part;
use crate::primaries::postfix;
use crate::settle::{opens_cast, sizes_type};
use crate::types::type_name;
use crate::word::{Token, Word};
use node_tree::{Kind, Memory, ReadFault, Text};
use std::alloc::Global;

/// The unary operators in front of a cast.
const SIGNS: [Word; 4] = [Word::Ampersand, Word::Star, Word::Sign, Word::Flip];

/// What assigns.
const ASSIGNMENTS: [Word; 2] = [Word::Equals, Word::Assigns];

/// The operators of a level, each of which takes its operands from the left.
#[derive(Clone, Copy, Debug, PartialEq, Eq)]
pub enum Precedence {
    Multiplicative,
    Additive,
    Shift,
    Relational,
    Equality,
    BitAnd,
    BitXor,
    BitOr,
    And,
    Or,
}

const MULTIPLICATIVE: [Word; 2] = [Word::Star, Word::Slash];

const ADDITIVE: [Word; 1] = [Word::Sign];

const SHIFT: [Word; 1] = [Word::Shift];

const RELATIONAL: [Word; 1] = [Word::Order];

const EQUALITY: [Word; 1] = [Word::Equality];

const BIT_AND: [Word; 1] = [Word::Ampersand];

const BIT_XOR: [Word; 1] = [Word::Caret];

const BIT_OR: [Word; 1] = [Word::Bar];

const AND: [Word; 1] = [Word::And];

const OR: [Word; 1] = [Word::Or];

/// All levels, the tightest first.
const LEVELS: [Precedence; 10] = [
    Precedence::Multiplicative,
    Precedence::Additive,
    Precedence::Shift,
    Precedence::Relational,
    Precedence::Equality,
    Precedence::BitAnd,
    Precedence::BitXor,
    Precedence::BitOr,
    Precedence::And,
    Precedence::Or,
];

/// The operators of a level.
fn operators(level: Precedence) -> &'static [Word]
    ensures words { result.now ≡ reading.operators level }
    ensures some { IsTrue (none_is_end result.now) }
{
    match level {
        Precedence::Multiplicative => &MULTIPLICATIVE,
        Precedence::Additive => &ADDITIVE,
        Precedence::Shift => &SHIFT,
        Precedence::Relational => &RELATIONAL,
        Precedence::Equality => &EQUALITY,
        Precedence::BitAnd => &BIT_AND,
        Precedence::BitXor => &BIT_XOR,
        Precedence::BitOr => &BIT_OR,
        Precedence::And => &AND,
        Precedence::Or => &OR,
    }
}

/// How loosely the operators of a level bind.
fn looseness(level: Precedence) -> usize
    ensures { result ≡ reading.looseness level }
{
    match level {
        Precedence::Multiplicative => 0,
        Precedence::Additive => 1,
        Precedence::Shift => 2,
        Precedence::Relational => 3,
        Precedence::Equality => 4,
        Precedence::BitAnd => 5,
        Precedence::BitXor => 6,
        Precedence::BitOr => 7,
        Precedence::And => 8,
        Precedence::Or => 9,
    }
}

/// The level that binds so loosely.
fn level_at(step: usize) -> Precedence
    ensures { result ≡ reading.level_at step }
{
    match LEVELS.get(step) {
        Some(level) => *level,
        None => Precedence::Or,
    }
}

/// The next level of operators that binds more tightly.
fn tighter(level: Precedence) -> Option<Precedence>
    ensures { result ≡ reading.tighter level }
{
    match level {
        Precedence::Multiplicative => None,
        Precedence::Additive => Some(Precedence::Multiplicative),
        Precedence::Shift => Some(Precedence::Additive),
        Precedence::Relational => Some(Precedence::Shift),
        Precedence::Equality => Some(Precedence::Relational),
        Precedence::BitAnd => Some(Precedence::Equality),
        Precedence::BitXor => Some(Precedence::BitAnd),
        Precedence::BitOr => Some(Precedence::BitXor),
        Precedence::And => Some(Precedence::BitOr),
        Precedence::Or => Some(Precedence::And),
    }
}

/// An operator put over what stands before it and what stands behind it.
fn binary(
    alloc: Global,
    tokens: &[Token<'_>],
    kind: Kind,
    from: u32,
    left: Part,
    at: usize,
    right: Part,
    end: usize,
) -> Result<Part, Memory>
    ensures { IfOk result (λ p. p ≡ cut (grafted from left (cut (built tokens.now (Named kind 0) at end (right ∷ []))))) }
{
    let text = Text::from_str(alloc, text_at(tokens, at))?;
    graft_one(
        alloc,
        from,
        left,
        kind,
        text,
        span_at(tokens, at, end),
        right,
    )
}

/// `assign {"," assign}`
#[cycle(reader)]
#[tactic(auto, using(crate::proofs::Steps::level_none, crate::proofs::Climbs::comma_step, crate::proofs::Climbs::comma_turn, crate::proofs::Steps::rest_turned, crate::proofs::Steps::graft_laws))]
pub fn comma(
    alloc: Global,
    tokens: &[Token<'_>],
    room: u32,
    at: usize,
) -> Result<(Part, usize), ReadFault>
    requires { at ≤ length tokens.now }
    ensures within { IfOk result (λ x. x.1 ≤ length tokens.now) }
    ensures gives { Gives reading.one result (reading.level tokens.now room table.Comma at) }
{
    if room == 0 {
        return Err(ReadFault::NoTree);
    }
    let from = start_at(tokens, at);
    let (mut part, mut end) = assign(alloc, tokens, room, at)?;
    for turn in 0..=tokens.len() {
        if !is(tokens, end, Word::Comma) {
            return Ok((part, end));
        }
        let (right, next) = assign(alloc, tokens, room, end + 1)?;
        part = binary(alloc, tokens, Kind::Binary, from, part, end, right, next)?;
        end = next;
    }
    Err(ReadFault::NoTree)
}

/// `unary aop assign | cond`
#[cycle(reader)]
#[tactic(auto, using(crate::proofs::Steps::level_none, crate::proofs::Climbs::assign_step))]
pub fn assign(
    alloc: Global,
    tokens: &[Token<'_>],
    room: u32,
    at: usize,
) -> Result<(Part, usize), ReadFault>
    requires { at ≤ length tokens.now }
    ensures within { IfOk result (λ x. x.1 ≤ length tokens.now) }
    ensures gives { Gives reading.one result (reading.level tokens.now room table.Assign at) }
{
    if room == 0 {
        return Err(ReadFault::NoTree);
    }
    let from = start_at(tokens, at);
    if opens_cast(tokens, at) {
        let (first, end) = cast(alloc, tokens, room, at)?;
        return cond_rest(alloc, tokens, room, from, first, end);
    }
    let (first, end) = unary(alloc, tokens, room, at)?;
    assign_rest(alloc, tokens, room, from, first, end)
}

/// What stands behind a unary at the start of an assign.
#[cycle(reader)]
#[tactic(auto, using(crate::proofs::Climbs::assign_more_step, crate::proofs::Steps::graft_laws))]
fn assign_rest(
    alloc: Global,
    tokens: &[Token<'_>],
    room: u32,
    from: u32,
    first: Part,
    at: usize,
) -> Result<(Part, usize), ReadFault>
    requires place { at ≤ length tokens.now }
    requires some { 0 < room }
    ensures within { IfOk result (λ x. x.1 ≤ length tokens.now) }
    ensures gives { Gives reading.one result (reading.grafting from first (reading.optional tokens.now room table.AssignMore at)) }
{
    if !is_among(tokens, at, &ASSIGNMENTS) {
        return cond_rest(alloc, tokens, room, from, first, at);
    }
    let (right, end) = assign(alloc, tokens, room - 1, at + 1)?;
    let part = binary(alloc, tokens, Kind::AssignE, from, first, at, right, end)?;
    Ok((part, end))
}

/// `lor "?" comma ":" cond | lor`
#[cycle(reader)]
#[tactic(auto, using(crate::proofs::Steps::level_none, crate::proofs::Climbs::cond_step))]
pub fn conditional(
    alloc: Global,
    tokens: &[Token<'_>],
    room: u32,
    at: usize,
) -> Result<(Part, usize), ReadFault>
    requires { at ≤ length tokens.now }
    ensures within { IfOk result (λ x. x.1 ≤ length tokens.now) }
    ensures gives { Gives reading.one result (reading.level tokens.now room table.Cond at) }
{
    if room == 0 {
        return Err(ReadFault::NoTree);
    }
    let (first, end) = cast(alloc, tokens, room, at)?;
    cond_rest(alloc, tokens, room, start_at(tokens, at), first, end)
}

/// What may stand behind the first operand of a cond: operators, the tightest first, and a condition.
#[cycle(reader)]
#[tactic(auto, using(crate::proofs::Steps::graft_laws))]
fn cond_rest(
    alloc: Global,
    tokens: &[Token<'_>],
    room: u32,
    from: u32,
    first: Part,
    at: usize,
) -> Result<(Part, usize), ReadFault>
    requires place { at ≤ length tokens.now }
    requires some { 0 < room }
    ensures within { IfOk result (λ x. x.1 ≤ length tokens.now) }
    ensures gives { Gives reading.one result (reading.condition tokens.now room from first at) }
{
    let (part, end) = climb(alloc, tokens, Precedence::Or, room, from, first, at)?;
    if !is(tokens, end, Word::Question) {
        return Ok((part, end));
    }
    cond_part(alloc, tokens, room, from, part, end)
}

/// `"?" comma ":" cond`
#[cycle(reader)]
#[tactic(auto, using(crate::proofs::Steps::level_none, crate::proofs::Climbs::cond_part_step, crate::proofs::Steps::graft_laws))]
fn cond_part(
    alloc: Global,
    tokens: &[Token<'_>],
    room: u32,
    from: u32,
    first: Part,
    at: usize,
) -> Result<(Part, usize), ReadFault>
    requires { at ≤ length tokens.now }
    ensures within { IfOk result (λ x. x.1 ≤ length tokens.now) }
    ensures gives { Gives reading.one result (reading.grafting from first (reading.level tokens.now room table.CondPart at)) }
{
    if room == 0 {
        return Err(ReadFault::NoTree);
    }
    if !is(tokens, at, Word::Question) {
        return Err(ReadFault::NoTree);
    }
    let (then, colon) = comma(alloc, tokens, room - 1, at + 1)?;
    if !is(tokens, colon, Word::Colon) {
        return Err(ReadFault::NoTree);
    }
    let (other, end) = conditional(alloc, tokens, room - 1, colon + 1)?;
    let text = Text::new(alloc);
    let span = span_at(tokens, at, end);
    let part = graft_two(alloc, from, first, Kind::Cond, text, span, then, other)?;
    Ok((part, end))
}

/// A cast, and behind it the operators up to those of a level.
#[cycle(reader)]
#[tactic(auto, using(crate::proofs::Steps::level_none, crate::proofs::Climbs::chain_step))]
pub fn chain(
    alloc: Global,
    tokens: &[Token<'_>],
    level: Precedence,
    room: u32,
    at: usize,
) -> Result<(Part, usize), ReadFault>
    requires { at ≤ length tokens.now }
    ensures within { IfOk result (λ x. x.1 ≤ length tokens.now) }
    ensures gives { Gives reading.one result (reading.level tokens.now room (reading.chain_level level) at) }
{
    if room == 0 {
        return Err(ReadFault::NoTree);
    }
    let from = start_at(tokens, at);
    let (first, end) = cast(alloc, tokens, room, at)?;
    climb(alloc, tokens, level, room, from, first, end)
}

/// The operators up to those of a level, one level after another, the tightest first.
#[cycle(reader)]
#[tactic(auto, using(crate::proofs::Climbs::climb_start, crate::proofs::Climbs::climb_turn, crate::proofs::Climbs::climb_turned))]
fn climb(
    alloc: Global,
    tokens: &[Token<'_>],
    level: Precedence,
    room: u32,
    from: u32,
    first: Part,
    at: usize,
) -> Result<(Part, usize), ReadFault>
    requires place { at ≤ length tokens.now }
    requires some { 0 < room }
    ensures within { IfOk result (λ x. x.1 ≤ length tokens.now) }
    ensures gives { Gives reading.one result (reading.climbed tokens.now room from level first at) }
{
    let mut part = first;
    let mut end = at;
    for step in 0..=looseness(level) {
        (part, end) = level_operators(alloc, tokens, level_at(step), room, from, part, end)?;
    }
    Ok((part, end))
}

/// The operators of a level, each with its right side, put over what stands before them.
#[cycle(reader)]
#[tactic(auto, using(crate::proofs::Climbs::ops_read, crate::proofs::Climbs::ops_turn, crate::proofs::Climbs::ops_turned, crate::proofs::Steps::graft_laws))]
fn level_operators(
    alloc: Global,
    tokens: &[Token<'_>],
    level: Precedence,
    room: u32,
    from: u32,
    first: Part,
    at: usize,
) -> Result<(Part, usize), ReadFault>
    requires place { at ≤ length tokens.now }
    requires some { 0 < room }
    ensures within { IfOk result (λ x. x.1 ≤ length tokens.now) }
    ensures gives { Gives reading.one result (reading.grafting from first (reading.optional tokens.now room (reading.ops_level level) at)) }
{
    if !is_among(tokens, at, operators(level)) {
        return Ok((first, at));
    }
    let mut part = first;
    let mut end = at;
    for turn in 0..=tokens.len() {
        let (right, next) = operand(alloc, tokens, level, room, end + 1)?;
        part = binary(alloc, tokens, Kind::Binary, from, part, end, right, next)?;
        end = next;
        if !is_among(tokens, end, operators(level)) {
            return Ok((part, end));
        }
    }
    Err(ReadFault::NoTree)
}

/// The right side of an operator of a level.
#[cycle(reader)]
fn operand(
    alloc: Global,
    tokens: &[Token<'_>],
    level: Precedence,
    room: u32,
    at: usize,
) -> Result<(Part, usize), ReadFault>
    requires { at ≤ length tokens.now }
    ensures within { IfOk result (λ x. x.1 ≤ length tokens.now) }
    ensures gives { Gives reading.one result (reading.level tokens.now room (reading.right_level (reading.tighter level)) at) }
{
    match tighter(level) {
        Some(inner) => chain(alloc, tokens, inner, room, at),
        None => cast(alloc, tokens, room, at),
    }
}

/// `"(" tname ")" cast | unary`
#[cycle(reader)]
#[tactic(auto, using(crate::proofs::Steps::level_none, crate::proofs::Steps::cast_step))]
pub fn cast(
    alloc: Global,
    tokens: &[Token<'_>],
    room: u32,
    at: usize,
) -> Result<(Part, usize), ReadFault>
    requires { at ≤ length tokens.now }
    ensures within { IfOk result (λ x. x.1 ≤ length tokens.now) }
    ensures gives { Gives reading.one result (reading.level tokens.now room table.Cast at) }
{
    if room == 0 {
        return Err(ReadFault::NoTree);
    }
    if !opens_cast(tokens, at) {
        return unary(alloc, tokens, room, at);
    }
    let (target, close) = type_name(alloc, tokens, room - 1, at + 1)?;
    if !is(tokens, close, Word::CloseRound) {
        return Err(ReadFault::NoTree);
    }
    let (kid, end) = cast(alloc, tokens, room - 1, close + 1)?;
    let span = span_at(tokens, at, end);
    let part = over_two(alloc, Kind::Cast, Text::new(alloc), span, target, kid)?;
    Ok((part, end))
}

/// An operator put over what stands behind it.
fn unary_over(
    alloc: Global,
    tokens: &[Token<'_>],
    at: usize,
    kid: Part,
    end: usize,
) -> Result<Part, Memory>
    ensures { IfOk result (λ p. p ≡ cut (built tokens.now (Named kinds.Unary 0) at end (kid ∷ []))) }
{
    let text = Text::from_str(alloc, text_at(tokens, at))?;
    over_one(alloc, Kind::Unary, text, span_at(tokens, at, end), kid)
}

/// `sign cast | ("++" | "--") unary | sizeof | postfix`
#[cycle(reader)]
#[tactic(auto, using(crate::proofs::Steps::level_none, crate::proofs::Steps::unary_step))]
pub fn unary(
    alloc: Global,
    tokens: &[Token<'_>],
    room: u32,
    at: usize,
) -> Result<(Part, usize), ReadFault>
    requires { at ≤ length tokens.now }
    ensures within { IfOk result (λ x. x.1 ≤ length tokens.now) }
    ensures gives { Gives reading.one result (reading.level tokens.now room table.Unary at) }
{
    if room == 0 {
        return Err(ReadFault::NoTree);
    }
    if is_among(tokens, at, &SIGNS) {
        let (kid, end) = cast(alloc, tokens, room - 1, at + 1)?;
        return Ok((unary_over(alloc, tokens, at, kid, end)?, end));
    }
    if is(tokens, at, Word::Step) {
        let (kid, end) = unary(alloc, tokens, room - 1, at + 1)?;
        return Ok((unary_over(alloc, tokens, at, kid, end)?, end));
    }
    if is(tokens, at, Word::Sizeof) {
        return size(alloc, tokens, room, at);
    }
    postfix(alloc, tokens, room, at)
}

/// `"sizeof" "(" tname ")" | "sizeof" unary`
#[cycle(reader)]
#[tactic(auto, using(crate::proofs::Steps::level_none, crate::proofs::Steps::sizeof_step))]
fn size(
    alloc: Global,
    tokens: &[Token<'_>],
    room: u32,
    at: usize,
) -> Result<(Part, usize), ReadFault>
    requires { at ≤ length tokens.now }
    ensures within { IfOk result (λ x. x.1 ≤ length tokens.now) }
    ensures gives { Gives reading.one result (reading.level tokens.now room table.Sizeof at) }
{
    if room == 0 {
        return Err(ReadFault::NoTree);
    }
    if !sizes_type(tokens, at) {
        if !is(tokens, at, Word::Sizeof) {
            return Err(ReadFault::NoTree);
        }
        let (kid, end) = unary(alloc, tokens, room - 1, at + 1)?;
        return Ok((unary_over(alloc, tokens, at, kid, end)?, end));
    }
    let (target, close) = type_name(alloc, tokens, room - 1, at + 2)?;
    if !is(tokens, close, Word::CloseRound) {
        return Err(ReadFault::NoTree);
    }
    let end = close + 1;
    let span = span_at(tokens, at, end);
    let part = over_one(alloc, Kind::SizeofType, Text::new(alloc), span, target)?;
    Ok((part, end))
}
