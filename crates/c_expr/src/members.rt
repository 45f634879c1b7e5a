//! The bodies of structures, unions and enumerations.

ghost use Rattle.std.specs.Prelude.{◌≤◌, length, IfOk, ◌≡◌, false, []};
ghost use Rattle.c_expr.specs.Build.{cut, over, span_between, is_spelling};
ghost use Rattle.node_tree.specs.Gives.{Gives};
ghost use Rattle.c_expr.specs.Table as table;
ghost use Rattle.c_expr.specs.reader.Reading as reading;

use crate::declarators::{Naming, declarator};
use crate::initializers::maybe_value;
use crate::lists::{Listed, items, list};
use crate::look::{is, is_among, span_at};
use crate::make::{id, or_absent, over, over_two, widen};
use crate::operators::conditional;
use crate::part::Part;
use crate::settle::{NAMES, opens_enumerators};
use crate::types::spec;
use crate::word::{Token, Word};
use node_tree::{Kind, Memory, ReadFault, Text};
use std::alloc::Global;

/// What a field begins with.
const FIELD_STARTS: [Word; 5] = [
    Word::Name,
    Word::Meta,
    Word::Qualifier,
    Word::TypeWord,
    Word::Tag,
];

/// `"{" enumerators "}" | "{" {field} "}"`
#[cycle(reader)]
#[tactic(auto, using(crate::proofs::Steps::level_none, crate::proofs::Steps::body_step))]
pub fn body(
    alloc: Global,
    tokens: &[Token<'_>],
    room: u32,
    at: usize,
) -> Result<(Part, usize), ReadFault>
    requires { at ≤ length tokens.now }
    ensures within { IfOk result (λ x. x.1 ≤ length tokens.now) }
    ensures gives { Gives reading.one result (reading.level tokens.now room table.Body at) }
    ensures no_spelling { IfOk result (λ x. is_spelling x.0 ≡ false) }
{
    if room == 0 {
        return Err(ReadFault::NoTree);
    }
    if !is(tokens, at, Word::OpenCurly) {
        return Err(ReadFault::NoTree);
    }
    if opens_enumerators(tokens, at) {
        let (parts, close) = items(alloc, tokens, Listed::Enumerators, room - 1, at + 1)?;
        if !is(tokens, close, Word::CloseCurly) {
            return Err(ReadFault::NoTree);
        }
        let end = close + 1;
        return Ok((
            body_over(alloc, tokens, Kind::EnumItems, parts, at, end)?,
            end,
        ));
    }
    let (parts, close) = fields(alloc, tokens, room - 1, at + 1)?;
    if !is(tokens, close, Word::CloseCurly) {
        return Err(ReadFault::NoTree);
    }
    let end = close + 1;
    Ok((body_over(alloc, tokens, Kind::Fields, parts, at, end)?, end))
}

/// The node over a body.
#[tactic(auto, using(crate::proofs::Pieces::no_spelling))]
fn body_over(
    alloc: Global,
    tokens: &[Token<'_>],
    kind: Kind,
    parts: Vec<Part>,
    at: usize,
    end: usize,
) -> Result<Part, Memory>
    ensures made { IfOk result (λ p. p ≡ cut (over kind [] (span_between tokens.now at end) parts.items)) }
    ensures no_spelling { IfOk result (λ p. is_spelling p ≡ false) }
{
    over(
        alloc,
        kind,
        Text::new(alloc),
        span_at(tokens, at, end),
        parts,
    )
}

/// `{field}`
#[cycle(reader)]
#[tactic(auto, using(crate::proofs::Steps::level_none, crate::proofs::Steps::fields_step, crate::proofs::Steps::fields_turn, crate::proofs::Steps::rest_turned, crate::proofs::Steps::list_laws))]
fn fields(
    alloc: Global,
    tokens: &[Token<'_>],
    room: u32,
    at: usize,
) -> Result<(Vec<Part>, usize), ReadFault>
    requires { at ≤ length tokens.now }
    ensures within { IfOk result (λ x. x.1 ≤ length tokens.now) }
    ensures gives { Gives reading.parts result (reading.level tokens.now room table.Fields at) }
{
    if room == 0 {
        return Err(ReadFault::NoTree);
    }
    let mut parts = Vec::new(alloc);
    let mut end = at;
    for turn in 0..=tokens.len() {
        if !is_among(tokens, end, &FIELD_STARTS) {
            return Ok((parts, end));
        }
        let (part, next) = field(alloc, tokens, room, end)?;
        parts.push(part)?;
        end = next;
    }
    Err(ReadFault::NoTree)
}

/// `spec [member {"," member}] ";"`
#[cycle(reader)]
#[tactic(auto, using(crate::proofs::Steps::level_none, crate::proofs::Steps::field_step))]
fn field(
    alloc: Global,
    tokens: &[Token<'_>],
    room: u32,
    at: usize,
) -> Result<(Part, usize), ReadFault>
    requires { at ≤ length tokens.now }
    ensures within { IfOk result (λ x. x.1 ≤ length tokens.now) }
    ensures gives { Gives reading.one result (reading.level tokens.now room table.Field at) }
{
    if room == 0 {
        return Err(ReadFault::NoTree);
    }
    let (base, end) = spec(alloc, tokens, room, at)?;
    let (members, close) = list(alloc, tokens, Listed::Members, room, end)?;
    if !is(tokens, close, Word::Semicolon) {
        return Err(ReadFault::NoTree);
    }
    let end = close + 1;
    let span = span_at(tokens, at, end);
    let part = over_two(alloc, Kind::Decl, Text::new(alloc), span, base, members)?;
    Ok((part, end))
}

/// `declr [":" cond] ["=" init]`
#[cycle(reader)]
#[tactic(auto, using(crate::proofs::Steps::level_none, crate::proofs::Steps::member_step))]
pub fn member(
    alloc: Global,
    tokens: &[Token<'_>],
    room: u32,
    at: usize,
) -> Result<(Part, usize), ReadFault>
    requires { at ≤ length tokens.now }
    ensures within { IfOk result (λ x. x.1 ≤ length tokens.now) }
    ensures gives { Gives reading.one result (reading.level tokens.now room table.Member at) }
{
    if room == 0 {
        return Err(ReadFault::NoTree);
    }
    let (name, end) = width(alloc, tokens, room, at)?;
    let (value, end) = maybe_value(alloc, tokens, room, end)?;
    let span = span_at(tokens, at, end);
    let value = or_absent(alloc, span.from, value);
    let part = over_two(alloc, Kind::Var, Text::new(alloc), span, name, value)?;
    Ok((part, end))
}

/// `declr [":" cond]`, where the width has no node
#[cycle(reader)]
#[tactic(auto, using(crate::proofs::Steps::level_none, crate::proofs::Steps::width_step))]
fn width(
    alloc: Global,
    tokens: &[Token<'_>],
    room: u32,
    at: usize,
) -> Result<(Part, usize), ReadFault>
    requires { at ≤ length tokens.now }
    ensures within { IfOk result (λ x. x.1 ≤ length tokens.now) }
    ensures gives { Gives reading.one result (reading.level tokens.now room table.Width at) }
{
    if room == 0 {
        return Err(ReadFault::NoTree);
    }
    let (name, end) = declarator(alloc, tokens, Naming::Named, room, at)?;
    if !is(tokens, end, Word::Colon) {
        return Ok((name, end));
    }
    let (bits, end) = conditional(alloc, tokens, room, end + 1)?;
    Ok((widen(alloc, name, bits), end))
}

/// `NAME ["=" cond]`
#[cycle(reader)]
#[tactic(auto, using(crate::proofs::Steps::level_none, crate::proofs::Steps::enumerator_step))]
pub fn enumerator(
    alloc: Global,
    tokens: &[Token<'_>],
    room: u32,
    at: usize,
) -> Result<(Part, usize), ReadFault>
    requires { at ≤ length tokens.now }
    ensures within { IfOk result (λ x. x.1 ≤ length tokens.now) }
    ensures gives { Gives reading.one result (reading.level tokens.now room table.Enumerator at) }
{
    if room == 0 {
        return Err(ReadFault::NoTree);
    }
    if !is_among(tokens, at, &NAMES) {
        return Err(ReadFault::NoTree);
    }
    let name = id(alloc, tokens, at)?;
    let (value, end) = maybe_number(alloc, tokens, room, at + 1)?;
    let span = span_at(tokens, at, end);
    let value = or_absent(alloc, span.from, value);
    let part = over_two(alloc, Kind::EnumItem, Text::new(alloc), span, name, value)?;
    Ok((part, end))
}

/// `["=" cond]`
#[cycle(reader)]
fn maybe_number(
    alloc: Global,
    tokens: &[Token<'_>],
    room: u32,
    at: usize,
) -> Result<(Option<Part>, usize), ReadFault>
    requires { at ≤ length tokens.now }
    ensures within { IfOk result (λ x. x.1 ≤ length tokens.now) }
    ensures gives { Gives reading.maybe result (reading.behind_equals tokens.now room table.Cond at) }
{
    if !is(tokens, at, Word::Equals) {
        return Ok((None, at));
    }
    let (part, end) = conditional(alloc, tokens, room, at + 1)?;
    Ok((Some(part), end))
}
