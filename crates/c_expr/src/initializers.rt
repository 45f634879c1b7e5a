//! Variables and their values.

ghost use Rattle.std.specs.Prelude.{◌≤◌, length, IfOk};
ghost use Rattle.node_tree.specs.Gives.{Gives};
ghost use Rattle.c_expr.specs.Table as table;
ghost use Rattle.c_expr.specs.reader.Reading as reading;

use crate::declarators::{Naming, declarator};
use crate::lists::{Listed, items};
use crate::look::{is, is_among, span_at};
use crate::make::{id, or_absent, over, over_one, over_two};
use crate::operators::{assign, conditional};
use crate::part::Part;
use crate::settle::NAMES;
use crate::word::{Token, Word};
use node_tree::{Kind, ReadFault, Text};
use std::alloc::Global;

/// What a designator begins with.
const DESIGNATOR_STARTS: [Word; 2] = [Word::OpenSquare, Word::Dot];

/// `declr ["=" init]`
#[tactic(auto, using(crate::proofs::Steps::level_none, crate::proofs::Steps::var_step))]
pub fn variable(
    alloc: Global,
    tokens: &[Token<'_>],
    room: u32,
    at: usize,
) -> Result<(Part, usize), ReadFault>
    requires { at ≤ length tokens.now }
    ensures within { IfOk result (λ x. x.1 ≤ length tokens.now) }
    ensures gives { Gives reading.one result (reading.level tokens.now room table.Var at) }
{
    if room == 0 {
        return Err(ReadFault::NoTree);
    }
    let (name, end) = declarator(alloc, tokens, Naming::Named, room, at)?;
    let (value, end) = maybe_value(alloc, tokens, room, end)?;
    let span = span_at(tokens, at, end);
    let value = or_absent(alloc, span.from, value);
    let part = over_two(alloc, Kind::Var, Text::new(alloc), span, name, value)?;
    Ok((part, end))
}

/// `["=" init]`
#[cycle(reader)]
pub fn maybe_value(
    alloc: Global,
    tokens: &[Token<'_>],
    room: u32,
    at: usize,
) -> Result<(Option<Part>, usize), ReadFault>
    requires { at ≤ length tokens.now }
    ensures within { IfOk result (λ x. x.1 ≤ length tokens.now) }
    ensures gives { Gives reading.maybe result (reading.behind_equals tokens.now room table.Init at) }
{
    if !is(tokens, at, Word::Equals) {
        return Ok((None, at));
    }
    let (part, end) = value(alloc, tokens, room, at + 1)?;
    Ok((Some(part), end))
}

/// `assign | "{" [initializer {"," initializer} [","]] "}"`
#[cycle(reader)]
#[tactic(auto, using(crate::proofs::Steps::level_none, crate::proofs::Steps::init_step))]
fn value(
    alloc: Global,
    tokens: &[Token<'_>],
    room: u32,
    at: usize,
) -> Result<(Part, usize), ReadFault>
    requires { at ≤ length tokens.now }
    ensures within { IfOk result (λ x. x.1 ≤ length tokens.now) }
    ensures gives { Gives reading.one result (reading.level tokens.now room table.Init at) }
{
    if room == 0 {
        return Err(ReadFault::NoTree);
    }
    if !is(tokens, at, Word::OpenCurly) {
        return assign(alloc, tokens, room, at);
    }
    let (parts, close) = items(alloc, tokens, Listed::Initializers, room - 1, at + 1)?;
    if !is(tokens, close, Word::CloseCurly) {
        return Err(ReadFault::NoTree);
    }
    let end = close + 1;
    let span = span_at(tokens, at, end);
    let part = over(alloc, Kind::InitList, Text::new(alloc), span, parts)?;
    Ok((part, end))
}

/// `init | designator {designator} "=" init`
#[cycle(reader)]
#[tactic(auto, using(crate::proofs::Steps::level_none, crate::proofs::Steps::ini_step))]
pub fn initializer(
    alloc: Global,
    tokens: &[Token<'_>],
    room: u32,
    at: usize,
) -> Result<(Part, usize), ReadFault>
    requires { at ≤ length tokens.now }
    ensures within { IfOk result (λ x. x.1 ≤ length tokens.now) }
    ensures gives { Gives reading.one result (reading.level tokens.now room table.Ini at) }
{
    if room == 0 {
        return Err(ReadFault::NoTree);
    }
    if !is_among(tokens, at, &DESIGNATOR_STARTS) {
        return value(alloc, tokens, room, at);
    }
    let (parts, middle) = designators(alloc, tokens, room, at)?;
    let span = span_at(tokens, at, middle);
    let place = over(alloc, Kind::List, Text::new(alloc), span, parts)?;
    if !is(tokens, middle, Word::Equals) {
        return Err(ReadFault::NoTree);
    }
    let (item, end) = value(alloc, tokens, room, middle + 1)?;
    let span = span_at(tokens, at, end);
    let part = over_two(alloc, Kind::Designated, Text::new(alloc), span, place, item)?;
    Ok((part, end))
}

/// `designator {designator}`
#[cycle(reader)]
#[tactic(auto, using(crate::proofs::Steps::level_none, crate::proofs::Steps::desigs_step, crate::proofs::Steps::desigs_turn, crate::proofs::Steps::rest_turned, crate::proofs::Steps::list_laws))]
fn designators(
    alloc: Global,
    tokens: &[Token<'_>],
    room: u32,
    at: usize,
) -> Result<(Vec<Part>, usize), ReadFault>
    requires { at ≤ length tokens.now }
    ensures within { IfOk result (λ x. x.1 ≤ length tokens.now) }
    ensures gives { Gives reading.parts result (reading.level tokens.now room table.Desigs at) }
{
    if room == 0 {
        return Err(ReadFault::NoTree);
    }
    let (first, mut end) = designator(alloc, tokens, room, at)?;
    let mut parts = vec![in alloc; first]?;
    for turn in 0..=tokens.len() {
        if !is_among(tokens, end, &DESIGNATOR_STARTS) {
            return Ok((parts, end));
        }
        let (part, next) = designator(alloc, tokens, room, end)?;
        parts.push(part)?;
        end = next;
    }
    Err(ReadFault::NoTree)
}

/// `"." NAME | "[" cond "]"`
#[cycle(reader)]
#[tactic(auto, using(crate::proofs::Steps::level_none, crate::proofs::Steps::desig_step))]
fn designator(
    alloc: Global,
    tokens: &[Token<'_>],
    room: u32,
    at: usize,
) -> Result<(Part, usize), ReadFault>
    requires { at ≤ length tokens.now }
    ensures within { IfOk result (λ x. x.1 ≤ length tokens.now) }
    ensures gives { Gives reading.one result (reading.level tokens.now room table.Desig at) }
{
    if room == 0 {
        return Err(ReadFault::NoTree);
    }
    if is(tokens, at, Word::Dot) {
        if !is_among(tokens, at + 1, &NAMES) {
            return Err(ReadFault::NoTree);
        }
        let name = id(alloc, tokens, at + 1)?;
        let span = span_at(tokens, at, at + 2);
        let part = over_one(alloc, Kind::DesField, Text::new(alloc), span, name)?;
        return Ok((part, at + 2));
    }
    if !is(tokens, at, Word::OpenSquare) {
        return Err(ReadFault::NoTree);
    }
    let (index, close) = conditional(alloc, tokens, room - 1, at + 1)?;
    if !is(tokens, close, Word::CloseSquare) {
        return Err(ReadFault::NoTree);
    }
    let end = close + 1;
    let span = span_at(tokens, at, end);
    let part = over_one(alloc, Kind::DesIndex, Text::new(alloc), span, index)?;
    Ok((part, end))
}
