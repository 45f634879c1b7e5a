//! Primary expressions and what stands behind them.

ghost use Rattle.std.specs.Prelude.{◌≤◌, length, IfOk};
ghost use Rattle.node_tree.specs.Gives.{Gives};
ghost use Rattle.c_expr.specs.Table as table;
ghost use Rattle.c_expr.specs.reader.Reading as reading;

use crate::lists::{Listed, list};
use crate::look::{is, is_among, span_at, start_at, text_at};
use crate::make::{graft_none, graft_one, id, leaf, over, over_one};
use crate::operators::{assign, comma};
use crate::part::Part;
use crate::settle::{NAMES, takes_type};
use crate::types::type_name;
use crate::word::{Token, Word};
use node_tree::{Kind, ReadFault, Text};
use std::alloc::Global;

/// The expressions of one token, but strings.
const ATOMS: [Word; 6] = [
    Word::Name,
    Word::Number,
    Word::Char,
    Word::Meta,
    Word::MetaDots,
    Word::Dots,
];

const STRINGS: [Word; 2] = [Word::Str, Word::StrAny];

/// What a string goes on with.
const JOINED: [Word; 4] = [Word::Str, Word::StrAny, Word::Name, Word::Meta];

/// What a primary goes on with.
const SUFFIXES: [Word; 5] = [
    Word::OpenRound,
    Word::Step,
    Word::OpenSquare,
    Word::Dot,
    Word::Arrow,
];

/// What stands in front of the name of a member.
const ACCESSES: [Word; 2] = [Word::Dot, Word::Arrow];

/// `prim {suffix}`
#[cycle(reader)]
#[tactic(auto, using(crate::proofs::Steps::level_none, crate::proofs::Steps::postfix_step, crate::proofs::Steps::postfix_turn, crate::proofs::Steps::rest_turned, crate::proofs::Steps::graft_laws))]
pub fn postfix(
    alloc: Global,
    tokens: &[Token<'_>],
    room: u32,
    at: usize,
) -> Result<(Part, usize), ReadFault>
    requires { at ≤ length tokens.now }
    ensures within { IfOk result (λ x. x.1 ≤ length tokens.now) }
    ensures gives { Gives reading.one result (reading.level tokens.now room table.Postfix at) }
{
    if room == 0 {
        return Err(ReadFault::NoTree);
    }
    let from = start_at(tokens, at);
    let (mut part, mut end) = primary(alloc, tokens, room, at)?;
    for turn in 0..=tokens.len() {
        if !is_among(tokens, end, &SUFFIXES) {
            return Ok((part, end));
        }
        (part, end) = suffix(alloc, tokens, room, from, part, end)?;
    }
    Err(ReadFault::NoTree)
}

/// `"[" comma "]" | "(" args ")" | ("." | "->") NAME | "++" | "--"`, put over what stands before it.
#[cycle(reader)]
#[tactic(auto, using(crate::proofs::Steps::level_none, crate::proofs::Steps::suffix_step, crate::proofs::Steps::graft_laws))]
fn suffix(
    alloc: Global,
    tokens: &[Token<'_>],
    room: u32,
    from: u32,
    first: Part,
    at: usize,
) -> Result<(Part, usize), ReadFault>
    requires { at ≤ length tokens.now }
    ensures within { IfOk result (λ x. x.1 ≤ length tokens.now) }
    ensures gives { Gives reading.one result (reading.grafting from first (reading.level tokens.now room table.Suffix at)) }
{
    if room == 0 {
        return Err(ReadFault::NoTree);
    }
    if is(tokens, at, Word::OpenSquare) {
        let (index, close) = comma(alloc, tokens, room - 1, at + 1)?;
        if !is(tokens, close, Word::CloseSquare) {
            return Err(ReadFault::NoTree);
        }
        let span = span_at(tokens, at, close + 1);
        let part = graft_one(alloc, from, first, Kind::Sub, Text::new(alloc), span, index)?;
        return Ok((part, close + 1));
    }
    if is(tokens, at, Word::OpenRound) {
        let (args, close) = list(alloc, tokens, Listed::Args, room - 1, at + 1)?;
        if !is(tokens, close, Word::CloseRound) {
            return Err(ReadFault::NoTree);
        }
        let span = span_at(tokens, at, close + 1);
        let part = graft_one(alloc, from, first, Kind::Call, Text::new(alloc), span, args)?;
        return Ok((part, close + 1));
    }
    if is_among(tokens, at, &ACCESSES) {
        if !is_among(tokens, at + 1, &NAMES) {
            return Err(ReadFault::NoTree);
        }
        let name = id(alloc, tokens, at + 1)?;
        let text = Text::from_str(alloc, text_at(tokens, at))?;
        let span = span_at(tokens, at, at + 2);
        let part = graft_one(alloc, from, first, Kind::Attr, text, span, name)?;
        return Ok((part, at + 2));
    }
    if !is(tokens, at, Word::Step) {
        return Err(ReadFault::NoTree);
    }
    let text = Text::from_str(alloc, text_at(tokens, at))?;
    let span = span_at(tokens, at, at + 1);
    let part = graft_none(alloc, from, first, Kind::Postfix, text, span)?;
    Ok((part, at + 1))
}

/// `NAME | NUMBER | CHAR | strings | "(" comma ")"`
#[cycle(reader)]
#[tactic(auto, using(crate::proofs::Steps::level_none, crate::proofs::Steps::prim_step))]
pub fn primary(
    alloc: Global,
    tokens: &[Token<'_>],
    room: u32,
    at: usize,
) -> Result<(Part, usize), ReadFault>
    requires { at ≤ length tokens.now }
    ensures within { IfOk result (λ x. x.1 ≤ length tokens.now) }
    ensures gives { Gives reading.one result (reading.level tokens.now room table.Prim at) }
{
    if room == 0 {
        return Err(ReadFault::NoTree);
    }
    if is_among(tokens, at, &ATOMS) {
        return Ok((leaf(alloc, tokens, at)?, at + 1));
    }
    if is_among(tokens, at, &STRINGS) {
        return strings(alloc, tokens, room, at);
    }
    if is(tokens, at, Word::OpenRound) {
        let (inner, close) = comma(alloc, tokens, room - 1, at + 1)?;
        if !is(tokens, close, Word::CloseRound) {
            return Err(ReadFault::NoTree);
        }
        return Ok((inner, close + 1));
    }
    deep(alloc, tokens, room, at)
}

/// `STRING {STRING | NAME}`: one string itself, or several joined.
#[tactic(auto, using(crate::proofs::Steps::level_none, crate::proofs::Steps::strings_step, crate::proofs::Steps::strings_turn, crate::proofs::Steps::rest_turned, crate::proofs::Steps::list_laws))]
fn strings(
    alloc: Global,
    tokens: &[Token<'_>],
    room: u32,
    at: usize,
) -> Result<(Part, usize), ReadFault>
    requires { at ≤ length tokens.now }
    ensures within { IfOk result (λ x. x.1 ≤ length tokens.now) }
    ensures gives { Gives reading.one result (reading.level tokens.now room table.Strings at) }
{
    if room == 0 {
        return Err(ReadFault::NoTree);
    }
    if !is_among(tokens, at, &STRINGS) {
        return Err(ReadFault::NoTree);
    }
    let first = leaf(alloc, tokens, at)?;
    if !is_among(tokens, at + 1, &JOINED) {
        return Ok((first, at + 1));
    }
    let mut parts = vec![in alloc; first, leaf(alloc, tokens, at + 1)?]?;
    let mut end = at + 2;
    for turn in 0..tokens.len() {
        if !is_among(tokens, end, &JOINED) {
            let span = span_at(tokens, at, end);
            let part = over(alloc, Kind::StrJoin, Text::new(alloc), span, parts)?;
            return Ok((part, end));
        }
        parts.push(leaf(alloc, tokens, end)?)?;
        end += 1;
    }
    Err(ReadFault::NoTree)
}

/// `"<..." comma "...>"`
#[cycle(reader)]
#[tactic(auto, using(crate::proofs::Steps::level_none, crate::proofs::Steps::deep_step))]
fn deep(
    alloc: Global,
    tokens: &[Token<'_>],
    room: u32,
    at: usize,
) -> Result<(Part, usize), ReadFault>
    requires { at ≤ length tokens.now }
    ensures within { IfOk result (λ x. x.1 ≤ length tokens.now) }
    ensures gives { Gives reading.one result (reading.level tokens.now room table.Deep at) }
{
    if room == 0 {
        return Err(ReadFault::NoTree);
    }
    if !is(tokens, at, Word::DeepOpen) {
        return Err(ReadFault::NoTree);
    }
    let (kid, close) = comma(alloc, tokens, room - 1, at + 1)?;
    if !is(tokens, close, Word::DeepClose) {
        return Err(ReadFault::NoTree);
    }
    let end = close + 1;
    let span = span_at(tokens, at, end);
    let part = over_one(alloc, Kind::Deep, Text::new(alloc), span, kid)?;
    Ok((part, end))
}

/// `tname | assign`
#[cycle(reader)]
#[tactic(auto, using(crate::proofs::Steps::level_none, crate::proofs::Steps::arg_step))]
pub fn argument(
    alloc: Global,
    tokens: &[Token<'_>],
    room: u32,
    at: usize,
) -> Result<(Part, usize), ReadFault>
    requires { at ≤ length tokens.now }
    ensures within { IfOk result (λ x. x.1 ≤ length tokens.now) }
    ensures gives { Gives reading.one result (reading.level tokens.now room table.Arg at) }
{
    if room == 0 {
        return Err(ReadFault::NoTree);
    }
    if takes_type(tokens, at) {
        return type_name(alloc, tokens, room, at);
    }
    assign(alloc, tokens, room, at)
}
