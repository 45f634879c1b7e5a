//! Lists with commas.

ghost use Rattle.std.specs.Prelude.{◌≤◌, length, IfOk, IsTrue, ◌≡◌};
ghost use Rattle.c_expr.specs.Words.{none_is_end};
ghost use Rattle.node_tree.specs.Gives.{Gives};
ghost use Rattle.c_expr.specs.Table as table;
ghost use Rattle.c_expr.specs.reader.Reading as reading;

use crate::declarators::parameter;
use crate::initializers::initializer;
use crate::look::{is, is_among, span_at};
use crate::make::over;
use crate::members::{enumerator, member};
use crate::part::Part;
use crate::primaries::argument;
use crate::word::{Token, Word};
use node_tree::{Kind, ReadFault, Text};
use std::alloc::Global;

/// What stands in a list.
#[derive(Clone, Copy, Debug, PartialEq, Eq)]
pub enum Listed {
    Args,
    Params,
    Members,
    Enumerators,
    Initializers,
}

const ARG_STARTS: [Word; 19] = [
    Word::Star,
    Word::Sign,
    Word::Ampersand,
    Word::OpenRound,
    Word::Flip,
    Word::Step,
    Word::Sizeof,
    Word::Name,
    Word::Meta,
    Word::Number,
    Word::Char,
    Word::MetaDots,
    Word::Dots,
    Word::Str,
    Word::StrAny,
    Word::DeepOpen,
    Word::Qualifier,
    Word::TypeWord,
    Word::Tag,
];

const PARAM_STARTS: [Word; 8] = [
    Word::Name,
    Word::Meta,
    Word::MetaDots,
    Word::Dots,
    Word::Qualifier,
    Word::TypeWord,
    Word::Tag,
    Word::Ellipsis,
];

const MEMBER_STARTS: [Word; 4] = [Word::Star, Word::OpenRound, Word::Name, Word::Meta];

const ENUMERATOR_STARTS: [Word; 2] = [Word::Name, Word::Meta];

const INITIALIZER_STARTS: [Word; 19] = [
    Word::Star,
    Word::Sign,
    Word::Ampersand,
    Word::OpenRound,
    Word::Flip,
    Word::Step,
    Word::Sizeof,
    Word::OpenSquare,
    Word::Dot,
    Word::Name,
    Word::Meta,
    Word::Number,
    Word::Char,
    Word::MetaDots,
    Word::Dots,
    Word::Str,
    Word::StrAny,
    Word::DeepOpen,
    Word::OpenCurly,
];

/// The words that a part of a list begins with.
fn starts(listed: Listed) -> &'static [Word]
    ensures words { result.now ≡ reading.item_starts listed }
    ensures some { IsTrue (none_is_end result.now) }
{
    match listed {
        Listed::Args => &ARG_STARTS,
        Listed::Params => &PARAM_STARTS,
        Listed::Members => &MEMBER_STARTS,
        Listed::Enumerators => &ENUMERATOR_STARTS,
        Listed::Initializers => &INITIALIZER_STARTS,
    }
}

/// Whether a comma may stand behind the last part.
fn trails(listed: Listed) -> bool
    ensures { result ≡ reading.trails listed }
{
    match listed {
        Listed::Args | Listed::Params | Listed::Members => false,
        Listed::Enumerators | Listed::Initializers => true,
    }
}

/// A node over a list, without the brackets round it.
#[cycle(reader)]
pub fn list(
    alloc: Global,
    tokens: &[Token<'_>],
    listed: Listed,
    room: u32,
    at: usize,
) -> Result<(Part, usize), ReadFault>
    requires { at ≤ length tokens.now }
    ensures within { IfOk result (λ x. x.1 ≤ length tokens.now) }
    ensures gives { Gives reading.one result (reading.list_read tokens.now room listed at) }
{
    let (parts, end) = items(alloc, tokens, listed, room, at)?;
    let span = span_at(tokens, at, end);
    let part = over(alloc, Kind::List, Text::new(alloc), span, parts)?;
    Ok((part, end))
}

/// `[part {"," part} [","]]`
#[cycle(reader)]
#[tactic(auto, using(crate::proofs::Steps::level_none, crate::proofs::Steps::listed_step, crate::proofs::Steps::listed_turn, crate::proofs::Steps::rest_turned, crate::proofs::Steps::list_laws))]
pub fn items(
    alloc: Global,
    tokens: &[Token<'_>],
    listed: Listed,
    room: u32,
    at: usize,
) -> Result<(Vec<Part>, usize), ReadFault>
    requires { at ≤ length tokens.now }
    ensures within { IfOk result (λ x. x.1 ≤ length tokens.now) }
    ensures gives { Gives reading.parts result (reading.level tokens.now room (reading.list_level listed) at) }
{
    if room == 0 {
        return Err(ReadFault::NoTree);
    }
    if !is_among(tokens, at, starts(listed)) {
        return Ok((Vec::new(alloc), at));
    }
    let (first, mut end) = item(alloc, tokens, listed, room, at)?;
    let mut parts = vec![in alloc; first]?;
    for turn in 0..=tokens.len() {
        if !is(tokens, end, Word::Comma) {
            return Ok((parts, end));
        }
        if trails(listed) {
            if !is_among(tokens, end + 1, starts(listed)) {
                return Ok((parts, end + 1));
            }
        }
        let (part, next) = item(alloc, tokens, listed, room, end + 1)?;
        parts.push(part)?;
        end = next;
    }
    Err(ReadFault::NoTree)
}

/// A part of a list.
#[cycle(reader)]
fn item(
    alloc: Global,
    tokens: &[Token<'_>],
    listed: Listed,
    room: u32,
    at: usize,
) -> Result<(Part, usize), ReadFault>
    requires { at ≤ length tokens.now }
    ensures within { IfOk result (λ x. x.1 ≤ length tokens.now) }
    ensures gives { Gives reading.one result (reading.level tokens.now room (reading.item_level listed) at) }
{
    match listed {
        Listed::Args => argument(alloc, tokens, room, at),
        Listed::Params => parameter(alloc, tokens, room, at),
        Listed::Members => member(alloc, tokens, room, at),
        Listed::Enumerators => enumerator(alloc, tokens, room, at),
        Listed::Initializers => initializer(alloc, tokens, room, at),
    }
}
