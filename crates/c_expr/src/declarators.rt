//! Declarators, and the parameters of functions.

ghost use Rattle.std.specs.Prelude.{◌≡◌, ◌<◌, ◌≤◌, true, length, IfOk, IsTrue, []};
ghost use Rattle.c_expr.specs.Words.{none_is_end};
ghost use Rattle.node_tree.specs.Gives.{Gives};
ghost use Rattle.c_expr.specs.Table as table;
ghost use Rattle.c_expr.specs.reader.Reading as reading;
ghost use Rattle.c_expr.specs.Build.{source};

use crate::lists::{Listed, list};
use crate::look::{is, is_among, span_at, start_at, text_at};
use crate::make::{absent, graft_one, id, leaf, or_absent, over_one, over_two};
use crate::operators::assign;
use crate::part::{Part, Spelt};
use crate::settle::{NAMES, SPEC_WORDS, opens_declarator};
use crate::types::{spec, spell};
use crate::word::{Token, Word};
use node_tree::{Kind, ReadFault, Text};
use std::alloc::Global;

/// Whether a declarator has a name.
#[derive(Clone, Copy, Debug, PartialEq, Eq)]
pub enum Naming {
    Named,
    Nameless,
    Maybe,
}

const NAMED_STARTS: [Word; 4] = [Word::Star, Word::OpenRound, Word::Name, Word::Meta];

const NAMELESS_STARTS: [Word; 3] = [Word::Star, Word::OpenRound, Word::OpenSquare];

const MAYBE_STARTS: [Word; 5] = [
    Word::Star,
    Word::OpenRound,
    Word::OpenSquare,
    Word::Name,
    Word::Meta,
];

/// What begins the size of an array.
const SIZE_STARTS: [Word; 16] = [
    Word::Star,
    Word::Sign,
    Word::Ampersand,
    Word::OpenRound,
    Word::Flip,
    Word::Step,
    Word::Sizeof,
    Word::Name,
    Word::Meta,
    Word::Number,
    Word::Char,
    Word::MetaDots,
    Word::Dots,
    Word::Str,
    Word::StrAny,
    Word::DeepOpen,
];

/// What stands behind the name of an array or a function.
const BRACKETS: [Word; 2] = [Word::OpenRound, Word::OpenSquare];

/// What stands in the place of parameters.
const DOTS: [Word; 2] = [Word::Dots, Word::MetaDots];

/// The words that a declarator begins with.
fn starts(naming: Naming) -> &'static [Word]
    ensures words { result.now ≡ reading.declr_starts naming }
    ensures some { IsTrue (none_is_end result.now) }
{
    match naming {
        Naming::Named => &NAMED_STARTS,
        Naming::Nameless => &NAMELESS_STARTS,
        Naming::Maybe => &MAYBE_STARTS,
    }
}

/// A declarator that may be left out.
#[cycle(reader)]
pub fn maybe_declarator(
    alloc: Global,
    tokens: &[Token<'_>],
    naming: Naming,
    room: u32,
    at: usize,
) -> Result<(Option<Part>, usize), ReadFault>
    requires { at ≤ length tokens.now }
    ensures within { IfOk result (λ x. x.1 ≤ length tokens.now) }
    ensures gives { Gives reading.maybe result (reading.optional tokens.now room (reading.declr_level naming) at) }
{
    if !is_among(tokens, at, starts(naming)) {
        return Ok((None, at));
    }
    let (part, end) = declarator(alloc, tokens, naming, room, at)?;
    Ok((Some(part), end))
}

/// `"*" words declr | direct`
#[cycle(reader)]
#[tactic(auto, using(crate::proofs::Steps::level_none, crate::proofs::Steps::declr_step))]
pub fn declarator(
    alloc: Global,
    tokens: &[Token<'_>],
    naming: Naming,
    room: u32,
    at: usize,
) -> Result<(Part, usize), ReadFault>
    requires { at ≤ length tokens.now }
    ensures within { IfOk result (λ x. x.1 ≤ length tokens.now) }
    ensures gives { Gives reading.one result (reading.level tokens.now room (reading.declr_level naming) at) }
{
    if room == 0 {
        return Err(ReadFault::NoTree);
    }
    if !is(tokens, at, Word::Star) {
        return direct(alloc, tokens, naming, room, at);
    }
    let (text, end) = words(alloc, tokens, room, at + 1)?;
    let (kid, end) = pointed(alloc, tokens, naming, room - 1, end)?;
    let span = span_at(tokens, at, end);
    let part = over_one(
        alloc,
        Kind::Ptr,
        text,
        span,
        or_absent(alloc, span.from, kid),
    )?;
    Ok((part, end))
}

/// What a pointer points to, which may be left out with the name.
#[cycle(reader)]
fn pointed(
    alloc: Global,
    tokens: &[Token<'_>],
    naming: Naming,
    room: u32,
    at: usize,
) -> Result<(Option<Part>, usize), ReadFault>
    requires { at ≤ length tokens.now }
    ensures within { IfOk result (λ x. x.1 ≤ length tokens.now) }
    ensures gives { Gives reading.maybe result (reading.pointed_read tokens.now room naming at) }
{
    if naming != Naming::Named {
        return maybe_declarator(alloc, tokens, naming, room, at);
    }
    let (part, end) = declarator(alloc, tokens, naming, room, at)?;
    Ok((Some(part), end))
}

/// The words behind a `*`, with a space between two.
#[tactic(auto, using(crate::proofs::Steps::level_none, crate::proofs::Steps::words_step, crate::proofs::Steps::words_turn, crate::proofs::Steps::rest_turned, crate::proofs::Steps::graft_laws))]
fn words(
    alloc: Global,
    tokens: &[Token<'_>],
    room: u32,
    at: usize,
) -> Result<(Text, usize), ReadFault>
    requires { at ≤ length tokens.now }
    ensures within { IfOk result (λ x. x.1 ≤ length tokens.now) }
    ensures gives { Gives reading.words_seen result (reading.gathering ([], []) (reading.level tokens.now room table.Words at)) }
{
    if room == 0 {
        return Err(ReadFault::NoTree);
    }
    let mut spelt = Spelt {
        text: Text::new(alloc),
        kids: Vec::new(alloc),
    };
    let mut end = at;
    for turn in 0..=tokens.len() {
        if !is_among(tokens, end, &SPEC_WORDS) {
            let Spelt { text, kids } = spelt;
            return Ok((text, end));
        }
        spelt = spell(tokens, spelt, end)?;
        end += 1;
    }
    Err(ReadFault::NoTree)
}

/// `Id | "(" declr ")"` and the brackets behind it, or these alone where there is no name.
#[cycle(reader)]
#[tactic(auto, using(crate::proofs::Steps::level_none, crate::proofs::Steps::direct_step, crate::proofs::Steps::graft_laws))]
fn direct(
    alloc: Global,
    tokens: &[Token<'_>],
    naming: Naming,
    room: u32,
    at: usize,
) -> Result<(Part, usize), ReadFault>
    requires { at ≤ length tokens.now }
    ensures within { IfOk result (λ x. x.1 ≤ length tokens.now) }
    ensures gives { Gives reading.one result (reading.level tokens.now room (reading.direct_level naming) at) }
{
    if room == 0 {
        return Err(ReadFault::NoTree);
    }
    let from = start_at(tokens, at);
    if opens_nested(tokens, naming, at) {
        let (inner, close) = declarator(alloc, tokens, naming, room - 1, at + 1)?;
        if !is(tokens, close, Word::CloseRound) {
            return Err(ReadFault::NoTree);
        }
        return brackets(alloc, tokens, room, from, inner, close + 1);
    }
    if takes_name(tokens, naming, at) {
        let name = id(alloc, tokens, at)?;
        return brackets(alloc, tokens, room, from, name, at + 1);
    }
    if naming == Naming::Named {
        return Err(ReadFault::NoTree);
    }
    let (part, end) = bracket(alloc, tokens, room, from, absent(alloc, from), at)?;
    brackets(alloc, tokens, room, from, part, end)
}

/// Whether a declarator in parentheses stands there.
fn opens_nested(tokens: &[Token<'_>], naming: Naming, at: usize) -> bool
    ensures test { result ≡ reading.opens_nested naming (source tokens.now).cls at }
    ensures within { result ≡ true → at < length tokens.now }
{
    match naming {
        Naming::Named => is(tokens, at, Word::OpenRound),
        Naming::Nameless | Naming::Maybe => opens_declarator(tokens, at),
    }
}

/// Whether a name stands there, where one may.
fn takes_name(tokens: &[Token<'_>], naming: Naming, at: usize) -> bool
    ensures test { result ≡ reading.takes_name naming (source tokens.now).cls at }
    ensures within { result ≡ true → at < length tokens.now }
{
    match naming {
        Naming::Nameless => false,
        Naming::Named | Naming::Maybe => is_among(tokens, at, &NAMES),
    }
}

/// `{"[" [assign] "]" | "(" [params] ")"}`, put over what stands before it.
#[cycle(reader)]
#[tactic(auto, using(crate::proofs::Steps::level_none, crate::proofs::Steps::declr_tail_step, crate::proofs::Steps::declr_turn, crate::proofs::Steps::rest_turned, crate::proofs::Steps::graft_laws))]
fn brackets(
    alloc: Global,
    tokens: &[Token<'_>],
    room: u32,
    from: u32,
    first: Part,
    at: usize,
) -> Result<(Part, usize), ReadFault>
    requires { at ≤ length tokens.now }
    ensures within { IfOk result (λ x. x.1 ≤ length tokens.now) }
    ensures gives { Gives reading.one result (reading.grafting from first (reading.level tokens.now room table.DeclrTail at)) }
{
    if room == 0 {
        return Err(ReadFault::NoTree);
    }
    let mut part = first;
    let mut end = at;
    for turn in 0..=tokens.len() {
        if !is_among(tokens, end, &BRACKETS) {
            return Ok((part, end));
        }
        (part, end) = bracket(alloc, tokens, room, from, part, end)?;
    }
    Err(ReadFault::NoTree)
}

/// `"[" [assign] "]" | "(" [params] ")"`, put over what stands before it.
#[cycle(reader)]
#[tactic(auto, using(crate::proofs::Steps::level_none, crate::proofs::Steps::declr_part_step, crate::proofs::Steps::graft_laws))]
fn bracket(
    alloc: Global,
    tokens: &[Token<'_>],
    room: u32,
    from: u32,
    first: Part,
    at: usize,
) -> Result<(Part, usize), ReadFault>
    requires { at ≤ length tokens.now }
    ensures within { IfOk result (λ x. x.1 ≤ length tokens.now) }
    ensures gives { Gives reading.one result (reading.grafting from first (reading.level tokens.now room table.DeclrPart at)) }
{
    if room == 0 {
        return Err(ReadFault::NoTree);
    }
    if is(tokens, at, Word::OpenSquare) {
        let (size, close) = array_size(alloc, tokens, room - 1, at + 1)?;
        if !is(tokens, close, Word::CloseSquare) {
            return Err(ReadFault::NoTree);
        }
        let end = close + 1;
        let span = span_at(tokens, at, end);
        let size = or_absent(alloc, span.from, size);
        let text = Text::new(alloc);
        let part = graft_one(alloc, from, first, Kind::ArrayOf, text, span, size)?;
        return Ok((part, end));
    }
    if !is(tokens, at, Word::OpenRound) {
        return Err(ReadFault::NoTree);
    }
    let (params, close) = list(alloc, tokens, Listed::Params, room - 1, at + 1)?;
    if !is(tokens, close, Word::CloseRound) {
        return Err(ReadFault::NoTree);
    }
    let end = close + 1;
    let span = span_at(tokens, at, end);
    let text = Text::new(alloc);
    let part = graft_one(alloc, from, first, Kind::FuncOf, text, span, params)?;
    Ok((part, end))
}

/// The size of an array, which may be left out.
#[cycle(reader)]
fn array_size(
    alloc: Global,
    tokens: &[Token<'_>],
    room: u32,
    at: usize,
) -> Result<(Option<Part>, usize), ReadFault>
    requires { at ≤ length tokens.now }
    ensures within { IfOk result (λ x. x.1 ≤ length tokens.now) }
    ensures gives { Gives reading.maybe result (reading.optional tokens.now room table.Assign at) }
{
    if !is_among(tokens, at, &SIZE_STARTS) {
        return Ok((None, at));
    }
    let (part, end) = assign(alloc, tokens, room, at)?;
    Ok((Some(part), end))
}

/// `spec [declr] | "..."`
#[cycle(reader)]
#[tactic(auto, using(crate::proofs::Steps::level_none, crate::proofs::Steps::param_step))]
pub fn parameter(
    alloc: Global,
    tokens: &[Token<'_>],
    room: u32,
    at: usize,
) -> Result<(Part, usize), ReadFault>
    requires { at ≤ length tokens.now }
    ensures within { IfOk result (λ x. x.1 ≤ length tokens.now) }
    ensures gives { Gives reading.one result (reading.level tokens.now room table.Param at) }
{
    if room == 0 {
        return Err(ReadFault::NoTree);
    }
    if is_among(tokens, at, &DOTS) {
        return Ok((leaf(alloc, tokens, at)?, at + 1));
    }
    let from = start_at(tokens, at);
    if is(tokens, at, Word::Ellipsis) {
        let text = Text::from_str(alloc, text_at(tokens, at))?;
        let span = span_at(tokens, at, at + 1);
        let base = absent(alloc, from);
        let part = over_two(alloc, Kind::ParamC, text, span, base, absent(alloc, from))?;
        return Ok((part, at + 1));
    }
    let (base, end) = spec(alloc, tokens, room, at)?;
    let (declr, end) = maybe_declarator(alloc, tokens, Naming::Maybe, room, end)?;
    let span = span_at(tokens, at, end);
    let declr = or_absent(alloc, from, declr);
    let part = over_two(alloc, Kind::ParamC, Text::new(alloc), span, base, declr)?;
    Ok((part, end))
}
