//! Type names and specs.

ghost use Rattle.std.specs.Prelude.{◌≡◌, ◌≤◌, length, IfOk, IsTrue, ◌<◌, map};
ghost use Rattle.c_expr.specs.Words.{none_is_end, class};
ghost use Rattle.c_expr.specs.Build as build;
ghost use Rattle.c_expr.specs.Build.{token_at};
ghost use Rattle.node_tree.specs.Gives.{Gives};
ghost use Rattle.c_expr.specs.Table as table;
ghost use Rattle.c_expr.specs.reader.Reading as reading;

use crate::declarators::{Naming, maybe_declarator};
use crate::look::{is, is_among, span_at, text_at};
use crate::make::{leaf, or_absent, over, over_two};
use crate::members::body;
use crate::part::{Part, Spelt};
use crate::settle::NAMES;
use crate::word::{Token, Word};
use node_tree::{Kind, Memory, ReadFault, Text};
use std::alloc::Global;

/// The words that say a type alone.
const BARE_WORDS: [Word; 2] = [Word::Name, Word::TypeWord];

/// The words that may follow them.
const LATER_WORDS: [Word; 2] = [Word::TypeWord, Word::Qualifier];

/// What goes on with words that say a type.
const TYPED_GOES_ON: [Word; 3] = [Word::TypeWord, Word::Qualifier, Word::Tag];

/// What goes on with a spec that has no type yet.
const SPEC_GOES_ON: [Word; 4] = [Word::Name, Word::TypeWord, Word::Tag, Word::Qualifier];

/// The spelling there behind others.
pub fn spell(tokens: &[Token<'_>], spelt: Spelt, at: usize) -> Result<Spelt, Memory>
    ensures text { IfOk result (λ s. s.text ≡ build.spelled_more spelt.text (token_at tokens.now at).text) }
    ensures kids { IfOk result (λ s. s.kids.items ≡ spelt.kids.items) }
{
    let Spelt { mut text, kids } = spelt;
    if text.len() > 0 {
        text.push(" ")?;
    }
    text.push(text_at(tokens, at))?;
    Ok(Spelt { text, kids })
}

/// `spec declr`, of which the declr has no name
#[cycle(reader)]
#[tactic(auto, using(crate::proofs::Steps::level_none, crate::proofs::Steps::tname_step))]
pub fn type_name(
    alloc: Global,
    tokens: &[Token<'_>],
    room: u32,
    at: usize,
) -> Result<(Part, usize), ReadFault>
    requires { at ≤ length tokens.now }
    ensures within { IfOk result (λ x. x.1 ≤ length tokens.now) }
    ensures gives { Gives reading.one result (reading.level tokens.now room table.Tname at) }
{
    if room == 0 {
        return Err(ReadFault::NoTree);
    }
    let (base, end) = spec(alloc, tokens, room, at)?;
    let (declr, end) = maybe_declarator(alloc, tokens, Naming::Nameless, room, end)?;
    let span = span_at(tokens, at, end);
    let declr = or_absent(alloc, span.from, declr);
    let part = over_two(alloc, Kind::TypeName, Text::new(alloc), span, base, declr)?;
    Ok((part, end))
}

/// Words, one name at most, and groups; or one metavariable.
#[cycle(reader)]
#[tactic(auto, using(crate::proofs::Steps::level_none, crate::proofs::Steps::spec_step, crate::proofs::Steps::graft_laws))]
pub fn spec(
    alloc: Global,
    tokens: &[Token<'_>],
    room: u32,
    at: usize,
) -> Result<(Part, usize), ReadFault>
    requires { at ≤ length tokens.now }
    ensures within { IfOk result (λ x. x.1 ≤ length tokens.now) }
    ensures gives { Gives reading.one result (reading.level tokens.now room table.Spec at) }
{
    if room == 0 {
        return Err(ReadFault::NoTree);
    }
    if is(tokens, at, Word::Meta) {
        return Ok((leaf(alloc, tokens, at)?, at + 1));
    }
    let spelt = Spelt {
        text: Text::new(alloc),
        kids: Vec::new(alloc),
    };
    let (spelt, end) = spec_start(alloc, tokens, room, spelt, at)?;
    let Spelt { text, kids } = spelt;
    let part = over(alloc, Kind::TypeSpec, text, span_at(tokens, at, end), kids)?;
    Ok((part, end))
}

/// Qualifiers, and what else follows.
#[cycle(reader)]
#[tactic(auto, using(crate::proofs::Steps::level_none, crate::proofs::Steps::spec_start_step, crate::proofs::Steps::graft_laws))]
fn spec_start(
    alloc: Global,
    tokens: &[Token<'_>],
    room: u32,
    spelt: Spelt,
    at: usize,
) -> Result<(Spelt, usize), ReadFault>
    requires { at ≤ length tokens.now }
    ensures within { IfOk result (λ x. x.1 ≤ length tokens.now) }
    ensures gives { Gives reading.seen result (reading.gathering (spelt.text, spelt.kids.items) (reading.level tokens.now room table.SpecStart at)) }
{
    if room == 0 {
        return Err(ReadFault::NoTree);
    }
    if !is(tokens, at, Word::Qualifier) {
        return typed(alloc, tokens, room, spelt, at);
    }
    let spelt = spell(tokens, spelt, at)?;
    qualified(alloc, tokens, room, spelt, at + 1)
}

/// What stands behind a first qualifier.
#[cycle(reader)]
#[tactic(auto, using(crate::proofs::Steps::level_none, crate::proofs::Steps::qualifiers_tail_step, crate::proofs::Steps::qualifiers_turn, crate::proofs::Steps::rest_turned, crate::proofs::Steps::graft_laws))]
fn qualified(
    alloc: Global,
    tokens: &[Token<'_>],
    room: u32,
    spelt: Spelt,
    at: usize,
) -> Result<(Spelt, usize), ReadFault>
    requires { at ≤ length tokens.now }
    ensures within { IfOk result (λ x. x.1 ≤ length tokens.now) }
    ensures gives { Gives reading.seen result (reading.gathering (spelt.text, spelt.kids.items) (reading.level tokens.now room table.QualifiersTail at)) }
{
    if room == 0 {
        return Err(ReadFault::NoTree);
    }
    let mut spelt = spelt;
    let mut end = at;
    for turn in 0..=tokens.len() {
        if !is_among(tokens, end, &SPEC_GOES_ON) {
            return Ok((spelt, end));
        }
        if !is(tokens, end, Word::Qualifier) {
            return typed(alloc, tokens, room, spelt, end);
        }
        spelt = spell(tokens, spelt, end)?;
        end += 1;
    }
    Err(ReadFault::NoTree)
}

/// A name, a type word or a group, and then no name.
#[cycle(reader)]
#[tactic(auto, using(crate::proofs::Steps::level_none, crate::proofs::Steps::typed_step, crate::proofs::Steps::typed_turn, crate::proofs::Steps::rest_turned, crate::proofs::Steps::graft_laws))]
fn typed(
    alloc: Global,
    tokens: &[Token<'_>],
    room: u32,
    spelt: Spelt,
    at: usize,
) -> Result<(Spelt, usize), ReadFault>
    requires { at ≤ length tokens.now }
    ensures within { IfOk result (λ x. x.1 ≤ length tokens.now) }
    ensures gives { Gives reading.seen result (reading.gathering (spelt.text, spelt.kids.items) (reading.level tokens.now room table.Typed at)) }
{
    if room == 0 {
        return Err(ReadFault::NoTree);
    }
    let (mut spelt, mut end) = word_or_group(alloc, tokens, &BARE_WORDS, room, spelt, at)?;
    for turn in 0..=tokens.len() {
        if !is_among(tokens, end, &TYPED_GOES_ON) {
            return Ok((spelt, end));
        }
        (spelt, end) = word_or_group(alloc, tokens, &LATER_WORDS, room, spelt, end)?;
    }
    Err(ReadFault::NoTree)
}

/// One of these words, or a group.
#[cycle(reader)]
#[tactic(auto, using(crate::proofs::Steps::gathered_spelling))]
fn word_or_group(
    alloc: Global,
    tokens: &[Token<'_>],
    words: &[Word],
    room: u32,
    spelt: Spelt,
    at: usize,
) -> Result<(Spelt, usize), ReadFault>
    requires place { at ≤ length tokens.now }
    requires some { IsTrue (none_is_end words.now) }
    ensures within { IfOk result (λ x. x.1 ≤ length tokens.now) }
    ensures gives { Gives reading.seen result (reading.gathering (spelt.text, spelt.kids.items) (reading.word_or_group tokens.now room (map class words.now) at)) }
{
    if is_among(tokens, at, words) {
        return Ok((spell(tokens, spelt, at)?, at + 1));
    }
    group(alloc, tokens, room, spelt, at)
}

/// `("struct" | "union" | "enum") [NAME] [body]`, where a metavariable is no name
#[cycle(reader)]
#[tactic(auto, using(crate::proofs::Steps::level_none, crate::proofs::Steps::group_step, crate::proofs::Steps::graft_laws))]
fn group(
    alloc: Global,
    tokens: &[Token<'_>],
    room: u32,
    spelt: Spelt,
    at: usize,
) -> Result<(Spelt, usize), ReadFault>
    requires { at ≤ length tokens.now }
    ensures within { IfOk result (λ x. x.1 ≤ length tokens.now) }
    ensures gives { Gives reading.seen result (reading.gathering (spelt.text, spelt.kids.items) (reading.level tokens.now room table.Group at)) }
{
    if room == 0 {
        return Err(ReadFault::NoTree);
    }
    if !is(tokens, at, Word::Tag) {
        return Err(ReadFault::NoTree);
    }
    let spelt = spell(tokens, spelt, at)?;
    if !is_among(tokens, at + 1, &NAMES) {
        return maybe_body(alloc, tokens, room, spelt, at + 1);
    }
    if !is(tokens, at + 1, Word::Name) {
        return Err(ReadFault::NoTree);
    }
    let spelt = spell(tokens, spelt, at + 1)?;
    maybe_body(alloc, tokens, room, spelt, at + 2)
}

/// `[body]`
#[cycle(reader)]
#[tactic(auto, using(crate::proofs::Steps::graft_laws))]
fn maybe_body(
    alloc: Global,
    tokens: &[Token<'_>],
    room: u32,
    spelt: Spelt,
    at: usize,
) -> Result<(Spelt, usize), ReadFault>
    requires { at ≤ length tokens.now }
    ensures within { IfOk result (λ x. x.1 ≤ length tokens.now) }
    ensures gives { Gives reading.seen result (reading.gathering (spelt.text, spelt.kids.items) (reading.optional tokens.now room table.Body at)) }
{
    if !is(tokens, at, Word::OpenCurly) {
        return Ok((spelt, at));
    }
    let (inner, end) = body(alloc, tokens, room, at)?;
    let Spelt { text, mut kids } = spelt;
    kids.push(inner)?;
    Ok((Spelt { text, kids }, end))
}
