//! From tokens to the part that they spell: a function for each level of the grammar, by the token in hand.

ghost use Rattle.std.specs.Prelude.{◌≡◌, ◌≢◌, ◌+◌, ◌<◌, ◌≤◌, true, length, IfOk, eqb};
ghost use Rattle.grammar.specs.Rule.{has};
ghost use Rattle.meta_filter.specs.declared.token.Word.TheVariants.{End};
ghost use Rattle.meta_filter.specs.Words.{class};
ghost use Rattle.meta_filter.specs.Table.{Inverse, Chain, Negative, Atom, compares};
ghost use Rattle.meta_filter.specs.Build.{token_at};
ghost use Rattle.meta_filter.specs.Reading as reading;

use crate::fault::CompareFault;
use crate::layer::Layer;
use crate::part::{
    Part, chained, enclosed, figure, first_link, inside, inverse, joined, named, negative,
    next_link,
};
use crate::token::{Token, Word};
use std::alloc::Global;

/// The word that stands there, or the end.
fn word_at(tokens: &[Token<'_>], at: usize) -> Word
    ensures { result ≡ (token_at tokens.now at).word }
{
    match tokens.get(at) {
        Some(token) => token.word,
        None => Word::End,
    }
}

/// The text of the token there.
fn text_at<'t>(tokens: &[Token<'t>], at: usize) -> &'t str
    ensures { result.now ≡ (token_at tokens.now at).text }
{
    match tokens.get(at) {
        Some(token) => token.text.as_str(),
        None => "",
    }
}

/// Whether this word stands there.
#[tactic(auto, unfolding(crate::specs::Words::class))]
fn is(tokens: &[Token<'_>], at: usize, word: Word) -> bool
    ensures test { result ≡ eqb (class word) (class (token_at tokens.now at).word) }
    ensures within { result ≡ true → word ≢ End → at < length tokens.now }
{
    word_at(tokens, at) == word
}

/// Whether an operator of this layer stands there.
#[tactic(auto, unfolding(crate::specs::Words::class))]
fn is_operator(layer: Layer, tokens: &[Token<'_>], at: usize) -> bool
    ensures test { result ≡ has (reading.operators_of layer) (class (token_at tokens.now at).word) }
    ensures within { result ≡ true → at < length tokens.now }
{
    match layer {
        Layer::Either => matches!(word_at(tokens, at), Word::Or),
        Layer::Both => matches!(word_at(tokens, at), Word::And),
        Layer::Sum => matches!(word_at(tokens, at), Word::Plus | Word::Minus),
        Layer::Product => matches!(
            word_at(tokens, at),
            Word::Times | Word::Divide | Word::Remainder
        ),
    }
}

/// Whether an operator of a chain stands there.
#[tactic(auto, unfolding(crate::specs::Words::class))]
fn is_compare(tokens: &[Token<'_>], at: usize) -> bool
    ensures test { result ≡ has compares (class (token_at tokens.now at).word) }
    ensures within { result ≡ true → at < length tokens.now }
{
    matches!(
        word_at(tokens, at),
        Word::Less
            | Word::LessEqual
            | Word::Greater
            | Word::GreaterEqual
            | Word::Equal
            | Word::NotEqual
    )
}

/// `operand {operator operand}`, joined from the left.
#[cycle(reader)]
#[tactic(auto, using(crate::proofs::Steps::left_step, crate::proofs::Steps::level_none, crate::proofs::Steps::left_turn, crate::proofs::Steps::left_turned))]
pub fn from_left(
    alloc: Global,
    tokens: &[Token<'_>],
    layer: Layer,
    room: u32,
    at: usize,
) -> Result<(Part, usize), CompareFault>
    requires { at ≤ length tokens.now }
    ensures within { IfOk result (λ x. x.1 ≤ length tokens.now) }
    ensures shallow { IfOk result (λ x. at + x.0.depth ≤ x.1) }
    ensures gives { reading.Gives reading.one result (reading.level tokens.now room (reading.level_of layer) at) }
{
    if room == 0 {
        return Err(CompareFault::NoComparison);
    }
    let (mut left, mut end) = operand(alloc, tokens, layer, room, at)?;
    for turn in 0..=tokens.len() {
        if !is_operator(layer, tokens, end) {
            return Ok((left, end));
        }
        let (right, next) = operand(alloc, tokens, layer, room, end + 1)?;
        left = joined(alloc, word_at(tokens, end), left, right)?;
        end = next;
    }
    Err(CompareFault::NoComparison)
}

/// What stands between the operators of a layer.
#[cycle(reader)]
fn operand(
    alloc: Global,
    tokens: &[Token<'_>],
    layer: Layer,
    room: u32,
    at: usize,
) -> Result<(Part, usize), CompareFault>
    requires { at ≤ length tokens.now }
    ensures within { IfOk result (λ x. x.1 ≤ length tokens.now) }
    ensures shallow { IfOk result (λ x. at + x.0.depth ≤ x.1) }
    ensures gives { reading.Gives reading.one result (reading.level tokens.now room (reading.operand_of layer) at) }
{
    match layer {
        Layer::Either => from_left(alloc, tokens, Layer::Both, room, at),
        Layer::Both => inverted(alloc, tokens, room, at),
        Layer::Sum => from_left(alloc, tokens, Layer::Product, room, at),
        Layer::Product => negated(alloc, tokens, room, at),
    }
}

/// `"not" inverse | chain`
#[cycle(reader)]
#[tactic(auto, using(crate::proofs::Steps::inverse_step, crate::proofs::Steps::level_none))]
fn inverted(
    alloc: Global,
    tokens: &[Token<'_>],
    room: u32,
    at: usize,
) -> Result<(Part, usize), CompareFault>
    requires { at ≤ length tokens.now }
    ensures within { IfOk result (λ x. x.1 ≤ length tokens.now) }
    ensures shallow { IfOk result (λ x. at + x.0.depth ≤ x.1) }
    ensures gives { reading.Gives reading.one result (reading.level tokens.now room Inverse at) }
{
    if room == 0 {
        return Err(CompareFault::NoComparison);
    }
    if is(tokens, at, Word::Not) {
        let (part, end) = inverted(alloc, tokens, room - 1, at + 1)?;
        return Ok((inverse(alloc, part)?, end));
    }
    chain(alloc, tokens, room, at)
}

/// `sum {operator sum}`, which is one node, or the sum alone.
#[cycle(reader)]
#[tactic(auto, using(crate::proofs::Steps::chain_step, crate::proofs::Steps::level_none, crate::proofs::Steps::chain_turn, crate::proofs::Steps::chain_turned))]
fn chain(
    alloc: Global,
    tokens: &[Token<'_>],
    room: u32,
    at: usize,
) -> Result<(Part, usize), CompareFault>
    requires { at ≤ length tokens.now }
    ensures within { IfOk result (λ x. x.1 ≤ length tokens.now) }
    ensures shallow { IfOk result (λ x. at + x.0.depth ≤ x.1) }
    ensures gives { reading.Gives reading.one result (reading.level tokens.now room Chain at) }
{
    if room == 0 {
        return Err(CompareFault::NoComparison);
    }
    let (first, mut end) = from_left(alloc, tokens, Layer::Sum, room, at)?;
    if !is_compare(tokens, end) {
        return Ok((first, end));
    }
    let mut depth = first.depth;
    let mut links = first_link(alloc, first.meaning)?;
    for turn in 0..=tokens.len() {
        if !is_compare(tokens, end) {
            return Ok((chained(depth, links), end));
        }
        let (part, next) = from_left(alloc, tokens, Layer::Sum, room, end + 1)?;
        depth = depth.max(part.depth);
        links = next_link(links, word_at(tokens, end), part.meaning)?;
        end = next;
    }
    Err(CompareFault::NoComparison)
}

/// `"-" negative | atom`
#[cycle(reader)]
#[tactic(auto, using(crate::proofs::Steps::negative_step, crate::proofs::Steps::level_none))]
fn negated(
    alloc: Global,
    tokens: &[Token<'_>],
    room: u32,
    at: usize,
) -> Result<(Part, usize), CompareFault>
    requires { at ≤ length tokens.now }
    ensures within { IfOk result (λ x. x.1 ≤ length tokens.now) }
    ensures shallow { IfOk result (λ x. at + x.0.depth ≤ x.1) }
    ensures gives { reading.Gives reading.one result (reading.level tokens.now room Negative at) }
{
    if room == 0 {
        return Err(CompareFault::NoComparison);
    }
    if is(tokens, at, Word::Minus) {
        let (part, end) = negated(alloc, tokens, room - 1, at + 1)?;
        return Ok((negative(alloc, part)?, end));
    }
    atom(alloc, tokens, room, at)
}

/// `DIGITS | "$NAME" | "int" "(" "$NAME" ")" | "(" either ")"`
#[cycle(reader)]
#[tactic(auto, using(crate::proofs::Steps::atom_step, crate::proofs::Steps::level_none))]
fn atom(
    alloc: Global,
    tokens: &[Token<'_>],
    room: u32,
    at: usize,
) -> Result<(Part, usize), CompareFault>
    requires { at ≤ length tokens.now }
    ensures within { IfOk result (λ x. x.1 ≤ length tokens.now) }
    ensures shallow { IfOk result (λ x. at + x.0.depth ≤ x.1) }
    ensures gives { reading.Gives reading.one result (reading.level tokens.now room Atom at) }
{
    if room == 0 {
        return Err(CompareFault::NoComparison);
    }
    if is(tokens, at, Word::Digits) {
        return Ok((figure(text_at(tokens, at)), at + 1));
    }
    if is(tokens, at, Word::Meta) {
        return Ok((named(alloc, text_at(tokens, at))?, at + 1));
    }
    if is(tokens, at, Word::Int) {
        if !is(tokens, at + 1, Word::LeftRound) {
            return Err(CompareFault::NoComparison);
        }
        if !is(tokens, at + 2, Word::Meta) {
            return Err(CompareFault::NoComparison);
        }
        if !is(tokens, at + 3, Word::RightRound) {
            return Err(CompareFault::NoComparison);
        }
        return Ok((inside(alloc, text_at(tokens, at + 2))?, at + 4));
    }
    if !is(tokens, at, Word::LeftRound) {
        return Err(CompareFault::NoComparison);
    }
    let (part, close) = from_left(alloc, tokens, Layer::Either, room - 1, at + 1)?;
    if !is(tokens, close, Word::RightRound) {
        return Err(CompareFault::NoComparison);
    }
    Ok((enclosed(part), close + 1))
}
