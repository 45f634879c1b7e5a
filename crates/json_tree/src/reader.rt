//! From tokens to the value that they spell: a function for each level of the grammar, by the token in hand.

ghost use Rattle.std.specs.Prelude.{◌≡◌, ◌≢◌, ◌<◌, ◌≤◌, true, List, length, IfOk, eqb};
ghost use Rattle.grammar.specs.Rule.{has};
ghost use Rattle.json_tree.specs.declared.token.Word.TheVariants.{End};
ghost use Rattle.node_tree.specs.Gives.{Gives};
ghost use Rattle.json_tree.specs.Words.{class};
ghost use Rattle.json_tree.specs.Table.{Value, Member, Deep};
ghost use Rattle.json_tree.specs.Table as table;
ghost use Rattle.json_tree.specs.Build.{token_at, end_of};
ghost use Rattle.json_tree.specs.Build as build;
ghost use Rattle.json_tree.specs.reader.Sets.{sets};
ghost use Rattle.json_tree.specs.reader.Reading as reading;

use crate::token::{Token, Word, kind_of, shown};
use node_tree::{Kind, List, Memory, Node, ReadFault, Span, Text};
use std::alloc::Global;

/// What holds values or members between two brackets.
#[derive(Clone, Copy, Debug, PartialEq, Eq)]
pub enum Container {
    Array,
    Object,
}

fn kind_in(container: Container) -> Kind
    ensures { result ≡ reading.kind_in container }
{
    match container {
        Container::Array => Kind::Array,
        Container::Object => Kind::Object,
    }
}

fn left_of(container: Container) -> Word
    ensures value { result ≡ reading.left_of container }
    ensures some { result ≢ End }
{
    match container {
        Container::Array => Word::LeftBracket,
        Container::Object => Word::LeftBrace,
    }
}

fn right_of(container: Container) -> Word
    ensures value { result ≡ reading.right_of container }
    ensures some { result ≢ End }
{
    match container {
        Container::Array => Word::RightBracket,
        Container::Object => Word::RightBrace,
    }
}

/// The word that stands there, or the end.
fn word_at(tokens: &[Token<'_>], at: usize) -> Word
    ensures { result ≡ (token_at tokens.now at).word }
{
    match tokens.get(at) {
        Some(token) => token.word,
        None => Word::End,
    }
}

/// Whether this word stands there.
#[tactic(auto, unfolding(crate::specs::Words::class))]
fn is(tokens: &[Token<'_>], at: usize, word: Word) -> bool
    ensures test { result ≡ eqb (class word) (class (token_at tokens.now at).word) }
    ensures within { result ≡ true → word ≢ End → at < length tokens.now }
{
    word_at(tokens, at) == word
}

/// Whether a value of one token stands there.
#[tactic(auto, unfolding(crate::specs::Words::class))]
fn is_scalar(tokens: &[Token<'_>], at: usize) -> bool
    ensures test { result ≡ has table.scalars (class (token_at tokens.now at).word) }
    ensures within { result ≡ true → at < length tokens.now }
{
    matches!(
        word_at(tokens, at),
        Word::Str
            | Word::Number
            | Word::Const
            | Word::StrAny
            | Word::Meta
            | Word::MetaDots
            | Word::Dots
    )
}

/// Whether the name of a member stands there.
#[tactic(auto, unfolding(crate::specs::Words::class))]
fn is_name(tokens: &[Token<'_>], at: usize) -> bool
    ensures test { result ≡ has table.names (class (token_at tokens.now at).word) }
    ensures within { result ≡ true → at < length tokens.now }
{
    matches!(word_at(tokens, at), Word::Str | Word::StrAny | Word::Meta)
}

/// Whether dots stand there, which take the place of members.
#[tactic(auto, unfolding(crate::specs::Words::class))]
fn is_dots(tokens: &[Token<'_>], at: usize) -> bool
    ensures test { result ≡ has table.dots (class (token_at tokens.now at).word) }
    ensures within { result ≡ true → at < length tokens.now }
{
    matches!(word_at(tokens, at), Word::MetaDots | Word::Dots)
}

/// Whether a part of a container begins there.
#[tactic(auto, unfolding(crate::specs::Words::class))]
fn starts_part(container: Container, tokens: &[Token<'_>], at: usize) -> bool
    ensures test { result ≡ has (sets.first (reading.part container)) (class (token_at tokens.now at).word) }
    ensures within { result ≡ true → at < length tokens.now }
{
    match container {
        Container::Array => {
            is_scalar(tokens, at)
                || matches!(
                    word_at(tokens, at),
                    Word::LeftBracket | Word::LeftBrace | Word::DeepOpen
                )
        }
        Container::Object => is_name(tokens, at) || is_dots(tokens, at),
    }
}

/// Where the token there begins.
fn start_at(tokens: &[Token<'_>], at: usize) -> u32
    ensures { result ≡ (token_at tokens.now at).span.from }
{
    match tokens.get(at) {
        Some(token) => token.span.from,
        None => 0,
    }
}

/// Where the piece that ends before this token ends.
fn end_before(tokens: &[Token<'_>], at: usize) -> u32
    ensures { result ≡ end_of tokens.now at }
{
    match tokens.get(at.saturating_sub(1)) {
        Some(token) => token.span.to,
        None => 0,
    }
}

/// The node of the token there.
fn leaf(alloc: Global, tokens: &[Token<'_>], at: usize) -> Result<Node, Memory>
    requires { at < length tokens.now }
    ensures { IfOk result (λ n. n ≡ build.leaf (token_at tokens.now at)) }
{
    let token = &tokens[at];
    Ok(Node {
        kind: kind_of(token.word),
        text: Text::from_str(alloc, shown(token.word, token.text.as_str()))?,
        kids: List::new(alloc),
        span: token.span,
    })
}

/// A node over others.
pub fn node_over(alloc: Global, kind: Kind, from: u32, to: u32, kids: List<Node>) -> Node
    ensures { result ≡ build.node kind from to kids }
{
    Node {
        kind,
        text: Text::new(alloc),
        kids,
        span: Span { from, to },
    }
}

/// `scalar / array / object / deep`
#[cycle(json)]
#[tactic(auto, using(crate::proofs::Steps::value_step, crate::proofs::Steps::level_none))]
pub fn value(
    alloc: Global,
    tokens: &[Token<'_>],
    room: u32,
    at: usize,
) -> Result<(Node, usize), ReadFault>
    requires { at ≤ length tokens.now }
    ensures within { IfOk result (λ x. x.1 ≤ length tokens.now) }
    ensures gives { Gives reading.one result (reading.level tokens.now room Value at) }
{
    if room == 0 {
        return Err(ReadFault::NoTree);
    }
    if is_scalar(tokens, at) {
        return Ok((leaf(alloc, tokens, at)?, at + 1));
    }
    if is(tokens, at, Word::LeftBracket) {
        return bracketed(alloc, tokens, Container::Array, room, at);
    }
    if is(tokens, at, Word::LeftBrace) {
        return bracketed(alloc, tokens, Container::Object, room, at);
    }
    deep(alloc, tokens, room, at)
}

/// A container: its brackets and what stands between them.
#[cycle(json)]
#[tactic(auto, using(crate::proofs::Steps::whole_step, crate::proofs::Steps::level_none))]
fn bracketed(
    alloc: Global,
    tokens: &[Token<'_>],
    container: Container,
    room: u32,
    at: usize,
) -> Result<(Node, usize), ReadFault>
    requires { at ≤ length tokens.now }
    ensures within { IfOk result (λ x. x.1 ≤ length tokens.now) }
    ensures gives { Gives reading.one result (reading.level tokens.now room (reading.whole container) at) }
{
    if room == 0 {
        return Err(ReadFault::NoTree);
    }
    if !is(tokens, at, left_of(container)) {
        return Err(ReadFault::NoTree);
    }
    let (kids, close) = inside(alloc, tokens, container, room - 1, at + 1)?;
    if !is(tokens, close, right_of(container)) {
        return Err(ReadFault::NoTree);
    }
    let end = close + 1;
    Ok((
        node_over(
            alloc,
            kind_in(container),
            start_at(tokens, at),
            end_before(tokens, end),
            kids,
        ),
        end,
    ))
}

/// `[ part *( "," part ) ]`
#[cycle(json)]
#[tactic(auto, using(crate::proofs::Steps::inside_step, crate::proofs::Steps::level_none, crate::proofs::Steps::rest_turn, crate::proofs::Steps::rest_turned, crate::proofs::Steps::list_laws))]
fn inside(
    alloc: Global,
    tokens: &[Token<'_>],
    container: Container,
    room: u32,
    at: usize,
) -> Result<(List<Node>, usize), ReadFault>
    requires { at ≤ length tokens.now }
    ensures within { IfOk result (λ x. x.1 ≤ length tokens.now) }
    ensures gives { Gives (λ x. x) result (reading.level tokens.now room (reading.inside container) at) }
{
    if room == 0 {
        return Err(ReadFault::NoTree);
    }
    if !starts_part(container, tokens, at) {
        return Ok((List::new(alloc), at));
    }
    let (first, mut end) = part(alloc, tokens, container, room, at)?;
    if !is(tokens, end, Word::Comma) {
        // room for this one alone
        return Ok((List::from_vec(vec![in alloc; first]?), end));
    }
    let mut kids = List::new(alloc);
    kids.push(first)?;
    for turn in 0..=tokens.len() {
        if !is(tokens, end, Word::Comma) {
            return Ok((kids, end));
        }
        let (kid, next) = part(alloc, tokens, container, room, end + 1)?;
        kids.push(kid)?;
        end = next;
    }
    Err(ReadFault::NoTree)
}

/// A value in an array, or in an object a member or dots.
#[cycle(json)]
#[tactic(auto, using(crate::proofs::Steps::entry_step, crate::proofs::Steps::level_none))]
fn part(
    alloc: Global,
    tokens: &[Token<'_>],
    container: Container,
    room: u32,
    at: usize,
) -> Result<(Node, usize), ReadFault>
    requires { at ≤ length tokens.now }
    ensures within { IfOk result (λ x. x.1 ≤ length tokens.now) }
    ensures gives { Gives reading.one result (reading.level tokens.now room (reading.part container) at) }
{
    if room == 0 {
        return Err(ReadFault::NoTree);
    }
    if container == Container::Array {
        return value(alloc, tokens, room, at);
    }
    if is_dots(tokens, at) {
        return Ok((leaf(alloc, tokens, at)?, at + 1));
    }
    member(alloc, tokens, room, at)
}

/// `name ":" value`
#[cycle(json)]
#[tactic(auto, using(crate::proofs::Steps::member_step, crate::proofs::Steps::level_none))]
fn member(
    alloc: Global,
    tokens: &[Token<'_>],
    room: u32,
    at: usize,
) -> Result<(Node, usize), ReadFault>
    requires { at ≤ length tokens.now }
    ensures within { IfOk result (λ x. x.1 ≤ length tokens.now) }
    ensures gives { Gives reading.one result (reading.level tokens.now room Member at) }
{
    if room == 0 {
        return Err(ReadFault::NoTree);
    }
    if !is_name(tokens, at) {
        return Err(ReadFault::NoTree);
    }
    if !is(tokens, at + 1, Word::Colon) {
        return Err(ReadFault::NoTree);
    }
    let name = leaf(alloc, tokens, at)?;
    let (item, end) = value(alloc, tokens, room - 1, at + 2)?;
    let kids = List::from_vec(vec![in alloc; name, item]?);
    Ok((
        node_over(
            alloc,
            Kind::Member,
            start_at(tokens, at),
            end_before(tokens, end),
            kids,
        ),
        end,
    ))
}

/// `"<..." value "...>"`
#[cycle(json)]
#[tactic(auto, using(crate::proofs::Steps::deep_step, crate::proofs::Steps::level_none))]
fn deep(
    alloc: Global,
    tokens: &[Token<'_>],
    room: u32,
    at: usize,
) -> Result<(Node, usize), ReadFault>
    requires { at ≤ length tokens.now }
    ensures within { IfOk result (λ x. x.1 ≤ length tokens.now) }
    ensures gives { Gives reading.one result (reading.level tokens.now room Deep at) }
{
    if room == 0 {
        return Err(ReadFault::NoTree);
    }
    if !is(tokens, at, Word::DeepOpen) {
        return Err(ReadFault::NoTree);
    }
    let (item, close) = value(alloc, tokens, room - 1, at + 1)?;
    if !is(tokens, close, Word::DeepClose) {
        return Err(ReadFault::NoTree);
    }
    let kids = List::from_vec(vec![in alloc; item]?);
    let end = close + 1;
    Ok((
        node_over(
            alloc,
            Kind::Deep,
            start_at(tokens, at),
            end_before(tokens, end),
            kids,
        ),
        end,
    ))
}
