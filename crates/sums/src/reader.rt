//! The reader of the example: a function for each level, by the token in hand.

ghost use Rattle.std.specs.Prelude.{◌≡◌, ◌≢◌, ℕ, suc, ◌+◌, ◌-◌, ◌<◌, ◌≤◌, true, false, List, [], ◌∷◌, length, IfOk, IfErr, Some, eqb, leb};
ghost use Rattle.sums.specs.declared.token.Word.TheVariants.{End, Name, Number, Plus, Minus};
ghost use Rattle.sums.specs.declared.reader.ReadFault.TheVariants.{Memory};
ghost use Rattle.grammar.specs.Rule.{has};
ghost use Rattle.sums.specs.Token.{class, token_at, end_of};
ghost use Rattle.sums.specs.Tree.{Tree, view, views, node, trees};
ghost use Rattle.sums.specs.Table.{Text, Exprs, Inside, Sums, Sum, Term, Unary, Cast, Pointer, PointerName, Call, Args, Arg, Atom, Paren, automaton};
ghost use Rattle.sums.specs.Sets.{sets};
ghost use Rattle.sums.specs.Reading.{level, says_at, Gives, GivesAll, GivesInside, Grouped};

use crate::node::{Kind, Node};
use crate::token::{Token, Word};
use std::alloc::{AllocError, AllocFailed, Global};

/// Why no tree was read.
#[derive(Clone, Copy, PartialEq, Eq, Debug)]
pub enum ReadFault {
    /// There is no memory left.
    Memory,
    /// No closed run within the limits begins there.
    NoTree,
}

impl From<AllocError> for ReadFault {
    ghost from_gives = { λ _ e. e ≡ Memory };

    fn from(_fault: AllocError) -> ReadFault {
        ReadFault::Memory
    }
}

impl<T: Drop> From<AllocFailed<T>> for ReadFault {
    ghost from_gives = { λ _ e. e ≡ Memory };

    fn from(_fault: AllocFailed<T>) -> ReadFault {
        ReadFault::Memory
    }
}

/// What stands inside parentheses: one node, or the nodes of a list with a comma.
#[derive(Drop)]
pub enum Inner {
    One(Node),
    Several(Vec<Node>),
}

/// A node of these parts.
#[tactic(auto, using(crate::proofs::Views::view_roll))]
fn make(kind: Kind, text: u32, from: u32, to: u32, kids: Vec<Node>) -> Node
    ensures { view result ≡ node kind text from to (trees (views kids.items)) }
{
    Node {
        kind,
        text,
        from,
        to,
        kids,
    }
}

/// The word that stands there, or the end.
fn word_at(tokens: &[Token], at: usize) -> Word
    ensures { result ≡ (token_at tokens.now at).word }
{
    match tokens.get(at) {
        Some(token) => token.word,
        None => Word::End,
    }
}

/// Whether this word stands there.
#[tactic(auto, unfolding(crate::specs::Token::class))]
fn is(tokens: &[Token], at: usize, word: Word) -> bool
    ensures test { result ≡ eqb (class word) (class (token_at tokens.now at).word) }
    ensures within { result ≡ true → word ≢ End → at < length tokens.now }
{
    word_at(tokens, at) == word
}

/// Whether a plus or a minus stands there.
#[tactic(auto, unfolding(crate::specs::Token::class))]
fn is_sign(tokens: &[Token], at: usize) -> bool
    ensures test { result ≡ has (class Plus ∷ class Minus ∷ []) (class (token_at tokens.now at).word) }
    ensures within { result ≡ true → at < length tokens.now }
{
    matches!(word_at(tokens, at), Word::Plus | Word::Minus)
}

/// Whether a sum begins there.
#[tactic(auto, unfolding(crate::specs::Token::class))]
fn starts_sum(tokens: &[Token], at: usize) -> bool
    ensures test { result ≡ has (sets.first Sum) (class (token_at tokens.now at).word) }
    ensures within { result ≡ true → at < length tokens.now }
{
    matches!(
        word_at(tokens, at),
        Word::Minus | Word::OpenRound | Word::Name | Word::Number | Word::Hole
    )
}

/// Whether a name or a number stands there.
#[tactic(auto, unfolding(crate::specs::Token::class))]
fn is_operand(tokens: &[Token], at: usize) -> bool
    ensures { result ≡ has (class Name ∷ class Number ∷ []) (class (token_at tokens.now at).word) }
{
    matches!(word_at(tokens, at), Word::Name | Word::Number)
}

/// Whether `{"*"} ")"` follows.
#[tactic(auto, using(crate::proofs::Casts::star_step))]
fn closes_pointer(tokens: &[Token], at: usize) -> bool
    requires { at ≤ length tokens.now }
    ensures { result ≡ says_at tokens.now (automaton.most - 3) 3 at }
{
    let mut end = at;
    for turn in 0..=tokens.len() {
        if !is(tokens, end, Word::Times) {
            return is(tokens, end, Word::CloseRound);
        }
        end += 1;
    }
    false
}

/// Whether a cast begins there: `"(" NAME "*" {"*"} ")"`, or `"(" NAME ")"` and then a NAME or NUMBER.
#[tactic(auto, using(crate::proofs::Casts::bracket_step, crate::proofs::Casts::name_step, crate::proofs::Casts::behind_name_step, crate::proofs::Casts::operand_step))]
fn opens_cast(tokens: &[Token], at: usize) -> bool
    requires { at ≤ length tokens.now }
    ensures { result ≡ says_at tokens.now automaton.most 0 at }
{
    if !is(tokens, at, Word::OpenRound) {
        return false;
    }
    if !is(tokens, at + 1, Word::Name) {
        return false;
    }
    if is(tokens, at + 2, Word::Times) {
        return closes_pointer(tokens, at + 3);
    }
    if is(tokens, at + 2, Word::CloseRound) {
        return is_operand(tokens, at + 3);
    }
    false
}

/// Where the token there begins.
fn start_at(tokens: &[Token], at: usize) -> u32
    ensures { result ≡ (token_at tokens.now at).from }
{
    match tokens.get(at) {
        Some(token) => token.from,
        None => 0,
    }
}

/// Where the token there ends.
fn end_at(tokens: &[Token], at: usize) -> u32
    ensures { result ≡ (token_at tokens.now at).to }
{
    match tokens.get(at) {
        Some(token) => token.to,
        None => 0,
    }
}

/// The text of the token there.
fn text_at(tokens: &[Token], at: usize) -> u32
    ensures { result ≡ (token_at tokens.now at).text }
{
    match tokens.get(at) {
        Some(token) => token.text,
        None => 0,
    }
}

/// Where the piece that ends before this token ends.
fn end_before(tokens: &[Token], at: usize) -> u32
    ensures { result ≡ end_of tokens.now at }
{
    end_at(tokens, at.saturating_sub(1))
}

/// A node without kids, of the token there.
#[tactic(auto, using(crate::proofs::Views::view_roll))]
fn leaf(alloc: Global, kind: Kind, tokens: &[Token], at: usize) -> Node
    ensures { view result ≡ node kind (token_at tokens.now at).text (token_at tokens.now at).from (token_at tokens.now at).to (trees []) }
{
    Node {
        kind,
        text: text_at(tokens, at),
        from: start_at(tokens, at),
        to: end_at(tokens, at),
        kids: Vec::new(alloc),
    }
}

/// One node as it is, or a tuple of several, with this span.
#[tactic(auto, using(crate::proofs::Views::view_roll, crate::proofs::Views::group_parted))]
fn grouped(from: u32, to: u32, inner: Inner) -> Node
    ensures { Grouped from to inner (view result) }
{
    match inner {
        Inner::One(node) => node,
        Inner::Several(kids) => make(Kind::Tuple, 0, from, to, kids),
    }
}

/// `exprs [";"]`
#[tactic(auto, using(crate::proofs::Steps::text_step, crate::proofs::Steps::text_zero))]
pub fn text(
    alloc: Global,
    tokens: &[Token],
    room: u32,
    at: usize,
) -> Result<(Node, usize), ReadFault>
    requires { at ≤ length tokens.now }
    ensures within { IfOk result (λ x. x.1 ≤ length tokens.now) }
    ensures gives { Gives result (level tokens.now room Text at) }
{
    if room == 0 {
        return Err(ReadFault::NoTree);
    }
    let (node, end) = exprs(alloc, tokens, room, at)?;
    if !is(tokens, end, Word::Semicolon) {
        return Ok((node, end));
    }
    Ok((node, end + 1))
}

/// Sums with commas: `sum {"," sum} [","]`, a sum itself where there is one without comma.
#[tactic(auto, using(crate::proofs::Steps::exprs_step, crate::proofs::Steps::exprs_zero))]
pub fn exprs(
    alloc: Global,
    tokens: &[Token],
    room: u32,
    at: usize,
) -> Result<(Node, usize), ReadFault>
    requires { at ≤ length tokens.now }
    ensures within { IfOk result (λ x. x.1 ≤ length tokens.now) }
    ensures gives { Gives result (level tokens.now room Exprs at) }
{
    if room == 0 {
        return Err(ReadFault::NoTree);
    }
    let (inner, end) = inside(alloc, tokens, room, at)?;
    Ok((
        grouped(start_at(tokens, at), end_before(tokens, end), inner),
        end,
    ))
}

/// What stands in parentheses.
#[cycle(reader)]
#[tactic(auto, using(crate::proofs::Steps::inside_step, crate::proofs::Steps::inside_zero))]
fn inside(
    alloc: Global,
    tokens: &[Token],
    room: u32,
    at: usize,
) -> Result<(Inner, usize), ReadFault>
    requires { at ≤ length tokens.now }
    ensures within { IfOk result (λ x. x.1 ≤ length tokens.now) }
    ensures gives { GivesInside result (level tokens.now room Inside at) }
{
    if room == 0 {
        return Err(ReadFault::NoTree);
    }
    let (first, end) = sum(alloc, tokens, room, at)?;
    if !is(tokens, end, Word::Comma) {
        return Ok((Inner::One(first), end));
    }
    let (mut kids, end) = sums(alloc, tokens, room, end + 1)?;
    kids.insert(0, first)?;
    Ok((Inner::Several(kids), end))
}

/// `[sum {"," sum} [","]]`
#[cycle(reader)]
#[tactic(auto, using(crate::proofs::Steps::sums_step, crate::proofs::Steps::sums_zero, crate::proofs::Steps::sums_turn, crate::proofs::Steps::sums_turned, crate::proofs::Views::list_laws))]
fn sums(
    alloc: Global,
    tokens: &[Token],
    room: u32,
    at: usize,
) -> Result<(Vec<Node>, usize), ReadFault>
    requires { at ≤ length tokens.now }
    ensures within { IfOk result (λ x. x.1 ≤ length tokens.now) }
    ensures gives { GivesAll result (level tokens.now room Sums at) }
{
    if room == 0 {
        return Err(ReadFault::NoTree);
    }
    if !starts_sum(tokens, at) {
        return Ok((Vec::new(alloc), at));
    }
    let (first, mut end) = sum(alloc, tokens, room, at)?;
    let mut kids = vec![in alloc; first]?;
    for turn in 0..=tokens.len() {
        if !is(tokens, end, Word::Comma) {
            return Ok((kids, end));
        }
        if !starts_sum(tokens, end + 1) {
            return Ok((kids, end + 1));
        }
        let (kid, next) = sum(alloc, tokens, room, end + 1)?;
        kids.push(kid)?;
        end = next;
    }
    Err(ReadFault::NoTree)
}

/// `term {("+" | "-") term}`, from the left.
#[cycle(reader)]
#[tactic(auto, using(crate::proofs::Steps::sum_step, crate::proofs::Steps::sum_zero, crate::proofs::Steps::sum_turn, crate::proofs::Steps::sum_turned))]
fn sum(alloc: Global, tokens: &[Token], room: u32, at: usize) -> Result<(Node, usize), ReadFault>
    requires { at ≤ length tokens.now }
    ensures within { IfOk result (λ x. x.1 ≤ length tokens.now) }
    ensures gives { Gives result (level tokens.now room Sum at) }
{
    if room == 0 {
        return Err(ReadFault::NoTree);
    }
    let (mut node, mut end) = term(alloc, tokens, room, at)?;
    for turn in 0..=tokens.len() {
        if !is_sign(tokens, end) {
            return Ok((node, end));
        }
        let (right, next) = term(alloc, tokens, room, end + 1)?;
        let kids = vec![in alloc; node, right]?;
        node = make(
            Kind::Binary,
            text_at(tokens, end),
            start_at(tokens, at),
            end_before(tokens, next),
            kids,
        );
        end = next;
    }
    Err(ReadFault::NoTree)
}

/// `unary {"*" unary}`, from the left.
#[cycle(reader)]
#[tactic(auto, using(crate::proofs::Steps::term_step, crate::proofs::Steps::term_zero, crate::proofs::Steps::term_turn, crate::proofs::Steps::term_turned))]
fn term(alloc: Global, tokens: &[Token], room: u32, at: usize) -> Result<(Node, usize), ReadFault>
    requires { at ≤ length tokens.now }
    ensures within { IfOk result (λ x. x.1 ≤ length tokens.now) }
    ensures gives { Gives result (level tokens.now room Term at) }
{
    if room == 0 {
        return Err(ReadFault::NoTree);
    }
    let (mut node, mut end) = unary(alloc, tokens, room, at)?;
    for turn in 0..=tokens.len() {
        if !is(tokens, end, Word::Times) {
            return Ok((node, end));
        }
        let (right, next) = unary(alloc, tokens, room, end + 1)?;
        let kids = vec![in alloc; node, right]?;
        node = make(
            Kind::Binary,
            text_at(tokens, end),
            start_at(tokens, at),
            end_before(tokens, next),
            kids,
        );
        end = next;
    }
    Err(ReadFault::NoTree)
}

/// `"-" unary | cast`
#[cycle(reader)]
#[tactic(auto, using(crate::proofs::Steps::unary_step, crate::proofs::Steps::unary_zero))]
fn unary(alloc: Global, tokens: &[Token], room: u32, at: usize) -> Result<(Node, usize), ReadFault>
    requires { at ≤ length tokens.now }
    ensures within { IfOk result (λ x. x.1 ≤ length tokens.now) }
    ensures gives { Gives result (level tokens.now room Unary at) }
{
    if room == 0 {
        return Err(ReadFault::NoTree);
    }
    if is(tokens, at, Word::Minus) {
        let (kid, end) = unary(alloc, tokens, room - 1, at + 1)?;
        let kids = vec![in alloc; kid]?;
        return Ok((
            make(
                Kind::Negative,
                0,
                start_at(tokens, at),
                end_before(tokens, end),
                kids,
            ),
            end,
        ));
    }
    cast(alloc, tokens, room, at)
}

/// `"(" pointer ")" unary`, where the test says so, else `call`
#[cycle(reader)]
#[tactic(auto, using(crate::proofs::Steps::cast_step, crate::proofs::Steps::cast_zero, crate::proofs::Casts::cast_test, crate::proofs::Views::list_laws))]
pub fn cast(
    alloc: Global,
    tokens: &[Token],
    room: u32,
    at: usize,
) -> Result<(Node, usize), ReadFault>
    requires { at ≤ length tokens.now }
    ensures within { IfOk result (λ x. x.1 ≤ length tokens.now) }
    ensures gives { Gives result (level tokens.now room Cast at) }
{
    if room == 0 {
        return Err(ReadFault::NoTree);
    }
    if !opens_cast(tokens, at) {
        return call(alloc, tokens, room, at);
    }
    if !is(tokens, at, Word::OpenRound) {
        return Err(ReadFault::NoTree);
    }
    let (mut kids, close) = pointer(alloc, tokens, room - 1, at + 1)?;
    if !is(tokens, close, Word::CloseRound) {
        return Err(ReadFault::NoTree);
    }
    let (value, end) = unary(alloc, tokens, room - 1, close + 1)?;
    kids.push(value)?;
    Ok((
        make(
            Kind::Cast,
            0,
            start_at(tokens, at),
            end_before(tokens, end),
            kids,
        ),
        end,
    ))
}

/// `NAME`, of a pointer
#[tactic(auto, using(crate::proofs::Steps::pointer_name_step, crate::proofs::Steps::pointer_name_zero))]
fn pointer_name(
    alloc: Global,
    tokens: &[Token],
    room: u32,
    at: usize,
) -> Result<(Node, usize), ReadFault>
    requires { at ≤ length tokens.now }
    ensures within { IfOk result (λ x. x.1 ≤ length tokens.now) }
    ensures gives { Gives result (level tokens.now room PointerName at) }
{
    if room == 0 {
        return Err(ReadFault::NoTree);
    }
    if !is(tokens, at, Word::Name) {
        return Err(ReadFault::NoTree);
    }
    Ok((leaf(alloc, Kind::Name, tokens, at), at + 1))
}

/// `NAME {"*"}`
#[tactic(auto, using(crate::proofs::Steps::pointer_step, crate::proofs::Steps::pointer_zero, crate::proofs::Steps::pointer_turn, crate::proofs::Steps::pointer_turned, crate::proofs::Views::list_laws))]
fn pointer(
    alloc: Global,
    tokens: &[Token],
    room: u32,
    at: usize,
) -> Result<(Vec<Node>, usize), ReadFault>
    requires { at ≤ length tokens.now }
    ensures within { IfOk result (λ x. x.1 ≤ length tokens.now) }
    ensures gives { GivesAll result (level tokens.now room Pointer at) }
{
    if room == 0 {
        return Err(ReadFault::NoTree);
    }
    let (first, mut end) = pointer_name(alloc, tokens, room, at)?;
    let mut kids = vec![in alloc; first]?;
    for turn in 0..=tokens.len() {
        if !is(tokens, end, Word::Times) {
            return Ok((kids, end));
        }
        kids.push(leaf(alloc, Kind::Star, tokens, end))?;
        end += 1;
    }
    Err(ReadFault::NoTree)
}

/// `atom {"(" args ")"}`, from the left.
#[cycle(reader)]
#[tactic(auto, using(crate::proofs::Steps::call_step, crate::proofs::Steps::call_zero, crate::proofs::Steps::call_turn, crate::proofs::Steps::call_turned))]
fn call(alloc: Global, tokens: &[Token], room: u32, at: usize) -> Result<(Node, usize), ReadFault>
    requires { at ≤ length tokens.now }
    ensures within { IfOk result (λ x. x.1 ≤ length tokens.now) }
    ensures gives { Gives result (level tokens.now room Call at) }
{
    if room == 0 {
        return Err(ReadFault::NoTree);
    }
    let (mut node, mut end) = atom(alloc, tokens, room, at)?;
    for turn in 0..=tokens.len() {
        if !is(tokens, end, Word::OpenRound) {
            return Ok((node, end));
        }
        let (mut kids, close) = args(alloc, tokens, room - 1, end + 1)?;
        if !is(tokens, close, Word::CloseRound) {
            return Err(ReadFault::NoTree);
        }
        kids.insert(0, node)?;
        node = make(
            Kind::Call,
            0,
            start_at(tokens, at),
            end_before(tokens, close + 1),
            kids,
        );
        end = close + 1;
    }
    Err(ReadFault::NoTree)
}

/// `[arg {"," arg} [","]]`
#[cycle(reader)]
#[tactic(auto, using(crate::proofs::Steps::args_step, crate::proofs::Steps::args_zero, crate::proofs::Steps::args_turn, crate::proofs::Steps::args_turned, crate::proofs::Views::list_laws))]
fn args(
    alloc: Global,
    tokens: &[Token],
    room: u32,
    at: usize,
) -> Result<(Vec<Node>, usize), ReadFault>
    requires { at ≤ length tokens.now }
    ensures within { IfOk result (λ x. x.1 ≤ length tokens.now) }
    ensures gives { GivesAll result (level tokens.now room Args at) }
{
    if room == 0 {
        return Err(ReadFault::NoTree);
    }
    if !starts_sum(tokens, at) {
        return Ok((Vec::new(alloc), at));
    }
    let (first, mut end) = arg(alloc, tokens, room, at)?;
    let mut kids = vec![in alloc; first]?;
    for turn in 0..=tokens.len() {
        if !is(tokens, end, Word::Comma) {
            return Ok((kids, end));
        }
        if !starts_sum(tokens, end + 1) {
            return Ok((kids, end + 1));
        }
        let (kid, next) = arg(alloc, tokens, room, end + 1)?;
        kids.push(kid)?;
        end = next;
    }
    Err(ReadFault::NoTree)
}

/// `NAME "=" sum | sum`
#[cycle(reader)]
#[tactic(auto, using(crate::proofs::Steps::arg_step, crate::proofs::Steps::arg_zero))]
fn arg(alloc: Global, tokens: &[Token], room: u32, at: usize) -> Result<(Node, usize), ReadFault>
    requires { at ≤ length tokens.now }
    ensures within { IfOk result (λ x. x.1 ≤ length tokens.now) }
    ensures gives { Gives result (level tokens.now room Arg at) }
{
    if room == 0 {
        return Err(ReadFault::NoTree);
    }
    if is(tokens, at, Word::Name) {
        if is(tokens, at + 1, Word::Equal) {
            let name = leaf(alloc, Kind::Name, tokens, at);
            let (value, end) = sum(alloc, tokens, room, at + 2)?;
            let kids = vec![in alloc; name, value]?;
            return Ok((
                make(
                    Kind::Keyword,
                    0,
                    start_at(tokens, at),
                    end_before(tokens, end),
                    kids,
                ),
                end,
            ));
        }
    }
    sum(alloc, tokens, room, at)
}

/// `NAME | NUMBER | HOLE | paren`
#[cycle(reader)]
#[tactic(auto, using(crate::proofs::Steps::atom_step, crate::proofs::Steps::atom_zero))]
fn atom(alloc: Global, tokens: &[Token], room: u32, at: usize) -> Result<(Node, usize), ReadFault>
    requires { at ≤ length tokens.now }
    ensures within { IfOk result (λ x. x.1 ≤ length tokens.now) }
    ensures gives { Gives result (level tokens.now room Atom at) }
{
    if room == 0 {
        return Err(ReadFault::NoTree);
    }
    if is(tokens, at, Word::Name) {
        return Ok((leaf(alloc, Kind::Name, tokens, at), at + 1));
    }
    if is(tokens, at, Word::Number) {
        return Ok((leaf(alloc, Kind::Number, tokens, at), at + 1));
    }
    if is(tokens, at, Word::Hole) {
        return Ok((leaf(alloc, Kind::Hole, tokens, at), at + 1));
    }
    paren(alloc, tokens, room, at)
}

/// `"(" [inside] ")"`; a tuple has the span of its parentheses.
#[cycle(reader)]
#[tactic(auto, using(crate::proofs::Steps::paren_step, crate::proofs::Steps::paren_zero))]
fn paren(alloc: Global, tokens: &[Token], room: u32, at: usize) -> Result<(Node, usize), ReadFault>
    requires { at ≤ length tokens.now }
    ensures within { IfOk result (λ x. x.1 ≤ length tokens.now) }
    ensures gives { Gives result (level tokens.now room Paren at) }
{
    if room == 0 {
        return Err(ReadFault::NoTree);
    }
    if !is(tokens, at, Word::OpenRound) {
        return Err(ReadFault::NoTree);
    }
    if !starts_sum(tokens, at + 1) {
        if !is(tokens, at + 1, Word::CloseRound) {
            return Err(ReadFault::NoTree);
        }
        let empty = Vec::new(alloc);
        return Ok((
            make(
                Kind::Tuple,
                0,
                start_at(tokens, at),
                end_at(tokens, at + 1),
                empty,
            ),
            at + 2,
        ));
    }
    let (inner, close) = inside(alloc, tokens, room - 1, at + 1)?;
    if !is(tokens, close, Word::CloseRound) {
        return Err(ReadFault::NoTree);
    }
    Ok((
        grouped(start_at(tokens, at), end_at(tokens, close), inner),
        close + 1,
    ))
}
