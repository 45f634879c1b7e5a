//! The public calls of the example.

ghost use Rattle.std.specs.Prelude.{◌≡◌, ℕ, ◌<◌, ◌≤◌, true, false, [], ◌∷◌, length, IfOk, Some, leb};
ghost use Rattle.grammar.specs.Rule.{behind};
ghost use Rattle.sums.specs.Token.{class};
ghost use Rattle.sums.specs.Tree.{Tree, view, depth};
ghost use Rattle.sums.specs.Table.{grammar};
ghost use Rattle.sums.specs.Reading.{IsRunOf, IsText, of_text, of_pattern, level, level_of, Gives, GivesTree, IsWhole, round_at};

use crate::node::Node;
use crate::reader::{ReadFault, cast, exprs, text};
use crate::token::{Token, Word};
use std::alloc::Global;

/// The depth of trees, and the number of brackets round a token, that are read at most.
const LIMIT: u32 = 500;

/// How many steps deeper the reader may go: 500 for depth, 500 for brackets, and two.
const ROOM: u32 = 1002;

/// How many brackets are open behind a token, before which so many were.
#[tactic(auto, unfolding(crate::specs::Token::class))]
fn open_behind(word: Word, count: u32) -> u32
    requires { count < 502 }
    ensures { result ≡ behind grammar.opens grammar.closes (class word) count }
{
    match word {
        Word::OpenRound => count + 1,
        Word::CloseRound => count.saturating_sub(1),
        _ => count,
    }
}

/// Whether no token between the places stands inside more than 500 brackets.
#[tactic(auto, using(crate::proofs::ClosedRuns::open_next, crate::proofs::ClosedRuns::open_start, crate::proofs::ClosedRuns::round_is))]
fn few_brackets(tokens: &[Token], from: usize, to: usize) -> bool
    requires ordered { from ≤ to }
    requires within { to ≤ length tokens.now }
    ensures few { result ≡ true → (n : ℕ) → from ≤ n → n < to → round_at tokens.now from n ≤ 500 }
    ensures many { result ≡ false → (n : ℕ) × (from ≤ n) × (n < to) × (500 < round_at tokens.now from n) }
{
    let mut count = 0;
    for at in from..to {
        let next = open_behind(tokens[at].word, count);
        if count > LIMIT {
            if next > LIMIT {
                return false;
            }
        }
        count = next;
    }
    true
}

/// Whether a tree is at most so deep.
#[tactic(auto, using(crate::proofs::Views::view_out, crate::proofs::Views::depths_from, crate::proofs::Views::depths_past, crate::proofs::Views::leb_max))]
fn is_shallow(node: &Node, most: u32) -> bool
    ensures { result ≡ leb (depth (view node.now)) most }
{
    if most == 0 {
        return false;
    }
    for kid in &node.kids {
        if !is_shallow(kid, most - 1) {
            return false;
        }
    }
    true
}

/// The level whose run is read.
#[derive(Clone, Copy, PartialEq, Eq, Debug)]
pub enum Start {
    /// Sums with commas.
    Exprs,
    /// The same, with a `;` where one follows.
    Text,
    /// A cast, or a call or an atom.
    Cast,
}

/// A run of the level, with so much room.
fn begun(
    alloc: Global,
    tokens: &[Token],
    from: usize,
    start: Start,
) -> Result<(Node, usize), ReadFault>
    requires { from ≤ length tokens.now }
    ensures within { IfOk result (λ x. x.1 ≤ length tokens.now) }
    ensures gives { Gives result (level tokens.now 1002 (level_of start) from) }
{
    match start {
        Start::Exprs => exprs(alloc, tokens, ROOM, from),
        Start::Text => text(alloc, tokens, ROOM, from),
        Start::Cast => cast(alloc, tokens, ROOM, from),
    }
}

/// The tree of the closed run of a level at the token `from`, and the place behind the run.
///
/// Trees have a depth of at most 500, and no token of the run stands inside more than 500 brackets of it.
#[tactic(auto, using(crate::proofs::ClosedRuns::run_is_read, crate::proofs::ClosedRuns::read_is_run))]
pub fn read_run(
    alloc: Global,
    tokens: &[Token],
    from: usize,
    start: Start,
) -> Result<(Node, usize), ReadFault>
    requires { from ≤ length tokens.now }
    // What is read is a closed run.
    ensures found { IfOk result (λ x. IsRunOf of_pattern start tokens.now from (view x.0) x.1) }
    // Each closed run is what is read, unless memory runs out.
    ensures only { (t : Tree) (to : ℕ) → IsRunOf of_pattern start tokens.now from t to → Gives result (Some (t ∷ [], to)) }
    // In a text so is each run that is closed among texts.
    ensures only_text { IsText tokens.now → (t : Tree) (to : ℕ) → IsRunOf of_text start tokens.now from t to → Gives result (Some (t ∷ [], to)) }
{
    let (node, end) = begun(alloc, tokens, from, start)?;
    if !is_shallow(&node, LIMIT) {
        return Err(ReadFault::NoTree);
    }
    if !few_brackets(tokens, from, end) {
        return Err(ReadFault::NoTree);
    }
    Ok((node, end))
}

/// The tree of all the tokens, which are a text.
///
/// Its depth is at most 500, and no token stands inside more than 500 brackets.
pub fn read_text(alloc: Global, tokens: &[Token]) -> Result<Node, ReadFault>
    // What is read is a tree of the tokens.
    ensures found { IfOk result (λ n. IsWhole tokens.now (view n)) }
    // Each tree of the tokens is what is read, unless memory runs out.
    ensures only { (t : Tree) → IsWhole tokens.now t → GivesTree result (Some t) }
{
    let (node, end) = text(alloc, tokens, ROOM, 0)?;
    if end != tokens.len() {
        return Err(ReadFault::NoTree);
    }
    if !is_shallow(&node, LIMIT) {
        return Err(ReadFault::NoTree);
    }
    if !few_brackets(tokens, 0, end) {
        return Err(ReadFault::NoTree);
    }
    Ok(node)
}
