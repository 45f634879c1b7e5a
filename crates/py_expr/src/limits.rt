//! The limits of what is read.

ghost use Rattle.std.specs.Prelude.{◌≡◌, ℕ, ◌<◌, ◌≤◌, length, leb};
ghost use Rattle.node_tree.specs.Tree.{depth_of};
ghost use Rattle.grammar.specs.Rule.{behind};
ghost use Rattle.py_expr.specs.Words.{class};
ghost use Rattle.py_expr.specs.Table.{grammar};
ghost use Rattle.py_expr.specs.reader.Reading.{round_at};

use crate::item::Item;
use crate::word::Word;
use node_tree::{MOST_DEEP, Node};

/// How many brackets are open behind a token, before which so many were.
#[tactic(auto, unfolding(crate::specs::Words::class))]
fn open_behind(word: Word, count: u32) -> u32
    requires { count < 502 }
    ensures { result ≡ behind grammar.opens grammar.closes (class word) count }
{
    match word {
        Word::LeftRound | Word::LeftSquare | Word::LeftBrace | Word::BraceDots => count + 1,
        Word::RightRound | Word::RightSquare | Word::RightBrace => count.saturating_sub(1),
        _ => count,
    }
}

/// The first place from this one on whose token stands inside too many brackets, or the end: no run within the limits
/// comes as far.
#[tactic(auto, using(crate::proofs::Counting::open_next, crate::proofs::Counting::open_start, crate::proofs::Counting::round_is))]
pub fn shallow_end(items: &[Item<'_>], from: usize) -> usize
    requires { from ≤ length items.now }
    ensures ordered { from ≤ result }
    ensures within { result ≤ length items.now }
    ensures few { (n : ℕ) → from ≤ n → n < result → round_at items.now from n ≤ MOST_DEEP }
    ensures many { result < length items.now → MOST_DEEP < round_at items.now from result }
{
    let mut count = 0;
    for at in from..items.len() {
        let next = open_behind(items[at].word, count);
        if count > MOST_DEEP {
            if next > MOST_DEEP {
                return at;
            }
        }
        count = next;
    }
    items.len()
}

/// Whether a tree is at most so deep.
#[tactic(auto, using(crate::proofs::Counting::depth_opened, crate::proofs::Counting::depths_from, crate::proofs::Counting::depths_past, crate::proofs::Counting::leb_max))]
pub fn is_shallow(node: &Node, most: u32) -> bool
    ensures { result ≡ leb (depth_of node.now) most }
{
    if most == 0 {
        return false;
    }
    for kid in node.kids.as_slice() {
        if !is_shallow(kid, most - 1) {
            return false;
        }
    }
    true
}
