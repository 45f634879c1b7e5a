//! The limits of what is read.

ghost use Rattle.std.specs.Prelude.{◌≡◌, ℕ, ◌<◌, ◌≤◌, length};
ghost use Rattle.grammar.specs.Rule.{behind};
ghost use Rattle.c_expr.specs.Words.{class};
ghost use Rattle.c_expr.specs.Table.{grammar};
ghost use Rattle.c_expr.specs.Runs.{round_at};

use crate::word::{Token, Word};
use node_tree::MOST_DEEP;

/// How many brackets are open behind a token, before which so many were.
#[tactic(auto, unfolding(crate::specs::Words::class))]
fn open_behind(word: Word, count: u32) -> u32
    requires { count < 502 }
    ensures { result ≡ behind grammar.opens grammar.closes (class word) count }
{
    match word {
        Word::OpenRound | Word::OpenSquare | Word::OpenCurly => count + 1,
        Word::CloseRound | Word::CloseSquare | Word::CloseCurly => count.saturating_sub(1),
        _ => count,
    }
}

/// The first place from this one on whose token stands inside too many brackets, or the end: no run within the limits
/// comes as far.
#[tactic(auto, using(crate::proofs::Counting::open_next, crate::proofs::Counting::open_start, crate::proofs::Counting::round_is))]
pub fn shallow_end(tokens: &[Token<'_>], from: usize) -> usize
    requires { from ≤ length tokens.now }
    ensures ordered { from ≤ result }
    ensures within { result ≤ length tokens.now }
    ensures few { (n : ℕ) → from ≤ n → n < result → round_at tokens.now from n ≤ MOST_DEEP }
    ensures many { result < length tokens.now → MOST_DEEP < round_at tokens.now from result }
{
    let mut count = 0;
    for at in from..tokens.len() {
        let next = open_behind(tokens[at].word, count);
        if count > MOST_DEEP {
            if next > MOST_DEEP {
                return at;
            }
        }
        count = next;
    }
    tokens.len()
}
