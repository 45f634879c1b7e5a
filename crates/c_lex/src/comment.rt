//! The comments of a text.

ghost use Rattle.std.specs.Prelude.{◌≡◌, ◌≤◌, List as list, length, Err, IfOk};
ghost use Rattle.node_tree.specs.declared.span.Span.{Span as a_span};
ghost use Rattle.node_tree.specs.declared.view.Mode.TheVariants.{Text};
ghost use Rattle.node_tree.specs.declared.fault.LexFault.TheVariants.{NoTokens};
ghost use Rattle.c_lex.specs.declared.token.CToken.{CToken as a_token};
ghost use Rattle.c_lex.specs.Lexing.{IsTokensOf, Gives};
ghost use Rattle.c_lex.specs.Comments.{AreCommentsOf};
ghost use Rattle.c_lex.specs.Places.{SpansLie};

use crate::lex::automaton;
use crate::progress::{Progress, note};
use lexing::without_mark;
use node_tree::{LexFault, List, MOST_BYTES, Mode, Span};
use std::alloc::Global;

/// The comments of a text, in order: each `//` up to before the line's end, and each `/*` up to `*/`.
///
/// What looks like a comment in a string or in a directive is part of that token. NoTokens comes exactly where the text has no
/// list of tokens.
pub fn comments(alloc: Global, text: &str) -> Result<List<Span>, LexFault>
    requires { length text.now ≤ MOST_BYTES }
    // What is found are the comments between the tokens.
    ensures given { IfOk result (AreCommentsOf text.now) }
    // They lie in the text, one behind the other, and cut no character of it.
    ensures placed { IfOk result (SpansLie text.now 0) }
    // The comments of the text are those found, unless memory runs out.
    ensures only { (l : list a_span) → AreCommentsOf text.now l → Gives l result }
    // A text is refused only where it has no tokens.
    ensures refused { result ≡ Err NoTokens → (ts : list a_token) → IsTokensOf Text text.now ts → ⊥ }
{
    let mut found = List::new(alloc);
    let mut rest = without_mark(text);
    let mut progress = Progress {
        at: text.len() - rest.len(),
        fresh: true,
    };
    'lexemes: while !rest.is_empty() {
        let Some(piece) = automaton(Mode::Text, progress.fresh).next_piece(rest) else {
            return Err(LexFault::NoTokens);
        };
        note(&mut found, &mut progress, piece.word, piece.text)?;
        rest = piece.rest;
    }
    Ok(found)
}
