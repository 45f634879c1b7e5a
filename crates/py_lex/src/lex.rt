//! Reading a text lexeme after lexeme.

ghost use Rattle.std.specs.Prelude.{◌≡◌, ◌≤◌, List, length, IfOk};
ghost use Rattle.py_lex.specs.Lexing as spec;
ghost use Rattle.py_lex.specs.Places.{AreTokensIn};
ghost use Rattle.py_lex.specs.declared.token.PyToken.{PyToken as token};

use crate::class::Forms;
use crate::layout::{Layout, finish, step};
use crate::parts::{Lexemes, look};
use crate::token::PyToken;
use lexing::without_mark;
use node_tree::{LexFault, List, MOST_BYTES, Mode};
use std::alloc::Global;

/// The tokens of a text, of which there is one list at most.
///
/// Words, numbers, strings, operators and delimiters are those of the Python reference, section "Lexical analysis"; an
/// f-string has its parts. In a pattern, metavariables and the marks `<...` and `...>` are tokens too. `NoTokens` comes
/// just where the text has no list of tokens. The tokens lie in the text one behind the other, and so do the parts of
/// its f-strings; no span cuts a character.
pub fn tokens(alloc: Global, text: &str, mode: Mode) -> Result<List<PyToken>, LexFault>
    requires { length text.now ≤ MOST_BYTES }
    ensures given { IfOk result (λ l. spec.IsTokensOf mode text.now l) }
    ensures placed { IfOk result (AreTokensIn text.now) }
    ensures only { (ts : List token) → spec.IsTokensOf mode text.now ts → spec.Gives ts result }
{
    let levels = text.len();
    let mut all = List::new(alloc);
    let mut rest = without_mark(text);
    let mut layout = Layout::first(alloc, text.len() - rest.len());
    'lexemes: while !rest.is_empty() {
        let found = match look(
            alloc,
            Lexemes::Text,
            mode,
            Forms::Both,
            rest,
            layout.at,
            levels,
        ) {
            Ok(found) => found,
            Err(fault) => return Err(fault),
        };
        step(
            alloc,
            &mut all,
            &mut layout,
            found.word,
            found.text,
            found.parts,
        )?;
        rest = found.rest;
    }
    finish(alloc, &mut all, &mut layout)?;
    Ok(all)
}
