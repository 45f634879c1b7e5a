//! Reading a text lexeme after lexeme.

ghost use Rattle.std.specs.Prelude.{◌≡◌, ◌≤◌, ◌+◌, List, length, IfOk};
ghost use Rattle.std.specs.Str.{chars};
ghost use Rattle.lexing.specs.Automaton.{Accepts};
ghost use Rattle.c_lex.specs.Tokens.{rules};
ghost use Rattle.c_lex.specs.Lexing as spec;
ghost use Rattle.c_lex.specs.Places.{AreTokensIn};

use crate::progress::{Progress, keep, step};
use crate::table::{COLUMNS, ROWS, STARTS, WIDTH};
use crate::token::{CToken, CWord};
use lexing::{Automaton, without_mark};
use node_tree::{LexFault, List, MOST_BYTES, Mode};
use std::alloc::Global;

/// The automaton of the rules in a mode, where the line has had no token yet or has had one.
pub fn automaton(mode: Mode, fresh: bool) -> Automaton<'static>
    ensures { Accepts result.table result.start (rules mode fresh) }
{
    match (mode, fresh) {
        (Mode::Text, false) => Automaton::new(&COLUMNS, &ROWS, WIDTH, STARTS[0]),
        (Mode::Text, true) => Automaton::new(&COLUMNS, &ROWS, WIDTH, STARTS[1]),
        (Mode::Pattern, false) => Automaton::new(&COLUMNS, &ROWS, WIDTH, STARTS[2]),
        (Mode::Pattern, true) => Automaton::new(&COLUMNS, &ROWS, WIDTH, STARTS[3]),
    }
}

/// The tokens of a text, of which there is one list at most.
///
/// In a pattern, metavariables and the marks `<...` and `...>` are tokens too. The tokens lie in the text one behind the
/// other, the last of them is the text's end, and no span cuts a character.
pub fn c_tokens(alloc: Global, text: &str, mode: Mode) -> Result<List<CToken>, LexFault>
    requires { length text.now ≤ MOST_BYTES }
    ensures given { IfOk result (λ l. spec.IsTokensOf mode text.now l) }
    ensures placed { IfOk result (AreTokensIn text.now) }
    ensures only { (ts : List CToken) → spec.IsTokensOf mode text.now ts → spec.Gives ts result }
{
    let mut tokens = List::new(alloc);
    let mut rest = without_mark(text);
    let mut progress = Progress {
        at: text.len() - rest.len(),
        fresh: true,
    };
    'lexemes: while !rest.is_empty() {
        let Some(piece) = automaton(mode, progress.fresh).next_piece(rest) else {
            return Err(LexFault::NoTokens);
        };
        step(alloc, &mut tokens, &mut progress, piece.word, piece.text)?;
        rest = piece.rest;
    }
    keep(alloc, &mut tokens, CWord::End, "", progress.at)?;
    Ok(tokens)
}
