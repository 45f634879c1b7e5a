//! From a text to its tokens.

ghost use Rattle.std.specs.Prelude.{◌≡◌, List, IfOk, Some};
ghost use Rattle.lexing.specs.Automaton.{Accepts};
ghost use Rattle.meta_filter.specs.declared.token.Token.{Token as token};
ghost use Rattle.meta_filter.specs.Words as words;
ghost use Rattle.meta_filter.specs.Tokens.{rules};
ghost use Rattle.meta_filter.specs.Lexing as spec;
ghost use Rattle.meta_filter.specs.Reading.{Gives};

use crate::fault::CompareFault;
use crate::table::{COLUMNS, ROWS, STARTS, WIDTH};
use crate::token::{Token, word_of};
use lexing::Automaton;
use node_tree::{List, Written};
use std::alloc::Global;

/// The automaton of the rules.
fn automaton() -> Automaton<'static>
    ensures { Accepts result.table result.start rules }
{
    Automaton::new(&COLUMNS, &ROWS, WIDTH, STARTS[0])
}

/// Keeps the token of a lexeme, if it has one: of the one that has the number.
fn keep<'t>(tokens: &mut List<Token<'t>>, number: u16, text: &'t str) -> Result<(), CompareFault>
    ensures { spec.Pushes (spec.given text.now (words.word_of number text.now)) tokens.old tokens.new result }
{
    let Some(word) = word_of(number, text) else {
        return Ok(());
    };
    let token = Token {
        word,
        text: Written::new(text),
    };
    tokens.push(token)?;
    Ok(())
}

/// The tokens of a text, of which there is one list at most, or NoComparison where it has none.
pub fn lex<'t>(alloc: Global, text: &'t str) -> Result<List<Token<'t>>, CompareFault>
    ensures given { IfOk result (λ ts. spec.IsTokensOf text.now ts) }
    ensures only { (ts : List token) → spec.IsTokensOf text.now ts → Gives (λ l. l) result (Some ts) }
{
    let automaton = automaton();
    let mut tokens = List::new(alloc);
    let mut rest = text;
    'lexemes: while !rest.is_empty() {
        let Some(piece) = automaton.next_piece(rest) else {
            return Err(CompareFault::NoComparison);
        };
        keep(&mut tokens, piece.word, piece.text)?;
        rest = piece.rest;
    }
    Ok(tokens)
}
