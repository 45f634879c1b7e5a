//! The comments of a text.

ghost use Rattle.std.specs.Prelude.{◌≡◌, ◌≤◌, ◌+◌, ◌<◌, List, length, option_map, IfOk, OnOk};
ghost use Rattle.node_tree.specs.declared.span.Span.{Span as span};
ghost use Rattle.py_lex.specs.Classes.{class_of};
ghost use Rattle.py_lex.specs.Comments as spec;
ghost use Rattle.py_lex.specs.Layout as lines;
ghost use Rattle.py_lex.specs.Lexing.{Gives};

use crate::class::{Class, Forms, class_at};
use crate::layout::{Layout, finish, step};
use crate::parts::{Lexemes, look};
use crate::token::FPart;
use lexing::without_mark;
use node_tree::{LexFault, List, MOST_BYTES, Mode, Span};
use std::alloc::Global;

/// Reads one lexeme of the class that has the number, and keeps its span if it is a comment.
fn note(
    alloc: Global,
    all: &mut List<Span>,
    layout: &mut Layout,
    number: u16,
    text: &str,
    parts: List<FPart>,
) -> Result<(), LexFault>
    requires room { layout.old.at + length text.now ≤ MOST_BYTES }
    requires bounded { lines.IsBounded layout.old }
    requires some { 0 < length text.now }
    ensures turns { lines.Turns (option_map (spec.noting (class_of number) layout.old.at (length text.now)) (lines.step layout.old number text.now parts)) all.old all.new layout.new result }
    ensures moves { OnOk result (layout.new.at ≡ layout.old.at + length text.now) }
    ensures bounded { OnOk result (lines.IsBounded layout.new) }
{
    let from = layout.at;
    let mut tokens = List::new(alloc);
    step(alloc, &mut tokens, layout, number, text, parts)?;
    if class_at(number) == Class::Comment {
        all.push(Span {
            from: from as u32,
            to: (from + text.len()) as u32,
        })?;
    }
    Ok(())
}

/// The comments of a text, in order: each from its `#` to its line's end, which is no part of it.
///
/// A `#` in a string begins none, and in a field of an f-string none may stand. `NoTokens` comes just where the text has no
/// list of tokens. The comments lie in the text, and no span cuts a character.
pub fn comments(alloc: Global, text: &str) -> Result<List<Span>, LexFault>
    requires { length text.now ≤ MOST_BYTES }
    ensures given { IfOk result (λ l. spec.AreCommentsOf text.now l) }
    ensures placed { IfOk result (λ l. spec.SpansLie text.now 0 l (length text.now)) }
    ensures only { (l : List span) → spec.AreCommentsOf text.now l → Gives l result }
{
    let levels = text.len();
    let mut all = List::new(alloc);
    let mut rest = without_mark(text);
    let mut layout = Layout::first(alloc, text.len() - rest.len());
    'lexemes: while !rest.is_empty() {
        let found = match look(
            alloc,
            Lexemes::Text,
            Mode::Text,
            Forms::Both,
            rest,
            layout.at,
            levels,
        ) {
            Ok(found) => found,
            Err(fault) => return Err(fault),
        };
        note(
            alloc,
            &mut all,
            &mut layout,
            found.word,
            found.text,
            found.parts,
        )?;
        rest = found.rest;
    }
    let mut last = List::new(alloc);
    finish(alloc, &mut last, &mut layout)?;
    Ok(all)
}
