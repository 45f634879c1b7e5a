//! The comments of the languages.

ghost use Rattle.std.specs.Prelude.{◌≡◌, ◌≤◌, List as list, length, All, IfOk};
ghost use Rattle.node_tree.specs.declared.span.Span.{Span as a_span};
ghost use Rattle.node_tree.specs.declared.view.Lang.TheVariants.{Python, C};
ghost use Rattle.node_tree.specs.Span.{LiesIn};
ghost use Rattle.languages.specs.Comments.{AreComments};

use crate::patterns::Languages;
use comment_reader::CommentReader;
use node_tree::{Lang, LexFault, List, MOST_BYTES, Memory, Span};
use std::alloc::Global;

// The comments of a text in Python.
fn python_comments(alloc: Global, text: &str) -> Result<List<Span>, Memory>
    requires { length text.now ≤ MOST_BYTES }
    ensures given { IfOk result (AreComments Python text.now) }
    ensures lie { IfOk result (All (λ (s : a_span). LiesIn text.now s)) }
    ensures only { (l : list a_span) → AreComments Python text.now l → IfOk result (λ found. found ≡ l) }
{
    match py_lex::comments(alloc, text) {
        Ok(found) => Ok(found),
        Err(LexFault::NoTokens) => Ok(List::new(alloc)),
        Err(LexFault::Memory) => Err(Memory),
    }
}

// The comments of a text in C.
fn c_comments(alloc: Global, text: &str) -> Result<List<Span>, Memory>
    requires { length text.now ≤ MOST_BYTES }
    ensures given { IfOk result (AreComments C text.now) }
    ensures lie { IfOk result (All (λ (s : a_span). LiesIn text.now s)) }
    ensures only { (l : list a_span) → AreComments C text.now l → IfOk result (λ found. found ≡ l) }
{
    match c_lex::comments(alloc, text) {
        Ok(found) => Ok(found),
        Err(LexFault::NoTokens) => Ok(List::new(alloc)),
        Err(LexFault::Memory) => Err(Memory),
    }
}

impl CommentReader for Languages {
    ghost comments = { λ _. AreComments };

    fn read_comments(&self, alloc: Global, lang: Lang, text: &str) -> Result<List<Span>, Memory> {
        match lang {
            Lang::Python => python_comments(alloc, text),
            Lang::C => c_comments(alloc, text),
            Lang::Json | Lang::Regex => Ok(List::new(alloc)),
        }
    }
}
