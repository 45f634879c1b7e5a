//! Tokens as the grammar sees them.

ghost use Rattle.std.specs.Prelude.{◌≡◌};
ghost use Rattle.py_expr.specs.Items as spec;

use crate::word::Word;
use node_tree::{List, Node, Span, Written};
use py_lex::PyToken;

/// A token as the grammar sees it: its word, its text as written, where it stands, and the nodes of an f-string's parts.
#[derive(Drop)]
pub struct Item<'t> {
    pub word: Word,
    pub text: Written<'t>,
    pub span: Span,
    pub inside: List<Node>,
}

/// A token of this word, with these nodes inside.
pub fn item_of<'t>(word: Word, token: &'t PyToken, inside: List<Node>) -> Item<'t>
    ensures { result ≡ spec.item word token.now inside }
{
    Item {
        word,
        text: Written::new(token.text.as_str()),
        span: token.span,
        inside,
    }
}
