//! Names and literals as words.

ghost use Rattle.std.specs.Prelude.{◌≡◌, ◌++◌, ◌∷◌, [], IfOk, OnOk};
ghost use Rattle.node_tree.specs.Kinds.{is_literal as is_literal_spec};
ghost use Rattle.assignments.specs.Targets.{is_name as is_name_spec};
ghost use Rattle.unit_names.specs.Seen.{seen_word, all_words, word_list};
ghost use Rattle.unit_names.specs.Words.{word_of as word_of_spec, name_word as name_word_spec, leaf};
ghost use Rattle.unit_names.specs.Names as spec;

use node_tree::{Kind, List, Memory, Node, Span, Text};
use std::alloc::Global;

/// A name or a literal: the kind of its node, and its text.
#[derive(Clone, Copy)]
pub struct Word<'t> {
    pub kind: Kind,
    pub text: &'t str,
}

/// The word that a node is.
pub fn word_of<'t>(node: &'t Node) -> Word<'t>
    ensures { seen_word result ≡ word_of_spec node.now }
{
    Word {
        kind: node.kind,
        text: node.text.as_str(),
    }
}

/// A name as a word.
pub fn name_word<'t>(text: &'t str) -> Word<'t>
    ensures { seen_word result ≡ name_word_spec text.now }
{
    Word {
        kind: Kind::Name,
        text,
    }
}

/// Whether it is a name that is an expression.
pub fn is_name(kind: Kind) -> bool
    ensures { result ≡ is_name_spec kind }
{
    match kind {
        Kind::Name => true,
        _ => false,
    }
}

/// Whether it is a literal that a name may be known to hold.
pub fn is_literal(kind: Kind) -> bool
    ensures { result ≡ is_literal_spec kind }
{
    match kind {
        Kind::Str => true,
        Kind::Number => true,
        Kind::Const => true,
        _ => false,
    }
}

/// The name that a node is, if it is one.
pub fn name_here<'t>(node: &'t Node) -> Option<Word<'t>>
    ensures { word_list result ≡ spec.name_here node.now }
{
    if is_name(node.kind) {
        return Some(word_of(node));
    }
    None
}

/// The literal that a node is, if it is one.
pub fn literal_here<'t>(node: &'t Node) -> Option<Word<'t>>
    ensures { word_list result ≡ spec.literal_here node.now }
{
    if is_literal(node.kind) {
        return Some(word_of(node));
    }
    None
}

/// Adds a word at the end.
pub fn add_word<'t>(word: Word<'t>, into: &mut List<Word<'t>>) -> Result<(), Memory>
    ensures { OnOk result (all_words into.new ≡
        all_words into.old ++ seen_word word.entry ∷ []) }
{
    into.push(word)?;
    Ok(())
}

/// Adds a word at the end, if there is one.
pub fn add_if<'t>(word: Option<Word<'t>>, into: &mut List<Word<'t>>) -> Result<(), Memory>
    ensures { OnOk result (all_words into.new ≡
        all_words into.old ++ word_list word.entry) }
{
    if let Some(word) = word {
        add_word(word, into)?;
        return Ok(());
    }
    Ok(())
}

impl<'t> Word<'t> {
    /// A node of that kind and text, which stands nowhere.
    pub fn leaf(self, alloc: Global) -> Result<Node, Memory>
        ensures { IfOk result (λ n. n ≡ leaf (seen_word self.entry)) }
    {
        Ok(Node {
            kind: self.kind,
            text: Text::from_str(alloc, self.text)?,
            kids: List::new(alloc),
            span: Span { from: 0, to: 0 },
        })
    }
}
