//! What of a tree counts.

ghost use Rattle.std.specs.Prelude.{◌≡◌};
ghost use Rattle.node_tree.specs.Order.{kind_place};
ghost use Rattle.node_tree.specs.Tree.{kind_of, span_of};
ghost use Rattle.tree_code.specs.Looks.{seen_by};

use node_tree::{Node, Span};

/// What of a tree counts: all, or kinds, texts and kids alone, where `Id` counts as `Name`.
#[derive(Clone, Copy)]
pub enum Look {
    Whole,
    Content,
}

impl Look {
    /// The place of a node's kind.
    pub fn kind_place(self, node: &Node) -> u8
        ensures { result ≡ kind_place (kind_of (seen_by self node.now)) }
    {
        match self {
            Look::Whole => node.kind.place(),
            Look::Content => node.kind.content().place(),
        }
    }

    /// The range of a node.
    pub fn span(self, node: &Node) -> Span
        ensures { result ≡ span_of (seen_by self node.now) }
    {
        match self {
            Look::Whole => node.span,
            Look::Content => Span { from: 0, to: 0 },
        }
    }
}
