//! The blocks of a tree in preorder.

ghost use Rattle.std.specs.Prelude.{◌≡◌, ◌∷◌, [], MatchOption, IfOk};
ghost use Rattle.std.specs.Iterator.{YieldsFirstRef, item_count};
ghost use Rattle.node_tree.specs.Blocks.{is_block, blocks_in, blocks_of};

use crate::kind::Kind;
use crate::memory::Memory;
use crate::node::Node;
use crate::walk::Walk;
use std::marker::Model;

/// A walk through the nodes of a tree whose kids are statements, which contracts see as the nodes that are left. Going on
/// takes no memory.
#[derive(Drop)]
pub struct Blocks<'t> {
    walk: Walk<'t>,
}

impl<'t> Model for Blocks<'t> {
    ghost use Rattle.std.specs.Prelude.{List};
    ghost use Rattle.node_tree.specs.declared.node.Node.{Node as node};
    ghost use Rattle.node_tree.specs.Blocks.{blocks_in};
    ghost use Rattle.std.specs.Coded.{coded_list};
    ghost use Rattle.node_tree.specs.contracts.node.Node as nodes;

    ghost Value = { List node };

    ghost coded = { coded_list nodes.the_row.coded };

    ghost view = { λ b. blocks_in b.walk };
}

// Whether a node of this kind has statements as its kids.
fn holds_statements(kind: Kind) -> bool
    ensures { result ≡ is_block kind }
{
    match kind {
        Kind::Root => true,
        Kind::Block => true,
        _ => false,
    }
}

// The next block of a walk.
fn advance<'t>(walk: &mut Walk<'t>) -> Option<&'t Node>
    ensures { MatchOption result
        ((blocks_in walk.old ≡ []) × (blocks_in walk.new ≡ []))
        (λ n. blocks_in walk.old ≡ n.now ∷ blocks_in walk.new) }
{
    while let Some(node) = walk.next() {
        if holds_statements(node.kind) {
            return Some(node);
        }
    }
    None
}

impl<'t> Iterator for Blocks<'t> {
    type Item = &'t Node;

    ghost next_gives = { YieldsFirstRef (λ b. b) };

    ghost remaining = { item_count (λ b. b) };

    fn next(&mut self) -> Option<&'t Node> {
        advance(&mut self.walk)
    }
}

impl Node {
    /// A walk through this node and all below it in preorder that stops at each `Root` and each `Block`.
    pub fn blocks(&self) -> Result<Blocks<'_>, Memory>
        ensures { IfOk result (λ b. b ≡ blocks_of self.now) }
    {
        Ok(Blocks { walk: self.walk()? })
    }
}
