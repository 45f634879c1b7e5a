//! How many different names the nodes of a tree are.

ghost use Rattle.std.specs.Prelude.{◌≡◌, ◌++◌, length, IfOk, OnOk};
ghost use Rattle.std.specs.List.{flat_map};
ghost use Rattle.node_tree.specs.Tree.{pre_of};
ghost use Rattle.unit_names.specs.Seen.{all_words};
ghost use Rattle.unit_names.specs.Words.{each_once};
ghost use Rattle.taint_flow.specs.Bounds.{words_at};

use node_tree::{Kind, List, Memory, Node};
use std::alloc::Global;
use unit_names::{Word, Words, name_word};

// Adds the name that a node is, if it is one.
fn add_name<'t>(node: &'t Node, into: &mut List<Word<'t>>) -> Result<(), Memory>
    ensures { OnOk result (all_words into.new ≡ all_words into.old ++ words_at node.now) }
{
    match node.kind {
        Kind::Name => into.push(name_word(node.text.as_str())),
        Kind::Id => into.push(name_word(node.text.as_str())),
        _ => Ok(()),
    }
}

// The names of a tree, in the order of its nodes.
fn all_names<'t>(alloc: Global, root: &'t Node) -> Result<List<Word<'t>>, Memory>
    ensures { IfOk result (λ names. all_words names ≡ flat_map words_at (pre_of root.now)) }
{
    let mut names = List::new(alloc);
    let mut walk = root.walk()?;
    while let Some(node) = walk.next() {
        add_name(node, &mut names)?;
    }
    Ok(names)
}

/// How many different names the nodes of a tree are.
pub fn count_names(alloc: Global, root: &Node) -> Result<u32, Memory>
    ensures { IfOk result (λ count. count ≡ length (each_once (flat_map words_at (pre_of root.now)))) }
{
    let names = all_names(alloc, root)?;
    let once = Words::of(alloc, names.as_slice())?;
    Ok(once.len())
}
