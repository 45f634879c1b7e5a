//! The names of which nothing is known.

ghost use Rattle.std.specs.Prelude.{◌≡◌, ◌++◌, ◌∷◌, [], codes, take, OnOk};
ghost use Rattle.std.specs.Str.{bytes_eq};
ghost use Rattle.std.specs.List.{flat_map};
ghost use Rattle.node_tree.specs.Tree.{pre_of, text_of};
ghost use Rattle.unit_names.specs.Seen.{all_words};
ghost use Rattle.unit_names.specs.Words.{name_word as name_word_spec};
ghost use Rattle.unit_names.specs.Names as spec;

use crate::scope::Scope;
use crate::word::{Word, add_if, add_word, name_here, name_word};
use flow_graph::Point;
use node_tree::{Kind, List, Memory, Node, Text};
use point_nodes::{IndexedTree, nodes};
use std::alloc::Global;

// Adds the name of the first of these nodes, if it is one.
fn add_first_name<'t>(nodes: &'t [Node], into: &mut List<Word<'t>>) -> Result<(), Memory>
    ensures { OnOk result (all_words into.new ≡
        all_words into.old ++ flat_map spec.name_here (take 1 nodes.now)) }
{
    if let Some(first) = nodes.first() {
        add_if(name_here(first), into)?;
        return Ok(());
    }
    Ok(())
}

// Whether the text is `&`.
fn is_reference(text: &Text) -> bool
    ensures { result ≡ bytes_eq text.now (codes "&") }
{
    let mark: &[u8] = b"&";
    text.as_str().as_bytes() == mark
}

// Adds the name to which a node of that kind and text with these kids applies `&`.
fn add_referred_by<'t>(
    kind: Kind,
    text: &Text,
    kids: &'t [Node],
    into: &mut List<Word<'t>>,
) -> Result<(), Memory>
    ensures { OnOk result (all_words into.new ≡
        all_words into.old ++ spec.referred_by kind text.now kids.now) }
{
    match kind {
        Kind::Unary => {
            if is_reference(text) {
                add_first_name(kids, into)?;
                return Ok(());
            }
            Ok(())
        }
        _ => Ok(()),
    }
}

// Adds the texts of these nodes as names.
fn add_texts<'t>(nodes: &'t [Node], into: &mut List<Word<'t>>) -> Result<(), Memory>
    ensures { OnOk result (all_words into.new ≡
        all_words into.old ++ flat_map (λ n. name_word_spec (text_of n) ∷ []) nodes.now) }
{
    for node in nodes {
        add_word(name_word(node.text.as_str()), into)?;
    }
    Ok(())
}

// Adds the names that a node of that kind with these kids says are those of another unit.
fn add_shared_by<'t>(kind: Kind, kids: &'t [Node], into: &mut List<Word<'t>>) -> Result<(), Memory>
    ensures { OnOk result (all_words into.new ≡
        all_words into.old ++ spec.shared_by kind kids.now) }
{
    match kind {
        Kind::Global => add_texts(kids, into),
        Kind::Nonlocal => add_texts(kids, into),
        _ => Ok(()),
    }
}

/// Adds what is `global` or `nonlocal` anywhere in the tree.
pub fn add_all_shared<'t>(root: &'t Node, into: &mut List<Word<'t>>) -> Result<(), Memory>
    ensures { OnOk result (all_words into.new ≡
        all_words into.old ++ flat_map spec.shared_in (pre_of root.now)) }
{
    let mut walk = root.walk()?;
    while let Some(node) = walk.next() {
        add_shared_by(node.kind, node.kids.as_slice(), into)?;
    }
    Ok(())
}

/// Adds that to which `&` is applied anywhere in the tree.
pub fn add_all_referred<'t>(root: &'t Node, into: &mut List<Word<'t>>) -> Result<(), Memory>
    ensures { OnOk result (all_words into.new ≡
        all_words into.old ++ flat_map spec.referred_in (pre_of root.now)) }
{
    let mut walk = root.walk()?;
    while let Some(node) = walk.next() {
        add_referred_by(node.kind, &node.text, node.kids.as_slice(), into)?;
    }
    Ok(())
}

// Adds that to which a point applies `&`.
fn add_referred_at<'t>(
    alloc: Global,
    tree: &IndexedTree<'t>,
    point: Point,
    into: &mut List<Word<'t>>,
) -> Result<(), Memory>
    ensures { OnOk result (all_words into.new ≡
        all_words into.old ++ spec.referred_at tree.now point) }
{
    let spots = nodes(alloc, tree, point)?;
    for spot in spots.as_slice() {
        let node = spot.node;
        add_referred_by(node.kind, &node.text, node.kids.as_slice(), into)?;
    }
    Ok(())
}

/// Adds that to which a unit applies `&`.
pub fn add_referred_of<'t>(
    alloc: Global,
    tree: &IndexedTree<'t>,
    scope: &Scope,
    into: &mut List<Word<'t>>,
) -> Result<(), Memory>
    ensures { OnOk result (all_words into.new ≡
        all_words into.old ++ spec.referred_of tree.now scope.now) }
{
    for point in scope.graph.points.as_slice() {
        add_referred_at(alloc, tree, *point, into)?;
    }
    Ok(())
}
