//! What is known of names wherever they stand.

ghost use Rattle.std.specs.Prelude.{◌≡◌, ◌++◌, replicate, None, IfOk, OnOk, option_map};
ghost use Rattle.unit_names.specs.Seen.{seen_word};
ghost use Rattle.unit_names.specs.Words.{same_word};
ghost use Rattle.const_prop.specs.Settled.{all_sightings};
ghost use Rattle.const_prop.specs.Settled as spec;

use crate::sighting::Sighting;
use node_tree::{Known, List, Memory};
use point_nodes::IndexedTree;
use std::alloc::Global;
use unit_names::{Word, is_name};

// What is known of a node: None where it was seen nowhere yet, and nothing within where it can't hold a literal.
type Slot<'t> = Option<Option<Word<'t>>>;

// Whether the words are the same.
fn is_same(one: Word<'_>, other: Word<'_>) -> bool
    ensures { result ≡ same_word (seen_word one.entry) (seen_word other.entry) }
{
    if one.kind.place() != other.kind.place() {
        return false;
    }
    one.text.as_bytes() == other.text.as_bytes()
}

// The literal that both are.
fn joined<'t>(one: Option<Word<'t>>, other: Option<Word<'t>>) -> Option<Word<'t>>
    ensures { option_map seen_word result ≡
        spec.joined (option_map seen_word one.entry) (option_map seen_word other.entry) }
{
    let Some(first) = one else {
        return None;
    };
    let Some(second) = other else {
        return None;
    };
    if is_same(first, second) {
        return Some(first);
    }
    None
}

// What is known once a name was seen here, too.
fn with_sighting<'t>(slot: Slot<'t>, literal: Option<Word<'t>>) -> Slot<'t>
    ensures { spec.seen_slot result ≡
        spec.seen_more (spec.seen_slot slot.entry) (option_map seen_word literal.entry) }
{
    match slot {
        None => Some(literal),
        Some(known) => Some(joined(known, literal)),
    }
}

// So many nodes that were seen nowhere.
fn unseen<'t>(alloc: Global, count: usize) -> Result<Vec<Slot<'t>>, Memory>
    ensures { IfOk result (λ slots. slots.items ≡ replicate count None) }
{
    let mut slots = Vec::new(alloc);
    for _at in 0..count {
        slots.push(None)?;
    }
    Ok(slots)
}

// Notes that a name was seen.
fn add_sighting<'t>(slots: &mut Vec<Slot<'t>>, sighting: Sighting<'t>)
    ensures { spec.AddsSighting slots.old.items
        (spec.seen_sighting sighting.entry) slots.new.items }
{
    let at = sighting.at as usize;
    if at >= slots.len() {
        return;
    }
    let slot = with_sighting(slots[at], sighting.literal);
    slots[at] = slot;
}

// What is known of each of so many nodes.
fn gather<'t>(
    alloc: Global,
    count: usize,
    sightings: &[Sighting<'t>],
) -> Result<Vec<Slot<'t>>, Memory>
    ensures { IfOk result (λ slots.
        spec.AreGathered (all_sightings sightings.now) count slots.items) }
{
    let mut slots = unseen(alloc, count)?;
    for sighting in sightings {
        add_sighting(&mut slots, *sighting);
    }
    Ok(slots)
}

// Whether the node of that number is a name.
fn is_name_at(tree: &IndexedTree<'_>, at: u32) -> bool
    ensures { result ≡ spec.is_name_there tree.now at }
{
    match tree.node(at) {
        Some(spot) => is_name(spot.node.kind),
        None => false,
    }
}

// Adds a node of which that is known, if it is a name and holds a literal.
fn add_known(
    alloc: Global,
    tree: &IndexedTree<'_>,
    at: u32,
    slot: Slot<'_>,
    known: &mut List<Known>,
) -> Result<(), Memory>
    ensures { OnOk result (known.new ≡ known.old ++
        spec.known_at (spec.is_name_there tree.now at) at (spec.seen_slot slot.entry)) }
{
    let Some(Some(word)) = slot else {
        return Ok(());
    };
    if !is_name_at(tree, at) {
        return Ok(());
    }
    let literal = word.leaf(alloc)?;
    known.push(Known { at, literal })?;
    Ok(())
}

/// The names of a tree with so many nodes that hold the same literal wherever they are seen, in order.
pub fn settle(
    alloc: Global,
    tree: &IndexedTree<'_>,
    count: u32,
    sightings: &[Sighting<'_>],
) -> Result<List<Known>, Memory>
    ensures { IfOk result (λ known.
        spec.AreSettled tree.now (all_sightings sightings.now) count known) }
{
    let slots = gather(alloc, count as usize, sightings)?;
    let mut known = List::new(alloc);
    for at in 0..count {
        add_known(alloc, tree, at, slots[at as usize], &mut known)?;
    }
    Ok(known)
}
