//! The parts of a file that is opened, with the rows of their pieces in hand.

ghost use Rattle.std.specs.Prelude.{◌≡◌, ◌∷◌, ◌++◌, [], IfOk, OnOk};
ghost use Rattle.std.specs.BTreeMap.{get};
ghost use Rattle.file_parts.specs.Parts.{seen_part, ArePartsOf};
ghost use Rattle.kept_leaves.specs.Kept.{piece_cmp};
ghost use Rattle.kept_leaves.specs.Opened.{open_map, pieces_in, IsOpenLeaves, ArePlacesOf, Extends, Knows, IsOut, IsIn, HasNoRow, SeesSame};

use crate::leaf::OpenLeaves;
use crate::part::ReadyPart;
use file_parts::{Part, Parts};
use node_tree::Memory;
use piece_form::PieceKey;
use std::alloc::Global;
use std::collections::BTreeMap;
use std::rc::Rc;

// The place of a piece that is in hand.
fn known_place(places: &BTreeMap<Rc<PieceKey>, usize>, key: &Rc<PieceKey>) -> Option<usize>
    ensures { result ≡ get piece_cmp places.now key.now }
{
    match places.get(key) {
        Some(place) => Some(*place),
        None => None,
    }
}

// Takes the row of a piece in hand that isn't, and gives its place.
fn hold_new(
    alloc: Global,
    leaves: &mut OpenLeaves,
    places: &mut BTreeMap<Rc<PieceKey>, usize>,
    key: &Rc<PieceKey>,
) -> Result<usize, Memory>
    requires leaves { IsOpenLeaves leaves.old }
    requires knows { Knows leaves.old places.old }
    requires out { IsOut leaves.old key.now }
    ensures leaves { OnOk result (IsOpenLeaves leaves.new) }
    ensures knows { OnOk result (Knows leaves.new places.new) }
    ensures same { OnOk result (SeesSame (open_map leaves.old) (open_map leaves.new)) }
    ensures extends { OnOk result (Extends leaves.old leaves.new) }
    ensures place { IfOk result (IsIn leaves.new key.now) }
{
    let place = leaves.store.rows.len();
    let piece = key.clone()?;
    leaves.store.hold(alloc, piece)?;
    let entry = key.clone()?;
    places.insert(entry, place)?;
    Ok(place)
}

// Takes the row of a piece in hand, unless it is, and gives its place.
fn hold(
    alloc: Global,
    leaves: &mut OpenLeaves,
    places: &mut BTreeMap<Rc<PieceKey>, usize>,
    key: &Rc<PieceKey>,
) -> Result<usize, Memory>
    requires leaves { IsOpenLeaves leaves.old }
    requires knows { Knows leaves.old places.old }
    ensures leaves { OnOk result (IsOpenLeaves leaves.new) }
    ensures knows { OnOk result (Knows leaves.new places.new) }
    ensures same { OnOk result (SeesSame (open_map leaves.old) (open_map leaves.new)) }
    ensures extends { OnOk result (Extends leaves.old leaves.new) }
    ensures place { IfOk result (IsIn leaves.new key.now) }
{
    match known_place(places, key) {
        Some(place) => Ok(place),
        None => hold_new(alloc, leaves, places, key),
    }
}

// Adds a part, with the place of its row.
fn open_part<'p>(
    alloc: Global,
    leaves: &mut OpenLeaves,
    known: &mut BTreeMap<Rc<PieceKey>, usize>,
    places: &mut Vec<usize>,
    parts: &mut Vec<ReadyPart<'p>>,
    part: Part<'p>,
) -> Result<(), Memory>
    requires leaves { IsOpenLeaves leaves.old }
    requires knows { Knows leaves.old known.old }
    ensures leaves { OnOk result (IsOpenLeaves leaves.new) }
    ensures knows { OnOk result (Knows leaves.new known.new) }
    ensures same { OnOk result (SeesSame (open_map leaves.old) (open_map leaves.new)) }
    ensures path { OnOk result (leaves.new.store.path ≡ leaves.old.store.path) }
    ensures parts { OnOk result (parts.new.items ≡ parts.old.items ++ seen_part part.entry ∷ []) }
    ensures places { ArePlacesOf (pieces_in leaves.old) places.old.items parts.old.items →
        OnOk result (ArePlacesOf (pieces_in leaves.new) places.new.items parts.new.items) }
{
    let ready = ReadyPart::of(alloc, part)?;
    let place = hold(alloc, leaves, known, &ready.key)?;
    places.push(place)?;
    parts.push(ready)?;
    Ok(())
}

/// Makes the keys of all parts of a file, and takes the rows of their pieces in hand: the parts, and the place of each one's row.
pub fn open_parts<'p>(
    alloc: Global,
    leaves: &mut OpenLeaves,
    file: &'p Parts<'p>,
) -> Result<(Vec<ReadyPart<'p>>, Vec<usize>), Memory>
    requires leaves { IsOpenLeaves leaves.old }
    requires none { HasNoRow leaves.old }
    ensures leaves { OnOk result (IsOpenLeaves leaves.new) }
    ensures same { OnOk result (SeesSame (open_map leaves.old) (open_map leaves.new)) }
    ensures path { OnOk result (leaves.new.store.path ≡ leaves.old.store.path) }
    ensures parts { IfOk result (λ opened. ArePartsOf file.now opened.0.items) }
    ensures places { IfOk result (λ opened. ArePlacesOf (pieces_in leaves.new) opened.1.items opened.0.items) }
{
    let mut known = BTreeMap::new(alloc);
    let mut parts = Vec::new(alloc);
    let mut places = Vec::new(alloc);
    let all = file.all(alloc)?;
    for part in all.as_slice() {
        open_part(alloc, leaves, &mut known, &mut places, &mut parts, *part)?;
    }
    Ok((parts, places))
}
