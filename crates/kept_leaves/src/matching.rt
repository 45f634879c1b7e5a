//! What a pattern has in the parts of a file, by the leaves that are kept.

ghost use Rattle.std.specs.Prelude.{◌≡◌, ◌+◌, ◌<◌, List as list, [], ◌∷◌, true, false, length, IfOk, OnOk};
ghost use Rattle.node_tree.specs.declared.view.FileView.{FileView as a_view};
ghost use Rattle.node_tree.specs.declared.view.Pattern.{Pattern as a_pattern};
ghost use Rattle.piece_form.specs.declared.piece.Piece.{Piece as a_piece};
ghost use Rattle.piece_form.specs.Identity.{IsSamePiece};
ghost use Rattle.piece_match.specs.Pieces.{IsPieceMember, known_piece};
ghost use Rattle.tree_match.specs.Leaf.{IsLeaf};
ghost use Rattle.tree_match.specs.Members.{known_tree};
ghost use Rattle.tree_match.specs.Placed.{IsLeafPlaced};
ghost use Rattle.file_parts.specs.Leaves.{HasNoneIn, HasNoneWritten};
ghost use Rattle.file_parts.specs.Parts.{SeenPart, ArePartsOf, is_needed as needs, needed_of};
ghost use Rattle.file_parts.specs.Seen.{seen_leaf};
ghost use Rattle.kept_leaves.specs.Found.{AreFound, IsTold};
ghost use Rattle.kept_leaves.specs.Growth.{Meets};
ghost use Rattle.kept_leaves.specs.Opened.{open_map, pieces_in, StaysOpen, KeepsPlaces, IsOpenLeaves, IsPlaceOf, ArePlacesOf, IsNumberOf};
ghost use Rattle.kept_leaves.specs.Pairs.{IsOneOf};
ghost use Rattle.kept_leaves.specs.Ready.{pairs_of};

use crate::asked::AskedPattern;
use crate::found::{FoundPart, add_found, leaves_of};
use crate::leaf::{KeptLeaf, OpenLeaves};
use crate::part::ReadyPart;
use file_parts::join;
use node_tree::{List, Memory, Pattern, Steps};
use piece_form::PatternKey;
use piece_store::Answer;
use std::alloc::Global;
use std::rc::Rc;
use std::sync::ledger::Ledger;
use tree_match::{Leaf, LeafSet};

// Whether the leaf that is kept at the place may have members.
fn may_have(leaves: &OpenLeaves, place: usize, number: u32) -> bool
    requires leaves { IsOpenLeaves leaves.now }
    requires place { place < length leaves.now.store.rows.items }
    ensures { (part : SeenPart) (pattern : a_pattern) → IsPlaceOf (pieces_in leaves.now) place part →
        IsNumberOf leaves.now number pattern → result ≡ false → HasNoneIn pattern part }
{
    match leaves.store.look(place, number) {
        Some(kept) => !kept.is_empty(),
        None => true,
    }
}

// What the pattern has in a part. Where it is absent, that is nothing in a part of the file as it is written. It is one step.
fn leaf_in<L: Ledger>(
    alloc: Global,
    part: &mut ReadyPart<'_>,
    pattern: &mut AskedPattern<'_>,
    absent: bool,
    steps: &mut Steps<L>,
) -> Result<Leaf, Memory>
    requires { absent ≡ true → part.old.resolved ≡ false → HasNoneIn pattern.old part.old }
    ensures same { part.new ≡ part.old }
    ensures pattern { pattern.new ≡ pattern.old }
    ensures alike { (p : a_piece) → IsSamePiece part.old.placed.piece p →
        IfOk result (IsLeaf (IsPieceMember pattern.old (known_piece p))) }
    ensures cost { OnOk result (steps.new ≡ steps.old + 1) }
{
    if absent && !part.is_resolved() {
        steps.tick();
        return Ok(Leaf::Full(LeafSet::empty(alloc)));
    }
    part.match_in(alloc, pattern, steps)
}

// Matches the pattern in the part whose row stands at the place, if it needs that and the pair is not kept. The pair is met then.
// Tells whether the pattern may have members there.
fn meet<L: Ledger>(
    alloc: Global,
    leaves: &mut OpenLeaves,
    part: &mut ReadyPart<'_>,
    place: usize,
    pattern: &mut AskedPattern<'_>,
    absent: bool,
    number: u32,
    steps: &mut Steps<L>,
) -> Result<bool, Memory>
    requires leaves { IsOpenLeaves leaves.old }
    requires place { IsPlaceOf (pieces_in leaves.old) place part.old }
    requires number { IsNumberOf leaves.old number pattern.old }
    requires absent { absent ≡ true → part.old.resolved ≡ false → needs pattern.old part.old ≡ true → HasNoneIn pattern.old part.old }
    ensures leaves { IsOpenLeaves leaves.new }
    ensures stays { StaysOpen leaves.old leaves.new }
    ensures same { part.new ≡ part.old }
    ensures pattern { pattern.new ≡ pattern.old }
    ensures kept { OnOk result (Meets (IsOneOf (pairs_of leaves.old.store.path pattern.old (part.old ∷ [])))
        (open_map leaves.old) steps.old (open_map leaves.new) steps.new) }
    ensures told { IfOk result (IsTold pattern.old part.old) }
{
    if !part.is_needed(pattern.pattern()) {
        return Ok(false);
    }
    if leaves.store.mark(place, number) {
        return Ok(may_have(leaves, place, number));
    }
    let leaf = leaf_in(alloc, part, pattern, absent, steps)?;
    let kept = KeptLeaf { leaf };
    let may = !kept.is_empty();
    leaves.store.keep(place, number, kept)?;
    Ok(may)
}

// The same in each part of these, whose rows stand at these places: those in which it may have members.
fn meet_needed<'p, L: Ledger>(
    alloc: Global,
    leaves: &mut OpenLeaves,
    parts: &mut [ReadyPart<'p>],
    places: &[usize],
    pattern: &mut AskedPattern<'_>,
    absent: bool,
    number: u32,
    steps: &mut Steps<L>,
) -> Result<List<FoundPart<'p>>, Memory>
    requires leaves { IsOpenLeaves leaves.old }
    requires places { ArePlacesOf (pieces_in leaves.old) places.now parts.old }
    requires number { IsNumberOf leaves.old number pattern.old }
    requires absent { absent ≡ true → HasNoneWritten pattern.old parts.old }
    ensures leaves { IsOpenLeaves leaves.new }
    ensures stays { StaysOpen leaves.old leaves.new }
    ensures same { parts.new ≡ parts.old }
    ensures pattern { pattern.new ≡ pattern.old }
    ensures kept { OnOk result (Meets (IsOneOf (pairs_of leaves.old.store.path pattern.old parts.old))
        (open_map leaves.old) steps.old (open_map leaves.new) steps.new) }
    ensures found { IfOk result (AreFound pattern.old (pieces_in leaves.old) (needed_of pattern.old parts.old)) }
{
    let mut found = List::new(alloc);
    for i in 0..parts.len() {
        let may = meet(
            alloc,
            leaves,
            &mut parts[i],
            places[i],
            pattern,
            absent,
            number,
            steps,
        )?;
        add_found(&parts[i], places[i], may, &mut found)?;
    }
    Ok(found)
}

/// What the pattern has in the file of these parts, whose rows stand at these places. The matcher is called once for each pair that
/// the pattern needs there and that is not kept, but for those where it is known to be absent; each of them counts a step. It is
/// absent only where it has no member in the parts of the file as it is written.
pub fn ask<L: Ledger>(
    alloc: Global,
    leaves: &mut OpenLeaves,
    parts: &mut [ReadyPart<'_>],
    places: &[usize],
    pattern: &Pattern,
    absent: bool,
    steps: &mut Steps<L>,
) -> Result<Leaf, Memory>
    requires leaves { IsOpenLeaves leaves.old }
    requires places { ArePlacesOf (pieces_in leaves.old) places.now parts.old }
    requires absent { absent ≡ true → HasNoneWritten pattern.now parts.old }
    ensures leaves { IsOpenLeaves leaves.new }
    ensures keeps { KeepsPlaces leaves.old leaves.new }
    ensures same { parts.new ≡ parts.old }
    ensures exact { (view : a_view) → ArePartsOf view parts.old → IfOk result (seen_leaf view.lang (known_tree view) pattern.now) }
    ensures placed { (view : a_view) → ArePartsOf view parts.old → IfOk result (IsLeafPlaced view.bytes) }
    ensures kept { OnOk result (Meets (IsOneOf (pairs_of leaves.old.store.path pattern.now parts.old))
        (open_map leaves.old) steps.old (open_map leaves.new) steps.new) }
{
    let key = Rc::new(alloc, PatternKey::of(alloc, pattern)?)?;
    let number = leaves.store.number(key)?;
    let mut asked = AskedPattern::of(pattern);
    let found = meet_needed(
        alloc, leaves, parts, places, &mut asked, absent, number, steps,
    )?;
    let all = leaves_of(alloc, leaves, found.as_slice(), pattern, number)?;
    join(alloc, all.as_slice())
}
