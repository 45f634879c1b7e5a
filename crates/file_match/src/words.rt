//! The words of a file, and those that a pattern needs: where a needed word stands nowhere in the file, the pattern has no
//! member there.

ghost use Rattle.std.specs.Prelude.{◌≡◌, ◌↔◌, ◌⊎◌, ◌<◌, ◌/◌, ◌%◌, ◌&&◌, ℕ, not, Bool, IsTrue, false, length, IfOk, OnOk};
ghost use Rattle.node_tree.specs.declared.node.Node.{Node as node_value};
ghost use Rattle.node_tree.specs.declared.view.Shape.{Shape as shape_value};
ghost use Rattle.node_tree.specs.Tree.{pre_of, kids_of};
ghost use Rattle.node_tree.specs.Tree.{kind_of};
ghost use Rattle.node_tree.specs.Kinds.{is_literal as literal};
ghost use Rattle.node_match.specs.Kinds.{role_of as role};
ghost use Rattle.node_match.specs.declared.class.Role.TheVariants.{Deep};
ghost use Rattle.node_match.specs.Sets.{Adds};
ghost use Rattle.file_match.specs.Words.{word_of, place_of as place, Needs, PartNeeds, Lacks};
ghost use Rattle.file_match.specs.Words.{PlaceIn, ArePlaces, NeedsOwn, NeedsBelow, NeedsAt};
ghost use Rattle.file_match.specs.Words.{HasRoom, IsMarked, AreMarked, Covers, is_marked as has_mark};

use node_match::{Role, is_free, is_text_free, role_of};
use node_tree::{Kind, List, Memory, Node, Shape};
use std::alloc::Global;
use tree_code::mix;

/// How many places the words of a file have.
pub const ALL_PLACES: u32 = 65536;

// The place of the word of a node.
fn place_of(node: &Node) -> u32
    ensures place { result ≡ place (word_of node.now) }
    ensures within { result < 65536 }
{
    mix(node.kind.place() as u32, node.text.as_str().as_bytes())
}

/// The marked places of the words of a file or a tree: how many places there are, and a bit for each, 64 in a number.
#[derive(Drop)]
pub struct Words {
    pub count: u32,
    pub marks: Vec<u64>,
}

/// The places of words that a pattern needs.
#[derive(Drop)]
pub struct Wanted {
    pub places: List<u32>,
}

// Marks a place.
fn mark(marks: &mut Vec<u64>, at: usize)
    requires { at / 64 < length marks.old.items }
    ensures room { length marks.new.items ≡ length marks.old.items }
    ensures marked { (i : ℕ) → IsMarked marks.new.items i ↔ (IsMarked marks.old.items i ⊎ (at ≡ i)) }
{
    marks[at / 64] |= 1 << (at % 64);
}

/// The words of a tree, by their places among so many.
pub fn words_of(alloc: Global, tree: &Node, count: u32) -> Result<Words, Memory>
    requires { 0 < count }
    ensures count { IfOk result (λ words. words.count ≡ count) }
    ensures exact { IfOk result (λ words. Covers words.count words.marks.items (pre_of tree.now)) }
{
    let mut marks = vec![in alloc; 0u64; (count as usize + 63) / 64]?;
    for node in tree.walk()? {
        mark(&mut marks, (place_of(node) % count) as usize);
    }
    Ok(Words { count, marks })
}

// Adds the places of the words that a pattern node needs.
#[cycle(wanted)]
fn add_wanted(fixed: bool, pattern: &Node, places: &mut List<u32>) -> Result<(), Memory>
    ensures { OnOk result (Adds places.old places.new (PlaceIn (Needs fixed pattern.now))) }
{
    match role_of(pattern.kind) {
        Role::Plain => {
            add_own(fixed, pattern, places)?;
            add_below(fixed, pattern, places)?;
        }
        Role::Deep => add_inside(fixed, pattern, places)?,
        _ => {}
    }
    Ok(())
}

// The same for the parts of a plain pattern. A literal has none that count.
#[cycle(wanted)]
fn add_below(fixed: bool, pattern: &Node, places: &mut List<u32>) -> Result<(), Memory>
    ensures { OnOk result (Adds places.old places.new (PlaceIn (NeedsBelow fixed pattern.now))) }
{
    if pattern.kind.is_literal() {
        return Ok(());
    }
    add_parts(fixed, pattern, places)?;
    Ok(())
}

// Whether a literal of that kind may stand for a name.
fn may_stand(fixed: bool, kind: Kind) -> bool
    ensures { result ≡ (not fixed && literal kind) }
{
    if fixed {
        return false;
    }
    kind.is_literal()
}

// The same for what stands inside a deep pattern.
#[cycle(wanted)]
fn add_inside(fixed: bool, pattern: &Node, places: &mut List<u32>) -> Result<(), Memory>
    requires { role (kind_of pattern.now) ≡ Deep }
    ensures { OnOk result (Adds places.old places.new (PlaceIn (Needs fixed pattern.now))) }
{
    let inner = pattern.kids.as_slice();
    if inner.len() != 1 {
        return Ok(());
    }
    add_wanted(fixed, &inner[0], places)?;
    Ok(())
}

// The same for its own word.
fn add_own(fixed: bool, pattern: &Node, places: &mut List<u32>) -> Result<(), Memory>
    ensures { OnOk result (Adds places.old places.new (PlaceIn (NeedsOwn fixed pattern.now))) }
{
    if is_text_free(pattern) {
        return Ok(());
    }
    if may_stand(fixed, pattern.kind) {
        return Ok(());
    }
    places.push(place_of(pattern))?;
    Ok(())
}

// The same for the parts of a pattern node.
#[cycle(wanted)]
fn add_parts(fixed: bool, pattern: &Node, places: &mut List<u32>) -> Result<(), Memory>
    ensures { OnOk result (Adds places.old places.new (PlaceIn (PartNeeds fixed pattern.now))) }
{
    for at in 0..pattern.kids.len() {
        add_part(fixed, pattern, at, places)?;
    }
    Ok(())
}

// The same for the part at this place.
#[cycle(wanted)]
fn add_part(fixed: bool, pattern: &Node, at: usize, places: &mut List<u32>) -> Result<(), Memory>
    requires { at < length (kids_of pattern.now) }
    ensures { OnOk result (Adds places.old places.new (PlaceIn (NeedsAt fixed pattern.now at))) }
{
    let kid = &pattern.kids.as_slice()[at];
    if is_free(pattern.kind, at, kid) {
        return Ok(());
    }
    add_wanted(fixed, kid, places)?;
    Ok(())
}

/// The places of words that a pattern of that shape needs.
pub fn wanted_of(alloc: Global, fixed: bool, shape: Shape, pattern: &Node) -> Result<Wanted, Memory>
    ensures { IfOk result (λ wanted. ArePlaces fixed shape pattern.now wanted.places) }
{
    let mut places = List::new(alloc);
    match shape {
        Shape::Expr => add_wanted(fixed, pattern, &mut places)?,
        Shape::Run => add_parts(fixed, pattern, &mut places)?,
    }
    Ok(Wanted { places })
}

/// Whether each place is marked. Where one isn't, the tree lacks a word that the pattern needs.
pub fn may_match(words: &Words, wanted: &Wanted) -> bool
    requires { HasRoom words.now.count words.now.marks.items }
    ensures exact { IsTrue result ↔ AreMarked words.now.count words.now.marks.items wanted.now.places }
    ensures lacks { result ≡ false → (fixed : Bool) (shape : shape_value) (pattern tree : node_value) →
        Covers words.now.count words.now.marks.items (pre_of tree) →
        ArePlaces fixed shape pattern wanted.now.places → Lacks fixed shape pattern tree }
{
    for place in wanted.places.as_slice() {
        if !is_marked(words, *place) {
            return false;
        }
    }
    true
}

// Whether the place is marked, by its place among those that there are.
fn is_marked(words: &Words, place: u32) -> bool
    requires { HasRoom words.now.count words.now.marks.items }
    ensures { result ≡ has_mark words.now.marks.items (place % words.now.count) }
{
    let at = (place % words.count) as usize;
    (words.marks[at / 64] >> (at % 64)) & 1 == 1
}
