//! The set of a formula.

ghost use Rattle.std.specs.Prelude.{◌≡◌, ℕ, All, None, IfOk, IfErr};
ghost use Rattle.tree_match.specs.Leaf.{IsWhole};
ghost use Rattle.std.specs.Str.{IsUtf8};
ghost use Rattle.node_tree.specs.Span.{LiesIn};
ghost use Rattle.tree_match.specs.Placed.{IsPlaced, IsLeafPlaced};
ghost use Rattle.range_algebra.specs.Regexes.{matches_of};
ghost use Rattle.range_algebra.specs.Trees.{tree_of};
ghost use Rattle.range_algebra.specs.Meets.{Meets};
ghost use Rattle.range_algebra.specs.Crowds.{Over, IsFault};

use crate::evaluate::members_of;
use crate::scene::Scene;
use crate::set::MatchSet;
use member_join::EvalFault;
use node_tree::{FileView, List, Memory};
use rule_form::Formula;
use rx_text::Rx;
use sorted_sets::Member;
use std::alloc::Global;
use tree_match::Leaf;

// The members with bindings of their own.
fn keep_all<'t>(alloc: Global, members: &[Member<'t>]) -> Result<MatchSet, Memory>
    ensures { IfOk result (λ s. s ≡ members.now) }
{
    let mut kept = List::new(alloc);
    for (range, trail) in members {
        kept.push((*range, trail.keep()?))?;
    }
    Ok(MatchSet::of(kept))
}

// The matches of all the regular expressions cut no character of the text.
fn matches_lie(rx: &List<Rx>, text: &[u8])
    requires { ∥ IsUtf8 text.now ∥₁ }
    ensures { (k : ℕ) → All (LiesIn text.now) (matches_of rx.now text.now k) }
{
    for one in rx.as_slice() {
        one.keeps_characters(text);
    }
}

/// The members of the formula in the file, where `leaves` has the members of its patterns by number and `rx` its regular
/// expressions; one past the end of a list has none. The members of `leaves` stand at places that cut no character of the file, and
/// so do those of the formula.
///
/// `All` takes one member of each of its operands, all bindings agreeing. The ranges' intersection is the range, and must be
/// the range of a plain operand. A name has the place that the plain operands bind it to, and of several the one that begins
/// later. What `Not` and `NotInside` match is taken away, and what shares a byte with a match of `NotRegex`; conditions must
/// hold, and the ranges in focus stand in place of the whole.
///
/// Crowded names the first set with more than 10,000 members: of each formula its children's, then the prefixes of its
/// operands (the plain ones first), then its own.
pub fn eval(
    alloc: Global,
    view: &FileView,
    formula: &Formula,
    leaves: &List<Leaf>,
    rx: &mut List<Rx>,
) -> Result<MatchSet, EvalFault>
    requires placed { All (λ leaf. IsLeafPlaced view.now.bytes leaf) leaves.now }
    ensures exact { IfOk result (λ s. IsWhole (Meets leaves.now rx.old view.now.bytes (tree_of formula.now) None) s) }
    ensures few { IfOk result (λ _. Over leaves.now rx.old view.now.bytes (tree_of formula.now) None) }
    ensures crowded { IfErr result (IsFault (Over leaves.now rx.old view.now.bytes (tree_of formula.now))) }
    ensures placed { IfOk result (All (λ m. IsPlaced view.now.bytes m)) }
    ensures same { rx.new ≡ rx.old }
{
    matches_lie(rx, view.bytes.as_slice());
    match members_of(alloc, Scene { view, leaves, rx }, formula) {
        Ok(members) => Ok(keep_all(alloc, members.as_slice())?),
        Err(EvalFault::Memory) => Err(EvalFault::Memory),
        Err(EvalFault::Crowded(mut numbers)) => {
            numbers.reverse();
            Err(EvalFault::Crowded(numbers))
        }
    }
}
