//! The members of each formula of a list.

ghost use Rattle.std.specs.Prelude.{◌≡◌, ◌∷◌, ℕ, All, None, IfOk, IfErr};
ghost use Rattle.tree_match.specs.Leaf.{IsWhole};
ghost use Rattle.tree_match.specs.Placed.{IsPlaced, IsLeafPlaced};
ghost use Rattle.range_algebra.specs.Trees.{tree_of};
ghost use Rattle.range_algebra.specs.Meets.{Meets};
ghost use Rattle.range_algebra.specs.Crowds.{Over, InChild, IsFault};
ghost use Rattle.taint_judge.specs.Lists.{lent, AreEach, OverFormulas};

use node_tree::{FileView, List};
use range_algebra::{EvalFault, MatchSet, eval};
use rule_form::Formula;
use rx_text::Rx;
use std::alloc::Global;
use tree_match::Leaf;

// The members of the formula with that number.
fn members_at(
    alloc: Global,
    view: &FileView,
    number: usize,
    formula: &Formula,
    leaves: &List<Leaf>,
    rx: &mut List<Rx>,
) -> Result<MatchSet, EvalFault>
    requires placed { All (λ leaf. IsLeafPlaced view.now.bytes leaf) leaves.now }
    ensures exact { IfOk result (λ s. IsWhole (Meets leaves.now rx.old view.now.bytes (tree_of formula.now) None) s) }
    ensures few { IfOk result (λ _. Over leaves.now rx.old view.now.bytes (tree_of formula.now) None) }
    ensures crowded { IfErr result (IsFault (InChild number (Over leaves.now rx.old view.now.bytes (tree_of formula.now)))) }
    ensures placed { IfOk result (All (λ m. IsPlaced view.now.bytes m)) }
    ensures same { rx.new ≡ rx.old }
{
    match eval(alloc, view, formula, leaves, rx) {
        Err(EvalFault::Crowded(mut numbers)) => {
            numbers.insert(0, number as u64)?;
            Err(EvalFault::Crowded(numbers))
        }
        Err(EvalFault::Memory) => Err(EvalFault::Memory),
        Ok(members) => Ok(members),
    }
}

/// The members of each of the formulas, in their order.
pub fn members_of_each(
    alloc: Global,
    view: &FileView,
    formulas: &[&Formula],
    leaves: &List<Leaf>,
    rx: &mut List<Rx>,
) -> Result<Vec<MatchSet>, EvalFault>
    requires placed { All (λ leaf. IsLeafPlaced view.now.bytes leaf) leaves.now }
    ensures exact { IfOk result (λ v. AreEach leaves.now rx.old view.now.bytes (lent formulas.now) v.items) }
    ensures few { IfOk result (λ _. OverFormulas leaves.now rx.old view.now.bytes (lent formulas.now) None) }
    ensures crowded { IfErr result (IsFault (OverFormulas leaves.now rx.old view.now.bytes (lent formulas.now))) }
    ensures placed { IfOk result (λ v. All (All (λ m. IsPlaced view.now.bytes m)) v.items) }
    ensures same { rx.new ≡ rx.old }
{
    let mut each = Vec::new(alloc);
    for (number, formula) in formulas.iter().enumerate() {
        each.push(members_at(alloc, view, number, formula, leaves, rx)?)?;
    }
    Ok(each)
}
