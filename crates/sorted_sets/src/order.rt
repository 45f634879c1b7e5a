//! Items in order, each once.

ghost use Rattle.std.specs.Prelude.{◌≡◌, ◌↔◌, IsTrue, IfOk, OnOk};
ghost use Rattle.node_match.specs.Sets.{Among};
ghost use Rattle.sorted_sets.specs.Ends.{EndsWith, IsEndedBy};
ghost use Rattle.tree_match.specs.Ascending.{IsAscending};

use node_tree::Memory;
use std::alloc::Global;
use std::cmp::Ordering;

/// Items that stand in an order.
pub trait Ordered {
    ghost use Rattle.std.specs.declared.cmp.Ordering.{Ordering as outcome};
    ghost use Rattle.std.specs.declared.cmp.Ordering.TheVariants.{Equal as tied};
    ghost use Rattle.std.specs.Cmp.{IsTotalOrder};

    ghost before: { Self → Self → outcome };

    /// Which of two items comes first.
    fn order(&self, other: &Self) -> Ordering
        ensures { result ≡ before self.now other.now };

    ghost total: { IsTotalOrder before };

    ghost apart: { (x y : Self) → before x y ≡ tied → x ≡ y };
}

// Whether the last item is this one.
fn is_last<T: Ordered>(items: &[T], one: &T) -> bool
    ensures { IsTrue result ↔ EndsWith items.now one.now }
{
    if items.is_empty() {
        return false;
    }
    match items[items.len() - 1].order(one) {
        Ordering::Equal => true,
        Ordering::Less => false,
        Ordering::Greater => false,
    }
}

// Adds an item at the end, where it isn't the last one.
fn add_last<T: Ordered + Drop>(items: &mut Vec<T>, one: T) -> Result<(), Memory>
    ensures { OnOk result (IsEndedBy items.old.items items.new.items one) }
{
    if is_last(items.as_slice(), &one) {
        return Ok(());
    }
    items.push(one)?;
    Ok(())
}

/// The items in order, each once.
pub fn settled<T: Ordered + Drop>(alloc: Global, mut items: Vec<T>) -> Result<Vec<T>, Memory>
    ensures ordered { IfOk result (λ v. IsAscending T.before v.items) }
    ensures same { IfOk result (λ v. (x : T) → Among v.items x ↔ Among items.items x) }
{
    items.sort_by(|a, b| b.order(a))?;
    let mut out = Vec::new(alloc);
    while let Some(item) = items.pop() {
        add_last(&mut out, item)?;
    }
    Ok(out)
}
