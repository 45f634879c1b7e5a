//! Values that come to many pairs.

ghost use Rattle.std.specs.Prelude.{◌+◌, ◌*◌, ◌<◌, ◌≤◌, ◌^◌, ℕ, length, OnOk};
ghost use Rattle.graph_form.specs.Sets.{Among};
ghost use Rattle.held_values.specs.declared.targets.Target.{Target as target_of};
ghost use Rattle.held_values.specs.Slots.{Raised, ComesTo, ComesAt, Enters};

use crate::slots::Slots;
use crate::targets::Target;
use node_tree::Memory;

// A value comes to a name, whose pairs begin at a number, at these points.
fn raise_to(slots: &mut Slots, base: usize, points: &[u32], value: u32) -> Result<(), Memory>
    requires few { length slots.old.values.items < 2 ^ 32 }
    requires room { (point : ℕ) → Among points.now point → base + point < length slots.old.values.items }
    requires small { value < 4294967295 }
    ensures { OnOk result (Raised (ComesTo base points.now value) slots.old slots.new) }
{
    for point in points {
        slots.raise(base + *point as usize, value)?;
    }
    Ok(())
}

/// The targets get their values at these points, where a name has so many pairs.
pub fn raise_at(
    slots: &mut Slots,
    points: &[u32],
    width: usize,
    targets: &[Target],
) -> Result<(), Memory>
    requires few { length slots.old.values.items < 2 ^ 32 }
    requires inside { (target : target_of) → Among targets.now target → target.name * width < 2 ^ 64 }
    requires room { (target : target_of) (point : ℕ) → Among targets.now target → Among points.now point →
        target.name * width + point < length slots.old.values.items }
    requires small { (target : target_of) → Among targets.now target → target.value < 4294967295 }
    ensures { OnOk result (Raised (ComesAt points.now width targets.now) slots.old slots.new) }
{
    for target in targets {
        raise_to(slots, target.name as usize * width, points, target.value)?;
    }
    Ok(())
}

/// The names, which have so many pairs each, get these values at their first ones.
pub fn enter(slots: &mut Slots, width: usize, start: &[u32]) -> Result<(), Memory>
    requires few { length slots.old.values.items < 2 ^ 32 }
    requires some { 0 < width }
    requires room { width * length start.now ≤ length slots.old.values.items }
    requires small { (value : ℕ) → Among start.now value → value < 4294967295 }
    ensures { OnOk result (Raised (Enters start.now width (length start.now)) slots.old slots.new) }
{
    for (name, value) in start.iter().enumerate() {
        slots.raise(name * width, *value)?;
    }
    Ok(())
}
