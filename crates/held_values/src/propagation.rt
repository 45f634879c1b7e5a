//! The search.

ghost use Rattle.std.specs.Prelude.{◌≡◌, ◌+◌, ◌*◌, ◌<◌, ◌≤◌, ◌^◌, length, IfOk, IsTrue, ◌↔◌, Err};
ghost use Rattle.flow_reach.specs.declared.fault.ReachFault.TheVariants.{TooLarge as too_large};
ghost use Rattle.held_values.specs.Closing.{IsFilled};
ghost use Rattle.held_values.specs.Holding.{Fits};
ghost use Rattle.held_values.specs.Told.{IsHeld};

use crate::assign::Effects;
use crate::held::HeldValues;
use crate::merging::merge_all;
use crate::slots::Slots;
use crate::spread::{enter, raise_at};
use flow_reach::{ReachFault, successors};
use graph_form::Graph;
use node_tree::Memory;
use std::alloc::Global;

// The most points, times names, times values.
const MOST: u128 = 50_000_000;

// Whether there are more than that.
fn is_large(points: usize, names: usize, literals: u32) -> bool
    requires points { points < 2 ^ 32 }
    requires names { names < 2 ^ 32 }
    ensures { IsTrue result ↔ (50000000 < points * names * (literals + 1)) }
{
    points as u128 * names as u128 * (literals as u128 + 1) > MOST
}

/// Which names hold which literals before which points, on every route from the entry. TooLarge where there are more than
/// 50,000,000 points, times names, times literals and the unknown value.
pub fn propagate(alloc: Global, graph: &Graph, effects: &Effects) -> Result<HeldValues, ReachFault>
    requires { Fits graph.now effects.now }
    ensures held { IfOk result (IsHeld graph.now effects.now) }
    ensures small { IfOk result (λ _.
        length graph.now.points * length effects.now.start * (effects.now.literals + 1) ≤ 50000000) }
    ensures large { result ≡ Err too_large →
        50000000 < length graph.now.points * length effects.now.start * (effects.now.literals + 1) }
{
    let points = graph.points.len();
    let names = effects.start.len();
    if is_large(points, names, effects.literals) {
        return Err(ReachFault::TooLarge);
    }
    let values = fill(alloc, graph, effects)?;
    Ok(HeldValues {
        points: points as u32,
        names: names as u32,
        values,
    })
}

// What is known, once all is passed on.
fn fill(alloc: Global, graph: &Graph, effects: &Effects) -> Result<Vec<u32>, Memory>
    requires fits { Fits graph.now effects.now }
    requires small { length graph.now.points * length effects.now.start * (effects.now.literals + 1) ≤ 50000000 }
    ensures { IfOk result (λ values. IsFilled graph.now effects.now values.items) }
{
    let points = graph.points.len();
    let after = successors(alloc, graph)?;
    let merged = merge_all(alloc, effects)?;
    let mut slots = Slots::new(alloc, points * effects.start.len())?;
    let mut places = Vec::new(alloc);
    let mut targets = Vec::new(alloc);
    enter(&mut slots, points, effects.start.as_slice())?;
    while let Some(at) = slots.waiting.pop() {
        let point = at as usize % points;
        let name = at / points as u32;
        let value = slots.values[at as usize];
        merged[point].targets(name, value, &mut places, &mut targets)?;
        raise_at(&mut slots, &after[point], points, &targets)?;
    }
    Ok(slots.values)
}
