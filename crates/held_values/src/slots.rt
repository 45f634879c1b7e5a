//! What is known of each pair of a point and a name.

ghost use Rattle.std.specs.Prelude.{◌≡◌, ◌<◌, ◌≤◌, ◌^◌, ℕ, length, IfOk, OnOk};
ghost use Rattle.held_values.specs.Slots.{Joins, IsNew, Raised};

use node_tree::Memory;
use std::alloc::Global;

/// A pair to which no value came yet.
pub const UNSEEN: u32 = u32::MAX;

/// For each pair the one value that came to it, 0 where it is unknown or several came, or UNSEEN, and the pairs whose value
/// wasn't passed on since it changed.
#[derive(Drop)]
pub struct Slots {
    pub values: Vec<u32>,
    pub waiting: Vec<u32>,
}

// What is known where one value more came.
fn joined(old: u32, value: u32) -> u32
    requires { value < 4294967295 }
    ensures { Joins old value result }
{
    if old == UNSEEN {
        return value;
    }
    if old == value {
        return value;
    }
    0
}

impl Slots {
    /// So many pairs to which no value came.
    pub fn new(alloc: Global, pairs: usize) -> Result<Slots, Memory>
        ensures { IfOk result (IsNew pairs) }
    {
        Ok(Slots {
            values: Vec::from_elem(alloc, UNSEEN, pairs)?,
            waiting: Vec::new(alloc),
        })
    }

    /// A value comes to a pair, which waits where that changes what is known.
    pub fn raise(&mut self, at: usize, value: u32) -> Result<(), Memory>
        requires room { at < length self.old.values.items }
        requires few { length self.old.values.items < 2 ^ 32 }
        requires small { value < 4294967295 }
        ensures { OnOk result (Raised (λ k v. (k ≡ at) × (v ≡ value)) self.old self.new) }
    {
        let old = self.values[at];
        let new = joined(old, value);
        if new == old {
            return Ok(());
        }
        self.values[at] = new;
        self.waiting.push(at as u32)?;
        Ok(())
    }
}
