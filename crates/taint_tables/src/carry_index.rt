//! Carries that are found by where they begin.

ghost use Rattle.std.specs.Prelude.{◌≡◌, ◌↔◌, ◌≤◌, ◌<◌, ℕ, [], IsTrue, length, slice_get, Some, IfOk};
ghost use Rattle.graph_form.specs.Sets.{Among};
ghost use Rattle.taint_tables.specs.declared.sets.Carry.{Carry as a_carry};
ghost use Rattle.taint_tables.specs.Carries.{AreInOrder};

use crate::sets::Carry;
use node_tree::Memory;
use std::alloc::Global;
use std::marker::Model;

/// Carries in the order in which their ranges begin. Contracts see the carries.
#[derive(Drop)]
pub struct CarryIndex {
    carries: Vec<Carry>,
}

impl Model for CarryIndex {
    ghost use Rattle.std.specs.Prelude.{List};
    ghost use Rattle.std.specs.Coded.{coded_list};
    ghost use Rattle.taint_tables.specs.declared.sets.Carry.{Carry as a_carry};
    ghost use Rattle.taint_tables.specs.contracts.sets.Carry as carry_row;
    ghost use Rattle.taint_tables.specs.Carries.{AreInOrder};

    ghost Value = { List a_carry };

    ghost coded = { coded_list carry_row.the_row.coded };

    ghost view = { λ t. t.carries.items };

    ghost invariant = { λ t. AreInOrder t.carries.items };
}

// How many carries begin before that place.
fn count_before(carries: &[Carry], from: u32) -> usize
    requires { AreInOrder carries.now }
    ensures within { result ≤ length carries.now }
    ensures parts { (k : ℕ) (c : a_carry) → slice_get carries.now k ≡ Some c →
        (k < result) ↔ (c.range.from < from) }
{
    carries.partition_point(|carry| carry.range.from < from)
}

// How many carries begin there or before.
fn count_through(carries: &[Carry], from: u32) -> usize
    requires { AreInOrder carries.now }
    ensures within { result ≤ length carries.now }
    ensures parts { (k : ℕ) (c : a_carry) → slice_get carries.now k ≡ Some c →
        (k < result) ↔ (c.range.from ≤ from) }
{
    carries.partition_point(|carry| carry.range.from <= from)
}

impl CarryIndex {
    /// Whether there are none.
    pub fn is_empty(&self) -> bool
        ensures { IsTrue result → self.now ≡ [] }
    {
        self.carries.len() == 0
    }

    /// An index of these carries.
    pub fn of(alloc: Global, carries: &[Carry]) -> Result<CarryIndex, Memory>
        ensures { IfOk result (λ index. (c : a_carry) → Among index c ↔ Among carries.now c) }
    {
        let mut sorted = Vec::new(alloc);
        sorted.extend_from_slice(carries)?;
        sorted.sort_by_key(|carry| carry.range.from)?;
        Ok(CarryIndex { carries: sorted })
    }

    /// The carries whose ranges begin there.
    pub fn beginning(&self, from: u32) -> &[Carry]
        ensures { (c : a_carry) → Among result.now c ↔ (Among self.now c × (c.range.from ≡ from)) }
    {
        let start = count_before(&self.carries, from);
        let end = count_through(&self.carries, from);
        &self.carries[start..end]
    }
}
