//! Where the sinks and the carries of a rule stand.

ghost use Rattle.std.specs.Prelude.{IfOk};
ghost use Rattle.taint_tables.specs.PlacesOf.{ArePlacesOf};

use crate::carry_index::CarryIndex;
use crate::sets::TaintSets;
use crate::sink_index::SinkIndex;
use node_tree::Memory;
use std::alloc::Global;

/// The sinks and the carries of a rule, found by where they stand. They are the same for all units of a file.
#[derive(Drop)]
pub struct Places {
    pub sinks: SinkIndex,
    pub carries: CarryIndex,
}

impl Places {
    /// Those of these sets.
    pub fn of(alloc: Global, sets: &TaintSets) -> Result<Places, Memory>
        ensures { IfOk result (ArePlacesOf sets.now) }
    {
        let sinks = SinkIndex::of(alloc, sets.sinks.as_slice())?;
        let carries = CarryIndex::of(alloc, sets.carries.as_slice())?;
        Ok(Places { sinks, carries })
    }
}
