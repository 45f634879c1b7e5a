//! The sets of a rule, found by where they stand.

ghost use Rattle.std.specs.Prelude.{IfOk};
ghost use Rattle.taint_flow.specs.Traces.{AreTablesOf};

use node_tree::Memory;
use std::alloc::Global;
use taint_form::SpanSet;
use taint_tables::{Places, TaintSets};

/// Where the sanitizers, the sinks and the carries of a rule stand. They are the same for all sources and for all units of a file.
#[derive(Drop)]
pub struct SetTables {
    pub sanitizers: SpanSet,
    pub places: Places,
}

impl SetTables {
    /// Those of these sets.
    pub fn of(alloc: Global, sets: &TaintSets) -> Result<SetTables, Memory>
        ensures { IfOk result (AreTablesOf sets.now) }
    {
        let sanitizers = SpanSet::of(alloc, sets.sanitizers.as_slice())?;
        let places = Places::of(alloc, sets)?;
        Ok(SetTables { sanitizers, places })
    }
}
