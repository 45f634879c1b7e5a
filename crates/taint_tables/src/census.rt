//! The names and the sources of a unit.

use node_tree::Span;
use taint_form::Table;

/// The names of a unit, and those of the sources that it has.
#[derive(Drop)]
pub struct Census<'t> {
    pub names: Table<&'t str>,
    pub sources: Table<Span>,
}
