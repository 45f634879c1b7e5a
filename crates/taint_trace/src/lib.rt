//! Traces: the shortest paths on which the sources of findings get to their sinks.
#![tactic(auto)]

mod least;
mod lookup;
mod places;
mod sets;
mod standing;
mod tracer;
mod tracing;

pub use sets::TraceSets;
pub use tracer::Tracer;
pub use tracing::trace_of;
