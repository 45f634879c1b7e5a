//! Rules as they are read: the formulas over patterns, the conditions on metavariables, and what goes with a finding.
#![tactic(auto)]

mod boxed;
mod comparison;
mod formula;
mod rule;
mod same;

pub use boxed::Boxed;
pub use comparison::{Amount, ArithOp, CompareOp, Comparison};
pub use formula::{Child, Formula};
pub use rule::{Body, Part, Propagator, Rule, Severity, TaintRule};
pub use same::{Same, same_all};
