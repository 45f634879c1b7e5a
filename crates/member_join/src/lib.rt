//! The join of sets of members: one member of each operand, where all bindings agree.
#![tactic(auto)]

mod block;
mod choice;
mod fault;
mod join;
mod limit;
mod operand;
mod range;
mod state;

pub use choice::met_members;
pub use fault::EvalFault;
pub use limit::{crowded, gathered, limited, thinned};
pub use operand::{Operand, Role};
pub use range::{is_equal, lies_in, shares_byte};
