//! The session of a stream: reads its commands one after the other, does each on a workspace, and prints what it comes to.
#![tactic(auto)]

mod doing;
mod fault;
mod printing;
mod reply;
mod serving;

pub use doing::play;
pub use fault::{PlayFault, PrintFault};
pub use printing::print;
pub use reply::Reply;
pub use serving::serve;
pub use workspace::{FixFault, Workspace};
