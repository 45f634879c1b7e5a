//! The bytes of trees, and of what patterns have in them, for files that are kept between runs.
//!
//! Values are read from the front of some bytes, and added at the end of some. Bytes are bad input until they are read: whatever
//! they hold, reading takes no more than about five times their memory.
#![tactic(auto)]

mod bound;
mod fault;
mod front;
mod head;
mod member;
mod node;
mod written;

pub use fault::FormFault;
pub use front::Front;
pub use head::Head;
pub use node::MOST_LEVELS;
pub use written::{add_length, add_members, add_node, add_number};
