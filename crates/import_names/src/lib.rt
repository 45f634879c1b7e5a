//! What imported names stand for in files in Python, and files in which they are replaced by that.
//!
//! After `from os import system as s` the name `s` stands for `os.system`, if no other place of the file assigns it, has it as a
//! parameter or calls it global (`specs/Claims.antt`). So a pattern `os.system($C)` is found in the resolved view of the file
//! (`specs/Resolved.antt`) where the file says `s(x)`.
#![tactic(auto)]

mod alias;
mod claim;
mod dotted;
mod ids;
mod known;
mod meanings;
mod replace;
mod say;
mod view;

pub use view::{resolve, resolved_beside};
