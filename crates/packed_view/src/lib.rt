//! Files as they were opened, in little memory: each tree is kept as bytes, and each text is shared with its other owners.
//!
//! A tree takes far more memory than its text. Who keeps many files, and looks at few of them again, keeps them so.
#![tactic(auto)]

mod opened;
mod view;

pub use opened::PackedOpened;
