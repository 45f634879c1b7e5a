//! The expressions, types and declarators of C: from tokens to trees.
//!
//! The grammar is a table for the crate `grammar` (`specs/Table.antt`), a row for each line of it. [`read_c`] gives exactly the
//! tree of the closed run of a level from a token on. Patterns are read by the same table over some more words.
#![tactic(auto)]

mod classify;
mod declarators;
mod initializers;
mod laws;
mod limits;
mod lists;
mod look;
mod make;
mod members;
mod operators;
mod part;
mod primaries;
mod read;
mod settle;
mod types;
mod word;

pub use classify::classified;
pub use laws::levels_are_lines;
pub use limits::shallow_end;
pub use lists::{Listed, list};
pub use look::{is, is_among, span_at, start_at, text_at};
pub use make::{absent, graft_one, graft_two, id, leaf, or_absent, over, over_one, over_two};
pub use part::Part;
pub use read::{CLevel, read_c, read_level};
pub use settle::{NAMES, SPEC_WORDS, behind_stars};
pub use word::{Token, Word};
