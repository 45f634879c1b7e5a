//! Python's expressions: from tokens to trees.
//!
//! The grammar is a table for the crate `grammar` (`specs/Table.antt`), a row for each line of it. [`read_py`] gives exactly
//! the tree of the closed run of a level from a token on. Patterns are read by the same table over some more words.
#![tactic(auto)]

mod build;
mod inside;
mod item;
mod level;
mod limits;
mod look;
mod read;
mod run;
mod strings;
mod word;

pub use build::{absent, empty_list, ident, leaf, node_of, one, over, text_at, three, two};
pub use inside::items;
pub use item::Item;
pub use level::PyLevel;
pub use limits::{is_shallow, shallow_end};
pub use look::{
    end_before, is, is_comma, is_dots, is_name, start_at, starts_arg, starts_param, starts_star,
    starts_test, word_at,
};
pub use run::{read_level, read_py};
pub use word::Word;
