//! When a pattern matches a node, and what can be told of that without a search: which part a node of a pattern plays, in
//! which order it asks for kids, what names are known to hold, and a look that refuses.
#![tactic(auto)]

mod asked;
mod class;
mod constants;
mod free;
mod known;
mod named;
mod order;
mod refusal;

pub use asked::{chooses, has_dots, has_names, is_arguments, is_named, order_of};
pub use class::{Role, is_alike, is_one, is_string, is_wild, role_of};
pub use constants::Constants;
pub use free::{is_free, is_text_free, part_at};
pub use known::{holds_same, holds_string};
pub use named::kids_that;
pub use order::Order;
pub use refusal::{LOOK, are_kids_refused, is_front_refused, is_kid_refused};
