//! From tokens to trees: a function for each level of the grammar, by the token in hand.

mod arguments;
mod displays;
mod lists;
mod operators;
mod primaries;

pub use arguments::{args, params};
pub use lists::{exprs, star, target, targs, yields};
pub use operators::{awaited, binary, cmp, named, not, power, test, unary};
pub use primaries::{atom, prim};
