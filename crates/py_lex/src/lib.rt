//! From a text in Python to its tokens.
#![tactic(auto)]

mod class;
mod columns;
mod comment;
mod inside;
mod keyword;
mod layout;
mod lex;
mod parts;
mod table;
mod token;

pub use comment::comments;
pub use lex::tokens;
pub use token::{FPart, PyToken, PyWord};
