//! From a text in C to its tokens, and to its comments.
#![tactic(auto)]

mod comment;
mod keyword;
mod lex;
mod progress;
mod table;
mod token;

pub use comment::comments;
pub use lex::c_tokens;
pub use token::{CToken, CWord};
