//! What the keys of a rule hold, but for its formulas: names, texts, languages, paths and options, and what is wrong with
//! a value.
//!
//! Nothing here reads a pattern, so nothing here needs a language.
#![tactic(auto)]

pub mod extra;
mod fault;
pub mod focus;
pub mod head;
pub mod key;
pub mod mode;
mod name;
pub mod stop;
pub mod texts;
pub mod value;

pub use fault::RuleFaultKind;
