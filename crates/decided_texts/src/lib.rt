//! Texts of regular expressions that a builder was asked for, each with its regular expression, or with none where it was refused.
//! They stay decided, so that the builder is asked once for each.
#![tactic(auto)]

mod decided_texts;

pub use decided_texts::DecidedTexts;
