//! Tests of the trees of JSON's texts and patterns.
#![tactic(auto)]

#[cfg(test)]
mod checks;
#[cfg(test)]
mod trees;
