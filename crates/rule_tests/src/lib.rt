//! Tests of how rules are read, of what they find in files, and of the paths on which the data that they follow goes.
#![tactic(auto)]

#[cfg(test)]
mod findings;
#[cfg(test)]
mod rules;
#[cfg(test)]
mod traces;
