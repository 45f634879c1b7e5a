//! Tests of bindings, paths, command lines and regular expressions.
#![tactic(auto)]

#[cfg(test)]
mod bounds;
#[cfg(test)]
mod paths;
#[cfg(test)]
mod searches;
#[cfg(test)]
mod words;
