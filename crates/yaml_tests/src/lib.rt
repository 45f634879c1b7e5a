//! Tests of what YAML's lines and values are.
#![tactic(auto)]

#[cfg(test)]
mod lines;
#[cfg(test)]
mod values;
