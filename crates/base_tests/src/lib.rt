//! Tests of trees and their parts, of the fakes in memory, of automata and of the example language of sums.
#![tactic(auto)]

#[cfg(test)]
mod fakes;
#[cfg(test)]
mod readings;
#[cfg(test)]
mod spellings;
#[cfg(test)]
mod trees;
