//! Tests of the patterns that texts write, of where they match in files with known names, and of the comparisons that
//! conditions make.
#![tactic(auto)]

#[cfg(test)]
mod comparisons;
#[cfg(test)]
mod patterns;
#[cfg(test)]
mod views;
