//! Tests of C's tokens, expressions, files and patterns.
#![tactic(auto)]

#[cfg(test)]
mod expressions;
#[cfg(test)]
mod tokens;
#[cfg(test)]
mod units;
