//! Tests of the file in which leaves are kept between runs.
#![tactic(auto)]

pub mod again;
#[cfg(test)]
mod texts;
