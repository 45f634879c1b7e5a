//! Tests of files that are matched piece by piece, and seen through their imports.
#![tactic(auto)]

#[cfg(test)]
mod scans;
