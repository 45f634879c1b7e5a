//! Grammars as data, and one theorem for all of them.
//!
//! A grammar is a table of rules, a row for each line of it. What a table means (`specs/Rule.antt`) says nothing of how it is read.
//! A table that passes a check, which computes (`specs/Check.antt`), has a reader that goes by the token in hand (`specs/Reader.antt`).
//! It gives exactly the closed runs of each level (`proofs/Theorem.antt`): what it gives is one, and each one is what it gives, within
//! the grammar's limits of depth and brackets. A reader that is written by hand is proved equal to it, function by function.
//!
//! This crate has nothing to call. The crate `sums` shows how a language is added, and `docs/GRAMMARS.md` tells the steps.
#![tactic(auto)]
