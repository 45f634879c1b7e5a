//! The words that a run is given, without the program's name.
//!
//! - `match LANG PATTERN`, where LANG is `json`, `python` or `c`;
//! - `check json`;
//! - `scan [--error] [--max N] [--trace] [--store FILE] --config PATH PREFIX`;
//! - `fix [--dryrun] [--max N] [--trace] --config PATH PREFIX`;
//! - `session [--max N] [--trace]`;
//! - `drill N`, with a number from 1 to 10,000.
//!
//! Options come after the command in any order, each at most once, before PREFIX, which is last. The word after an option that has
//! a value is that value, and the last word of `scan` and `fix` is PREFIX, whatever they begin with. Numbers are decimal without
//! leading zeros; that of `--max` goes from 0 to 50,000. PATH and FILE are paths, and not the same one; PREFIX is a path or `.`.
//! There are no other spellings. Nothing here takes memory. `specs/Commands.antt` is this table, `specs/Options.antt` that of the
//! options.
#![tactic(auto)]

mod command;
mod job;
mod numbers;
mod options;
mod plain;
mod words;

pub use command::{Command, Job};
pub use numbers::number;
pub use words::read_words;
