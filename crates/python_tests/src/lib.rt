//! Tests of Python's tokens, comments, expressions and statements, in texts and patterns.
#![tactic(auto)]

#[cfg(test)]
mod comments;
#[cfg(test)]
mod expressions;
#[cfg(test)]
mod statements;
#[cfg(test)]
mod tokens;
