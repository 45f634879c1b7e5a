//! Tests of the stream of a session: rows of bytes and of what is read from them.
#![tactic(auto)]

#[cfg(test)]
mod cuts;
#[cfg(test)]
mod drills;
#[cfg(test)]
mod rows;
#[cfg(test)]
mod show;
