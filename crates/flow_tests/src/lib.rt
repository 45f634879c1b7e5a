//! Tests of control-flow graphs, of what their points assign, of known names, of facts that are carried, and of data that is
//! followed.
#![tactic(auto)]

#[cfg(test)]
mod assigned;
#[cfg(test)]
mod carried;
#[cfg(test)]
mod graphs;
#[cfg(test)]
mod known;
#[cfg(test)]
mod source;
#[cfg(test)]
mod tainted;
#[cfg(test)]
mod traces;
