//! Tests of the top call, with an input, an output and files in memory.
#![tactic(auto)]

#[cfg(test)]
mod checks;
#[cfg(test)]
mod drills;
#[cfg(test)]
mod fixes;
#[cfg(test)]
mod matches;
#[cfg(test)]
mod runs;
#[cfg(test)]
mod scans;
#[cfg(test)]
mod sessions;
#[cfg(test)]
mod traces;
