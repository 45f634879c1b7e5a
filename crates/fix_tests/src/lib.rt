//! Tests of fixes that are chosen and applied, of comments that quiet, and of the lines of reports with traces.
#![tactic(auto)]

#[cfg(test)]
mod fixes;
mod placed;
#[cfg(test)]
mod quieted;
#[cfg(test)]
mod traced;
