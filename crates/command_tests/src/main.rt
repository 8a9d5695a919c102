//! Tests of the commands of `osi_tool`: whole runs, from words and files to an output. Each module
//! says where its rows come from. This crate is a program that does nothing, and no library: for a
//! library the gate would make checksums along every path down from `osi_commands`
//! (`docs/PERFORMANCE.md`).
#![tactic(auto)]

#[cfg(test)]
mod associations;
#[cfg(test)]
mod checks;
#[cfg(test)]
mod runs;
#[cfg(test)]
mod traces;
#[cfg(test)]
mod whole_runs;
#[cfg(test)]
mod worked_runs;

fn main() {}
