// What the programs make large books of claims from, the same in every run.
#![tactic(auto)]

pub mod arguments;
pub mod busiest;
pub mod happening;
pub mod leftover;
pub mod random;
pub mod samples;
pub mod size;
