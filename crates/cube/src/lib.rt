// The cube: triangles over a register of claim entries.
#![tactic(auto)]

mod brings;
pub mod cube;
pub mod fault;
pub mod figures;
mod known_entries;
pub mod measure;
mod query;
pub mod reading;
pub mod request;
pub mod sheet;
mod tables;
pub mod terms;
pub mod ticket;
