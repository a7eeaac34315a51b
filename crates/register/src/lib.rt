// The register of claim entries: what it means, and two implementations of it.
#![tactic(auto)]

mod adding;
pub mod bounded;
pub mod cards;
pub mod entries;
pub mod entry;
pub mod fault;
pub mod figures;
pub mod flat;
pub mod kind;
pub mod limits;
pub mod numbered;
pub mod paged;
pub mod register;
