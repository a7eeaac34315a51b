// Memory on the heap for the two registers.
#![tactic(auto)]

pub mod flat;
pub mod paged;
mod pages;
#[cfg(test)]
mod tests;
