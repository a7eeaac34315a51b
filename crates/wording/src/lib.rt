// The words that the programs share: sums of money and claim days.
#![tactic(auto)]

pub mod days;
pub mod money;
#[cfg(test)]
mod tests;
