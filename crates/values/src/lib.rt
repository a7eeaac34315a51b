// Days, amounts, claim days and cohorts: the values that every part above is built on.
#![tactic(auto)]

pub mod amount;
pub mod claim_days;
pub mod cohort;
pub mod day;
pub mod fault;
pub mod period;
pub mod place;
