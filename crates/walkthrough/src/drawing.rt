// A triangle that is drawn step by step.
use crate::triangle::Triangle;

// What each step needs: where it prints, the cohort that places the payments, and the triangle so far.
#[derive(Drop)]
pub struct Drawing<'a, C> {
    pub rt: &'a HostRuntime,
    pub cohort: &'a C,
    pub triangle: Triangle,
}
