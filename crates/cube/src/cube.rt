// A cube.
mod booking;
mod calls;
mod checks;
mod drafts;
mod query;
mod run;

// A register and a cohort, the mark that its tickets carry, and the entry under the open draft, if there is one. The sheet is
// lent to each call that books.
// It has no model: its state holds the cohort's placing, a function, and the value of a model is data.
// Its ledger and its desk hold that state, so clauses spell them out for the same reason, as `ledger_of` and `desk_of`.
#[derive(Drop)]
pub struct Cube<R, C> {
    register: R,
    cohort: C,
    mark: u32,
    draft: Option<u32>,
}
