// What a triangle measures.

// Paid amounts, incurred amounts (paid and case reserves), and the number of claims.
#[derive(Clone, Copy, PartialEq, Debug)]
pub enum Measure {
    Paid,
    Incurred,
    Count,
}
