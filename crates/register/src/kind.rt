// What a movement counts as.

// A payment counts as paid and incurred, a change of the case reserve as incurred only.
#[derive(Clone, Copy, PartialEq, Debug)]
pub enum MovementKind {
    Paid,
    Reserved,
}
