// Where in a book the busiest claims are.

// The tenth of the claims opened so far that every second entry falls to.
#[derive(Clone, Copy, PartialEq, Eq, Debug)]
pub enum Busiest {
    First,
    Last,
}
