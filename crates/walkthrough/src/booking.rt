// Adding a payment to a triangle at the place that a cohort gives it.
ghost use Rattle.std.specs.Prelude.{◌≡◌, pos, slice_index_or};
ghost use Rattle.walkthrough.specs.Bookings.{payment_place};
ghost use Rattle.walkthrough.specs.Shapes.{cell_index};
ghost use Rattle.walkthrough.specs.Triangles.{added_at};

use crate::payment::Payment;
use crate::triangle::Triangle;
use values::cohort::Cohort;
use values::place::Place;

// Where a payment went, and what the cell there then holds.
#[derive(Clone, Copy)]
pub struct Booked {
    pub place: Place,
    pub sum: i64,
}

// Adds the payment at its place, and tells where that is and what the cell there then holds.
pub fn book<C: Cohort>(triangle: &mut Triangle, cohort: &C, payment: Payment) -> Booked
    ensures shape { triangle.new.shape ≡ triangle.old.shape }
    ensures place { result.place ≡ payment_place (C.Cohort.meaning cohort.now) payment }
    ensures cells { triangle.new.cells.items ≡ added_at triangle.old.cells.items (cell_index triangle.old.shape (payment_place (C.Cohort.meaning cohort.now) payment)) payment.amount.cents }
    ensures sum { result.sum ≡ slice_index_or triangle.new.cells.items (cell_index triangle.old.shape result.place) (pos 0) }
{
    let place = cohort.place(payment.claim_days, payment.day);
    let sum = triangle.add(place, payment.amount);
    Booked { place, sum }
}
