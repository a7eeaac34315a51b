// The first quarter of 2024, and what is asked at its end.
use crate::asking::{opening, payment, post, query, redating, reserve, void};
use crate::step::Step;
use cube::request::Request;
use std::alloc::Global;

// What is asked in January.
pub fn january(heap: Global) -> anyhow::Result<Vec<Step>> {
    Ok(vec![in heap;
        Step::told(
            "January. A loss of 30 December is reported on 8 January. At the year's end nobody knew of it.",
            opening(20240109, 20231101, 20231230, 20240108)?,
        ),
        reserve(20240109, 6, 20240109, 600_000)?.into(),
        Step::told(
            "A loss of 3 January, but the policy began on the 5th. There was no cover on that day.",
            opening(20240110, 20240105, 20240103, 20240110)?,
        ),
        Step::told(
            "A payment on claim 5, and its reserve is lowered by it.",
            payment(20240116, 5, 20240115, 535_000)?,
        ),
        reserve(20240116, 5, 20240115, -535_000)?.into(),
        Step::told(
            "A payment of 29 December turns up, and the clerk gives that day as the booking day too.",
            payment(20231229, 3, 20231229, 120_000)?,
        ),
        Step::told(
            "So it is booked on the day on which the book learns of it. It took effect in December.",
            payment(20240117, 3, 20231229, 120_000)?,
        ),
        reserve(20240117, 3, 20231229, -120_000)?.into(),
    ]?)
}

// What is asked in February: corrections.
pub fn february(heap: Global) -> anyhow::Result<Vec<Step>> {
    Ok(vec![in heap;
        Step::told(
            "February. Entry 17 says 4,150.00; the bank says 1,450.00. A correction is drafted.",
            Request::Draft { number: 17 },
        ),
        Step::told(
            "A colleague sees the same mistake and wants to void entry 17, which is under the draft.",
            void(20240205, 17)?,
        ),
        Step::told(
            "Another wants to correct entry 13. There is one draft at a time.",
            Request::Draft { number: 13 },
        ),
        Step::told(
            "The correction is posted with a slip in the day: claim 5 was reported only on 19 June.",
            post(0, 20240206, 20230601, 145_000)?,
        ),
        Step::told(
            "The refused post left its ticket in the drawer. It is posted again, with the right day.",
            post(0, 20240206, 20231215, 145_000)?,
        ),
        Step::told(
            "The clerk posts once more. The ticket is spent, and the drawer is empty.",
            post(0, 20240206, 20231215, 145_000)?,
        ),
        Step::told(
            "Now entry 13 can be drafted ..",
            Request::Draft { number: 13 },
        ),
        Step::told(
            ".. but the invoice turns out to be right, and the draft is dropped. Nothing is booked.",
            Request::Drop { place: 0 },
        ),
    ]?)
}

// What is asked in March.
pub fn march(heap: Global) -> anyhow::Result<Vec<Step>> {
    Ok(vec![in heap;
        Step::told(
            "March. A payment on claim 6 ..",
            payment(20240305, 6, 20240304, 90_000)?,
        ),
        Step::told(
            ".. is booked a second time by mistake ..",
            payment(20240305, 6, 20240304, 90_000)?,
        ),
        Step::told(".. and the second one is voided.", void(20240306, 27)?),
        Step::told(
            "Somebody voids it again. It does not stand any more.",
            void(20240306, 27)?,
        ),
        Step::told(
            "Claim 6: the loss occurred on 2 January. Its figures move from row 2023 to row 2024.",
            redating(20240312, 6, 20231101, 20240102, 20240108)?,
        ),
        Step::told(
            "Claim 5 is to have a later report day. Some of its movements would come before the report.",
            redating(20240314, 5, 20230101, 20230618, 20240120)?,
        ),
        Step::told(
            "A payment with a wrong claim number.",
            payment(20240318, 9, 20240315, 30_000)?,
        ),
        Step::told(
            "A last draft. It is still open when the quarter ends.",
            Request::Draft { number: 5 },
        ),
    ]?)
}

// What is asked at the end of March.
pub fn queries(heap: Global) -> anyhow::Result<Vec<Step>> {
    Ok(vec![in heap;
        Step::told(
            "The triangles as they are known today.",
            query(20240331, 20240331)?,
        ),
        Step::told(
            "The triangles as they were known at the end of last year.",
            query(20231231, 20231231)?,
        ),
        Step::told(
            "The end of last year, with what is known today.",
            query(20240331, 20231231)?,
        ),
    ]?)
}
