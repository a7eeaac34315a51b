// The book until the end of 2023: five claims, and what was booked on them.
use crate::asking::{opening, payment, reserve};
use crate::step::Step;
use std::alloc::Global;

// What was booked in 2021.
pub fn year_2021(heap: Global) -> anyhow::Result<Vec<Step>> {
    Ok(vec![in heap;
        Step::told(
            "2021. A loss of the year before: no row of the triangles is that old, so it will be beyond.",
            opening(20210105, 20200301, 20201220, 20210104)?,
        ),
        payment(20210202, 1, 20210201, 64_000)?.into(),
        opening(20210521, 20210101, 20210514, 20210520)?.into(),
        Step::told(
            "The handler expects the loss to cost 5,000.00. Incurred rises at once, and paid does not.",
            reserve(20210521, 2, 20210521, 500_000)?,
        ),
        Step::told(
            "A payment, and the reserve is lowered by it: paid rises, and incurred stays.",
            payment(20210803, 2, 20210802, 320_000)?,
        ),
        reserve(20210803, 2, 20210802, -320_000)?.into(),
    ]?)
}

// What was booked in 2022.
pub fn year_2022(heap: Global) -> anyhow::Result<Vec<Step>> {
    Ok(vec![in heap;
        Step::told(
            "2022. A loss of 30 December that is reported in January: row 2021, but column 1.",
            opening(20220112, 20210701, 20211230, 20220111)?,
        ),
        reserve(20220112, 3, 20220112, 1_200_000)?.into(),
        opening(20220906, 20220301, 20220902, 20220905)?.into(),
        reserve(20220906, 4, 20220906, 250_000)?.into(),
        payment(20221115, 4, 20221114, 250_000)?.into(),
        reserve(20221115, 4, 20221114, -250_000)?.into(),
    ]?)
}

// What was booked in 2023.
pub fn year_2023(heap: Global) -> anyhow::Result<Vec<Step>> {
    Ok(vec![in heap;
        Step::told(
            "2023. A payment on claim 3, and a new claim.",
            payment(20230404, 3, 20230403, 750_000)?,
        ),
        reserve(20230404, 3, 20230403, -750_000)?.into(),
        opening(20230620, 20230101, 20230618, 20230619)?.into(),
        reserve(20230620, 5, 20230620, 2_000_000)?.into(),
        payment(20231218, 5, 20231215, 415_000)?.into(),
        Step::told(
            "Claim 2 was settled for less than expected: what is left of its reserve is released.",
            reserve(20231228, 2, 20231228, -180_000)?,
        ),
    ]?)
}
