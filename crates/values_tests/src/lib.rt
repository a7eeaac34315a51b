// Examples of the values: days, amounts, claim days and cohorts.
#![tactic(auto)]

#[cfg(test)]
mod tests {
    use std::test::Fail;
    use values::amount::Amount;
    use values::claim_days::ClaimDays;
    use values::cohort::{Cohort, LabelledCohort};
    use values::day::Day;
    use values::fault::{CohortFault, ValueFault};
    use values::period::{Anchor, PeriodCohort};
    use values::place::Place;

    // The refusal number for a value, 0 where it is one.
    fn fault_number<T: Drop>(made: Result<T, ValueFault>) -> u32 {
        made.map_or_else(|fault| fault.number(), |_| 0)
    }

    // Numbers on both sides of each bound of the calendar.
    #[test]
    fn days(rt: HostRuntime) {
        let table = [
            (19_000_101, 0),
            (20_000_229, 0),
            (20_240_229, 0),
            (20_210_430, 0),
            (20_211_231, 0),
            (21_991_231, 0),
            (18_991_231, 1),
            (19_000_229, 1),
            (20_230_229, 1),
            (20_240_230, 1),
            (21_000_229, 1),
            (20_210_431, 1),
            (20_211_232, 1),
            (20_210_100, 1),
            (20_210_001, 1),
            (20_211_301, 1),
            (22_000_101, 1),
            (0, 1),
            // the number of a day and 2^32
            (4_314_967_525, 1),
            (18_446_744_073_709_551_615, 1),
        ];
        for (number, fault) in table {
            assert_eq!(rt; fault_number(Day::new(number)), fault, "day {number}");
        }
    }

    // 300 years of 365 days, and a 29 February in every fourth but for 1900 and 2100: 75 less 2.
    #[test]
    fn every_day(rt: HostRuntime) {
        let count = (19_000_000..22_000_001u64)
            .filter(|number| Day::new(*number).is_ok())
            .count();
        assert_eq!(rt; count, 109_573);
        for number in 19_000_000..22_000_001u64 {
            if let Ok(day) = Day::new(number) {
                assert_eq!(rt; u64::from(day.number()), number);
            }
        }
    }

    // Months counted without a break.
    #[test]
    fn month_numbers(rt: HostRuntime) -> Result<(), Fail> {
        let table = [
            (19_000_101, 22_800),
            (20_200_131, 24_240),
            (20_201_201, 24_251),
            (20_210_101, 24_252),
            (21_991_231, 26_399),
        ];
        for (number, month) in table {
            assert_eq!(rt; Day::new(number)?.month_number(), month, "day {number}");
        }
        Ok(())
    }

    // Both sides of each bound of an amount.
    #[test]
    fn amounts(rt: HostRuntime) -> Result<(), Fail> {
        let table = [
            (1, 0),
            (-1, 0),
            (100_000_000_000, 0),
            (-100_000_000_000, 0),
            (0, 2),
            (100_000_000_001, 2),
            (-100_000_000_001, 2),
            (i64::MAX, 2),
            (i64::MIN, 2),
        ];
        for (cents, fault) in table {
            assert_eq!(rt; fault_number(Amount::new(cents)), fault, "amount {cents}");
        }
        assert_eq!(rt; Amount::new(-8_000)?.cents(), -8_000);
        Ok(())
    }

    // A day as year, month and day of the month, and a fault in words.
    #[test]
    fn texts(rt: HostRuntime) -> Result<(), Fail> {
        let heap = rt.alloc();
        let table = [
            (20_210_415, "2021-04-15"),
            (19_000_101, "1900-01-01"),
            (21_991_231, "2199-12-31"),
        ];
        for (number, text) in table {
            assert_eq!(rt; Day::new(number)?.to_string(heap)?.as_str(), text);
        }
        let day = ValueFault::NotADay.to_string(heap)?;
        assert_eq!(rt; day.as_str(), "no day of the calendar from 1900 to 2199");
        let rows = CohortFault::Rows.to_string(heap)?;
        assert_eq!(rt; rows.as_str(), "there are 1 to 40 rows");
        Ok(())
    }

    // Three days, and whether they are in order.
    #[test]
    fn claim_days(rt: HostRuntime) -> Result<(), Fail> {
        let table = [
            (20_210_101, 20_210_415, 20_210_503, true),
            (20_210_415, 20_210_415, 20_210_415, true),
            (20_210_416, 20_210_415, 20_210_503, false),
            (20_210_101, 20_210_504, 20_210_503, false),
        ];
        for (inception, occurrence, report, in_order) in table {
            let days = ClaimDays::new(inception, occurrence, report)?;
            assert_eq!(rt; u64::from(days.inception.number()), inception);
            assert_eq!(rt; u64::from(days.occurrence.number()), occurrence);
            assert_eq!(rt; u64::from(days.report.number()), report);
            assert_eq!(rt; days.in_order(), in_order, "occurrence {occurrence}");
        }
        assert!(rt; ClaimDays::new(20_210_229, 20_210_415, 20_210_503).is_err());
        assert!(rt; ClaimDays::new(20_210_101, 20_210_431, 20_210_503).is_err());
        assert!(rt; ClaimDays::new(20_210_101, 20_210_415, 20_210_532).is_err());
        Ok(())
    }

    // The first setting that is out of range, none where the cohort is made.
    fn cohort_fault(
        months: u32,
        year: u32,
        month: u32,
        rows: u32,
        columns: u32,
    ) -> Option<CohortFault> {
        PeriodCohort::new(Anchor::Report, months, year, month, rows, columns).err()
    }

    // Both sides of each bound of a cohort's settings.
    #[test]
    fn settings(rt: HostRuntime) {
        let table = [
            // period lengths
            (0, 2020, 1, 4, 4, Some(CohortFault::PeriodLength)),
            (1, 2020, 1, 4, 4, None),
            (2, 2020, 1, 4, 4, Some(CohortFault::PeriodLength)),
            (3, 2020, 1, 4, 4, None),
            (4, 2020, 1, 4, 4, Some(CohortFault::PeriodLength)),
            (5, 2020, 1, 4, 4, Some(CohortFault::PeriodLength)),
            (6, 2020, 1, 4, 4, None),
            (7, 2020, 1, 4, 4, Some(CohortFault::PeriodLength)),
            (11, 2020, 1, 4, 4, Some(CohortFault::PeriodLength)),
            (12, 2020, 1, 4, 4, None),
            (13, 2020, 1, 4, 4, Some(CohortFault::PeriodLength)),
            // the base month
            (12, 1899, 12, 4, 4, Some(CohortFault::BaseYear)),
            (12, 1900, 1, 4, 4, None),
            (1, 2199, 10, 1, 1, None),
            (1, 2200, 1, 1, 1, Some(CohortFault::BaseYear)),
            (12, 2020, 0, 4, 4, Some(CohortFault::BaseMonth)),
            (12, 2020, 12, 4, 4, None),
            (12, 2020, 13, 4, 4, Some(CohortFault::BaseMonth)),
            // rows and columns
            (12, 2020, 1, 0, 4, Some(CohortFault::Rows)),
            (12, 2020, 1, 1, 1, None),
            (12, 2020, 1, 40, 40, None),
            (12, 2020, 1, 41, 4, Some(CohortFault::Rows)),
            (12, 2020, 1, 4, 0, Some(CohortFault::Columns)),
            (12, 2020, 1, 4, 41, Some(CohortFault::Columns)),
            // base + months × (rows + columns) is 26,399 in the first of each two, and 26,400 in the second
            (1, 2199, 10, 1, 1, None),
            (1, 2199, 11, 1, 1, Some(CohortFault::Span)),
            (1, 2193, 4, 40, 40, None),
            (1, 2193, 5, 40, 40, Some(CohortFault::Span)),
            (3, 2179, 12, 40, 40, None),
            (3, 2180, 1, 40, 40, Some(CohortFault::Span)),
            (6, 2159, 12, 40, 40, None),
            (6, 2160, 1, 40, 40, Some(CohortFault::Span)),
            (12, 2119, 12, 40, 40, None),
            (12, 2120, 1, 40, 40, Some(CohortFault::Span)),
            (12, 2158, 12, 1, 40, None),
            (12, 2159, 1, 1, 40, Some(CohortFault::Span)),
            (12, 2158, 12, 40, 1, None),
            (12, 2159, 1, 40, 1, Some(CohortFault::Span)),
        ];
        for (months, year, month, rows, columns, fault) in table {
            assert_eq!(rt;
                cohort_fault(months, year, month, rows, columns),
                fault,
                "{months} months from {year} {month}, {rows} by {columns}"
            );
        }
    }

    // The first fault decides, and each has the number 3.
    #[test]
    fn first_faults(rt: HostRuntime) {
        let table = [
            (0, 0, 0, 0, 0, CohortFault::PeriodLength),
            (12, 0, 0, 0, 0, CohortFault::BaseYear),
            (12, 2199, 0, 0, 0, CohortFault::BaseMonth),
            (12, 2199, 1, 0, 0, CohortFault::Rows),
            (12, 2199, 1, 1, 0, CohortFault::Columns),
            (12, 2199, 1, 1, 1, CohortFault::Span),
            (
                12,
                u32::MAX,
                u32::MAX,
                u32::MAX,
                u32::MAX,
                CohortFault::BaseYear,
            ),
        ];
        for (months, year, month, rows, columns, fault) in table {
            assert_eq!(rt;
                cohort_fault(months, year, month, rows, columns),
                Some(fault)
            );
            assert_eq!(rt; fault.number(), 3);
        }
    }

    // Forty quarters by forty from January 2020.
    fn quarters(anchor: Anchor) -> Result<PeriodCohort, Fail> {
        Ok(PeriodCohort::new(anchor, 3, 2020, 1, 40, 40)?)
    }

    // Where a claim whose three days are one puts a further day.
    fn placed(cohort: &PeriodCohort, claim_day: u64, day: u64) -> Result<Place, Fail> {
        let claim_days = ClaimDays::new(claim_day, claim_day, claim_day)?;
        Ok(cohort.place(claim_days, Day::new(day)?))
    }

    // Rows and columns of quarters, and what is beyond them.
    #[test]
    fn places(rt: HostRuntime) -> Result<(), Fail> {
        let cohort = quarters(Anchor::Occurrence)?;
        let table = [
            (20_200_331, 20_200_401, Place::Cell { row: 0, column: 1 }),
            (20_191_231, 20_200_401, Place::Beyond),
            (20_200_101, 20_200_101, Place::Cell { row: 0, column: 0 }),
            // within the row's first quarter, though before the claim
            (20_200_630, 20_200_401, Place::Cell { row: 1, column: 0 }),
            // before the row's first month
            (20_200_401, 20_200_331, Place::Beyond),
            (20_200_101, 20_291_231, Place::Cell { row: 0, column: 39 }),
            (20_200_101, 20_300_101, Place::Beyond),
            (20_291_231, 20_291_231, Place::Cell { row: 39, column: 0 }),
            (20_300_101, 20_300_101, Place::Beyond),
            (
                20_291_001,
                20_390_930,
                Place::Cell {
                    row: 39,
                    column: 39,
                },
            ),
            (20_291_001, 20_391_001, Place::Beyond),
            (19_000_101, 21_991_231, Place::Beyond),
        ];
        for (claim_day, day, place) in table {
            assert_eq!(rt;
                placed(&cohort, claim_day, day)?,
                place,
                "claim {claim_day}, day {day}"
            );
        }
        Ok(())
    }

    // The anchor's day decides the row, and the column counts from that row.
    #[test]
    fn anchors(rt: HostRuntime) -> Result<(), Fail> {
        let claim_days = ClaimDays::new(20_200_115, 20_200_415, 20_200_715)?;
        let day = Day::new(20_201_015)?;
        let table = [
            (Anchor::Inception, Place::Cell { row: 0, column: 3 }),
            (Anchor::Occurrence, Place::Cell { row: 1, column: 2 }),
            (Anchor::Report, Place::Cell { row: 2, column: 1 }),
        ];
        for (anchor, place) in table {
            assert_eq!(rt; quarters(anchor)?.place(claim_days, day), place);
        }
        assert_eq!(rt; Anchor::Inception.day(claim_days).number(), 20_200_115);
        assert_eq!(rt; Anchor::Occurrence.day(claim_days).number(), 20_200_415);
        assert_eq!(rt; Anchor::Report.day(claim_days).number(), 20_200_715);
        Ok(())
    }

    // A year that begins in July, half-years and months.
    #[test]
    fn periods(rt: HostRuntime) -> Result<(), Fail> {
        let table = [
            (
                12,
                7,
                20_210_630,
                20_210_701,
                Place::Cell { row: 0, column: 1 },
            ),
            (
                12,
                7,
                20_210_701,
                20_220_630,
                Place::Cell { row: 1, column: 0 },
            ),
            (12, 7, 20_200_630, 20_200_701, Place::Beyond),
            (
                6,
                4,
                20_200_930,
                20_201_001,
                Place::Cell { row: 0, column: 1 },
            ),
            (6, 4, 20_220_401, 20_220_401, Place::Beyond),
            (
                1,
                1,
                20_200_229,
                20_200_301,
                Place::Cell { row: 1, column: 1 },
            ),
            (
                1,
                1,
                20_200_430,
                20_200_930,
                Place::Cell { row: 3, column: 5 },
            ),
            (1, 1, 20_200_430, 20_201_001, Place::Beyond),
        ];
        for (months, month, claim_day, day, place) in table {
            let cohort = PeriodCohort::new(Anchor::Inception, months, 2020, month, 4, 6)?;
            assert_eq!(rt;
                placed(&cohort, claim_day, day)?,
                place,
                "{months} months, claim {claim_day}, day {day}"
            );
        }
        Ok(())
    }

    // Rows by their first month, and none past the last.
    #[test]
    fn labels(rt: HostRuntime) -> Result<(), Fail> {
        let cohort = quarters(Anchor::Occurrence)?;
        let table = [
            (0, Some(202_001)),
            (1, Some(202_004)),
            (2, Some(202_007)),
            (3, Some(202_010)),
            (4, Some(202_101)),
            (39, Some(202_910)),
            (40, None),
            (u32::MAX, None),
        ];
        for (row, label) in table {
            assert_eq!(rt; cohort.label(row), label, "row {row}");
        }
        let december = PeriodCohort::new(Anchor::Report, 1, 1999, 12, 3, 5)?;
        assert_eq!(rt; december.label(0), Some(199_912));
        assert_eq!(rt; december.label(1), Some(200_001));
        assert_eq!(rt; december.label(3), None);
        assert_eq!(rt; (december.rows(), december.columns()), (3, 5));
        Ok(())
    }
}
