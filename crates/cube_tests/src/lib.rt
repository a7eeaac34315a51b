// Examples of the calls on a cube, on both registers.
#![tactic(auto)]

#[cfg(test)]
mod tests {
    use cube::cube::Cube;
    use cube::fault::CallFault;
    use cube::request::{Answer, Request};
    use cube::ticket::Ticket;
    use register::cards::{ClaimCard, PageCard};
    use register::entries::{all_entries, claim_entries};
    use register::entry::{Content, Entry, Terms, Void};
    use register::flat::FlatLog;
    use register::kind::MovementKind;
    use register::numbered::NumberedEntry;
    use register::paged::PagedRegister;
    use register::register::Register;
    use std::alloc::Global;
    use std::process::Abort;
    use std::test::Fail;
    use values::amount::Amount;
    use values::claim_days::ClaimDays;
    use values::day::Day;
    use values::period::{Anchor, PeriodCohort};

    // The refusal number of an answer, 0 where it was accepted.
    fn fault_of<T: Drop>(answer: Result<T, CallFault>) -> u32 {
        answer.map_or_else(|fault| fault.number(), |_| 0)
    }

    // The refusal number of a draft that should be refused; its ticket, if it has one, is dropped.
    fn draft_fault<R: Register>(cube: &mut Cube<R, PeriodCohort>, number: u32) -> u32 {
        match cube.draft(number) {
            Ok(ticket) => fault_of(cube.drop_draft(ticket)),
            Err(fault) => fault.number(),
        }
    }

    // Posts a correction, and tells the entry's number, or the refusal with 100 added, the ticket then being dropped.
    fn post<R: Register>(
        cube: &mut Cube<R, PeriodCohort>,
        sheet: &mut [i64],
        ticket: Ticket,
        booked: Day,
        terms: Terms,
    ) -> u32 {
        match cube.post(sheet, ticket, booked, terms) {
            Ok(number) => number,
            Err((ticket, fault)) => {
                let _ = cube.drop_draft(ticket);
                fault.number().saturating_add(100)
            }
        }
    }

    // Years from 2020, three by three, by occurrence.
    fn years() -> Result<PeriodCohort, Fail> {
        Ok(PeriodCohort::new(Anchor::Occurrence, 12, 2020, 1, 3, 3)?)
    }

    // Books a year of one claim, and looks at the cells after each step: paid is at row × 3 + column, incurred 10 cells and the
    // count 20 cells further on.
    fn book<R: Register + Drop>(rt: &impl Abort, register: R) -> Result<(), Fail> {
        let mut cube = Cube::new(register, years()?);
        let mut sheet = [7i64; 30];
        assert_eq!(rt; fault_of(cube.start(&mut sheet[0..29], 5)), 4);
        assert_eq!(rt; fault_of(cube.start(&mut sheet, 5)), 0);
        assert_eq!(rt; sheet[9], 0);
        let claim_days = ClaimDays::new(20_210_101, 20_210_415, 20_210_503)?;
        let opened = Day::new(20_210_510)?;
        assert_eq!(rt;
            fault_of(cube.open(&mut sheet, Day::new(20_210_502)?, claim_days)),
            11
        );
        assert_eq!(rt; fault_of(cube.open(&mut sheet, opened, claim_days)), 0);
        assert_eq!(rt; sheet[23], 1);
        let paid = Day::new(20_220_201)?;
        let booked = Day::new(20_220_203)?;
        let kind = MovementKind::Paid;
        let amount = Amount::new(20_000)?;
        let late = Terms {
            effective: paid,
            amount,
        };
        let early = Terms {
            effective: opened,
            amount,
        };
        assert_eq!(rt;
            fault_of(cube.movement(&mut sheet, kind, booked, 2, late)),
            12
        );
        assert_eq!(rt;
            fault_of(cube.movement(&mut sheet, kind, booked, 1, early)),
            0
        );
        assert_eq!(rt;
            fault_of(cube.movement(&mut sheet, kind, opened, 1, early)),
            7
        );
        assert_eq!(rt; (sheet[3], sheet[13]), (20_000, 20_000));
        assert_eq!(rt; fault_of(cube.void(&mut sheet, booked, 2)), 0);
        assert_eq!(rt; (sheet[3], sheet[13]), (0, 0));
        assert_eq!(rt; fault_of(cube.void(&mut sheet, booked, 2)), 16);
        assert_eq!(rt; fault_of(cube.void(&mut sheet, booked, 1)), 15);
        assert_eq!(rt; fault_of(cube.void(&mut sheet, booked, 9)), 14);
        Ok(())
    }

    // Corrects a payment in two steps, and redates its claim: both measures and the count move to the row of the new year.
    fn correct<R: Register + Drop>(rt: &impl Abort, register: R) -> Result<(), Fail> {
        let mut cube = Cube::new(register, years()?);
        let mut sheet = [0i64; 30];
        assert_eq!(rt; fault_of(cube.start(&mut sheet, 5)), 0);
        let claim_days = ClaimDays::new(20_210_101, 20_210_415, 20_210_503)?;
        assert_eq!(rt;
            fault_of(cube.open(&mut sheet, Day::new(20_210_510)?, claim_days)),
            0
        );
        let paid = Day::new(20_220_201)?;
        let booked = Day::new(20_220_203)?;
        let corrected = Day::new(20_220_301)?;
        let terms = Terms {
            effective: paid,
            amount: Amount::new(20_000)?,
        };
        let less = Terms {
            amount: Amount::new(12_000)?,
            ..terms
        };
        let kind = MovementKind::Paid;
        assert_eq!(rt;
            fault_of(cube.movement(&mut sheet, kind, booked, 1, terms)),
            0
        );
        assert_eq!(rt; draft_fault(&mut cube, 1), 15);
        let ticket = cube.draft(2)?;
        let second = draft_fault(&mut cube, 2);
        let voided = fault_of(cube.void(&mut sheet, booked, 2));
        let posted = post(&mut cube, &mut sheet, ticket, corrected, less);
        assert_eq!(rt; (second, voided, posted), (17, 17, 3));
        assert_eq!(rt; (sheet[4], sheet[14], sheet[23]), (12_000, 12_000, 1));
        let earlier = ClaimDays::new(20_200_101, 20_201_231, 20_210_503)?;
        let late = ClaimDays::new(20_210_101, 20_210_415, 20_220_202)?;
        assert_eq!(rt; fault_of(cube.redate(&mut sheet, corrected, 1, late)), 19);
        assert_eq!(rt; fault_of(cube.redate(&mut sheet, corrected, 1, earlier)), 0);
        assert_eq!(rt; (sheet[4], sheet[14], sheet[23]), (0, 0, 0));
        assert_eq!(rt; (sheet[2], sheet[12], sheet[21]), (12_000, 12_000, 1));
        Ok(())
    }

    // What an answer tells, as a number: a refusal its own, a missing ticket 100, anything else 0.
    fn told(answer: &Answer) -> u64 {
        match answer {
            Answer::Refused(fault) => fault.number() as u64,
            Answer::NoTicket => 100,
            _ => 0,
        }
    }

    // Runs a row, and tells its answers, none where memory ran out.
    fn run<R: Register>(
        heap: Global,
        cube: &mut Cube<R, PeriodCohort>,
        sheet: &mut [i64],
        drawer: &mut Vec<Ticket>,
        row: &[Request],
    ) -> Option<Vec<u64>> {
        let answers = cube.run(heap, sheet, drawer, row).ok()?;
        answers.iter().map(told).collect(heap).ok()
    }

    // Books a payment, corrects it and redates its claim by rows of requests, and asks for the sheets that stood before.
    fn recall<R: Register + Drop>(rt: &impl Abort, heap: Global, register: R) -> Result<(), Fail> {
        let mut cube = Cube::new(register, years()?);
        let mut sheet = [7i64; 30];
        assert_eq!(rt; fault_of(cube.start(&mut sheet, 5)), 0);
        let cleared = sheet;
        let opened = Day::new(20_210_510)?;
        let paid = Day::new(20_220_203)?;
        let corrected = Day::new(20_220_301)?;
        let redated = Day::new(20_220_401)?;
        let effective = Day::new(20_220_201)?;
        let booking = [
            Request::Open {
                booked: opened,
                claim_days: ClaimDays::new(20_210_101, 20_210_415, 20_210_503)?,
            },
            Request::Movement {
                kind: MovementKind::Paid,
                booked: paid,
                claim: 1,
                terms: Terms {
                    effective,
                    amount: Amount::new(20_000)?,
                },
            },
        ];
        let post = Request::Post {
            place: 0,
            booked: corrected,
            terms: Terms {
                effective,
                amount: Amount::new(12_000)?,
            },
        };
        let correcting = [
            Request::Draft { number: 2 },
            Request::Draft { number: 2 },
            post,
            post,
            Request::Void {
                booked: corrected,
                number: 2,
            },
            Request::Redate {
                booked: redated,
                claim: 1,
                claim_days: ClaimDays::new(20_200_101, 20_201_231, 20_210_503)?,
            },
            Request::Drop { place: 0 },
            Request::Query {
                known: paid,
                valued: paid,
            },
        ];
        let mut drawer = Vec::new(heap);
        let first = run(heap, &mut cube, &mut sheet, &mut drawer, &booking);
        let stood = sheet;
        let second = run(heap, &mut cube, &mut sheet, &mut drawer, &correcting);
        cube.drop_all(drawer);
        let (Some(first), Some(second)) = (first, second) else {
            return Err(Fail::new("memory ran out in a row"));
        };
        assert_eq!(rt; first.as_slice(), [0, 0].as_slice());
        assert_eq!(rt;
            second.as_slice(),
            [0, 17, 0, 100, 16, 0, 100, 0].as_slice()
        );
        assert_eq!(rt; (stood[4], stood[14], stood[23]), (20_000, 20_000, 1));
        assert_eq!(rt; (sheet[2], sheet[12], sheet[21]), (12_000, 12_000, 1));
        let mut answer = [7i64; 30];
        assert!(rt; cube.query(heap, paid, paid, &mut answer).is_ok());
        assert!(rt; answer == stood);
        assert!(rt; cube.query(heap, redated, redated, &mut answer).is_ok());
        assert!(rt; answer == sheet);
        assert!(rt; cube.query(heap, redated, effective, &mut answer).is_ok());
        assert_eq!(rt; (answer[2], answer[4], answer[21]), (12_000, 0, 1));
        assert!(rt; cube.query(heap, redated, opened, &mut answer).is_ok());
        assert_eq!(rt; (answer[2], answer[12], answer[21]), (0, 0, 1));
        assert!(rt;
            cube.query(heap, Day::new(20_210_509)?, redated, &mut answer)
                .is_ok()
        );
        assert!(rt; answer == cleared);
        assert!(rt;
            cube.query(heap, redated, redated, &mut answer[0..29])
                .is_err()
        );
        Ok(())
    }

    // Books two claims with an entry each in turn, and goes through all entries and through those of a claim.
    fn walk<R: Register + Drop>(rt: &impl Abort, heap: Global, register: R) -> Result<(), Fail> {
        let mut register = register;
        for claim in [1, 2, 1, 2, 1] {
            let entry = Entry {
                claim,
                ..leftover()?
            };
            assert!(rt; register.add(entry).is_ok());
        }
        let all: Vec<u32> = all_entries(&register)
            .map(|found| found.number)
            .collect(heap)?;
        assert_eq!(rt; all.as_slice(), [1, 2, 3, 4, 5].as_slice());
        let first: Vec<u32> = claim_entries(&register, 1, 0)
            .map(|found| found.number)
            .collect(heap)?;
        assert_eq!(rt; first.as_slice(), [1, 3, 5].as_slice());
        let later: Vec<u32> = claim_entries(&register, 2, 2)
            .map(|found| found.number)
            .collect(heap)?;
        assert_eq!(rt; later.as_slice(), [4].as_slice());
        assert_eq!(rt; claim_entries(&register, 3, 0).count(), 0);
        Ok(())
    }

    // What lies in memory before.
    fn leftover() -> Result<Entry, Fail> {
        Ok(Entry {
            booked: Day::new(20_200_101)?,
            claim: 7,
            content: Content::Void(Void { names: 3 }),
        })
    }

    // Memory for a paged register of 4 claims, full of what lay there before.
    #[derive(Drop)]
    struct PagedMemory {
        pages: Vec<PageCard>,
        slots: Vec<NumberedEntry>,
        claims: Vec<ClaimCard>,
        places: Vec<u32>,
    }

    impl PagedMemory {
        fn new(heap: Global) -> Result<PagedMemory, Fail> {
            let slot = NumberedEntry {
                number: 9,
                entry: leftover()?,
            };
            let card = ClaimCard {
                first: 1,
                last: 2,
                spare: 3,
            };
            Ok(PagedMemory {
                pages: vec![in heap; PageCard { next: 3 }; 8]?,
                slots: vec![in heap; slot; 128]?,
                claims: vec![in heap; card; 4]?,
                places: vec![in heap; 5u32; 64]?,
            })
        }

        fn register(&mut self) -> PagedRegister<'_> {
            PagedRegister::new(
                &mut self.pages,
                &mut self.slots,
                &mut self.claims,
                &mut self.places,
            )
        }
    }

    #[test]
    fn flat(rt: HostRuntime) -> Result<(), Fail> {
        let mut slots = vec![in rt.alloc(); leftover()?; 32]?;
        book(&rt, FlatLog::new(&mut slots, 4))?;
        correct(&rt, FlatLog::new(&mut slots, 4))
    }

    #[test]
    fn paged(rt: HostRuntime) -> Result<(), Fail> {
        let mut memory = PagedMemory::new(rt.alloc())?;
        book(&rt, memory.register())?;
        correct(&rt, memory.register())
    }

    #[test]
    fn flat_walk(rt: HostRuntime) -> Result<(), Fail> {
        let mut slots = vec![in rt.alloc(); leftover()?; 32]?;
        walk(&rt, rt.alloc(), FlatLog::new(&mut slots, 4))
    }

    #[test]
    fn paged_walk(rt: HostRuntime) -> Result<(), Fail> {
        let mut memory = PagedMemory::new(rt.alloc())?;
        walk(&rt, rt.alloc(), memory.register())
    }

    #[test]
    fn flat_rows(rt: HostRuntime) -> Result<(), Fail> {
        let mut slots = vec![in rt.alloc(); leftover()?; 32]?;
        recall(&rt, rt.alloc(), FlatLog::new(&mut slots, 4))
    }

    #[test]
    fn paged_rows(rt: HostRuntime) -> Result<(), Fail> {
        let mut memory = PagedMemory::new(rt.alloc())?;
        recall(&rt, rt.alloc(), memory.register())
    }
}
