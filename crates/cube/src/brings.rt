// Adding to the sheet what an entry brings.
ghost use Rattle.std.specs.Prelude.{ℕ, List, Some, None};
ghost use Rattle.register.specs.declared.entry.Entry.{Entry};
ghost use Rattle.cube.specs.declared.terms.Direction.TheVariants.{Added};
ghost use Rattle.cube.specs.Brings.{brought_by, brings, claim_part, correction_shares, count_under, movement_at, redating_shares, standing_part, terms_shares};

use crate::reading::{claim_days_in_force, kind_of, stands};
use crate::sheet::Cells;
use crate::terms::{Direction, in_time, terms_of};
use register::entries::claim_entries;
use register::entry::{Content, Correction, Entry, Terms};
use register::kind::MovementKind;
use register::numbered::NumberedEntry;
use register::register::Register;
use values::claim_days::ClaimDays;
use values::cohort::Cohort;
use values::day::Day;

// Where shares fall: the value day, and the claim days that place them.
// The direction is no field: a placing is given before the content says the direction, and a correction has both under one.
#[derive(Clone, Copy)]
pub(crate) struct Placing {
    pub(crate) valued: Option<Day>,
    pub(crate) claim_days: ClaimDays,
}

impl<C: Cohort> Cells<'_, C> {
    ghost use Rattle.cube.specs.Cells.{Adds};

    // Adds a movement by its kind and terms, where it has both.
    pub(crate) fn add_terms(
        &mut self,
        placing: Placing,
        direction: Direction,
        kind: Option<MovementKind>,
        terms: Option<Terms>,
    )
        ensures { Adds self.old self.new (terms_shares (C.meaning self.old.cohort.now) placing.valued placing.claim_days direction kind terms) }
    {
        let (Some(kind), Some(terms)) = (kind, terms) else {
            return;
        };
        if in_time(placing.valued, terms.effective) {
            let change = direction.of(terms.amount);
            self.add_movement(kind, placing.claim_days, terms.effective, change);
        }
    }

    // Adds the count of a claim.
    pub(crate) fn add_count(&mut self, placing: Placing, direction: Direction)
        ensures { Adds self.old self.new (count_under (C.meaning self.old.cohort.now) placing.valued placing.claim_days direction) }
    {
        if in_time(placing.valued, placing.claim_days.report) {
            self.add_claim(placing.claim_days, direction.of_one());
        }
    }

    // Adds the movement with a number.
    fn add_movement_at<R: Register>(
        &mut self,
        register: &R,
        placing: Placing,
        direction: Direction,
        number: u32,
    )
        ensures { Adds self.old self.new (movement_at (C.meaning self.old.cohort.now) placing.valued (R.meaning register.now).entries placing.claim_days direction number) }
    {
        let kind = kind_of(register, number);
        let terms = register
            .entry(number)
            .and_then(|entry| terms_of(entry.content));
        self.add_terms(placing, direction, kind, terms);
    }

    // Adds what an entry of the claim has in the triangle: the count of an opening, or a movement that stands.
    fn add_standing_part<R: Register>(
        &mut self,
        register: &R,
        placing: Placing,
        direction: Direction,
        found: NumberedEntry,
    )
        ensures { Adds self.old self.new (standing_part (C.meaning self.old.cohort.now) placing.valued (R.meaning register.now).entries placing.claim_days direction found.number found.entry) }
    {
        if found.entry.is_opening() {
            self.add_count(placing, direction);
        } else if stands(register, found.number) {
            self.add_movement_at(register, placing, direction, found.number);
        }
    }

    // Adds the claim's count and its standing movements.
    fn add_claim_part<R: Register>(
        &mut self,
        register: &R,
        placing: Placing,
        direction: Direction,
        claim: u32,
    )
        ensures { Adds self.old self.new (claim_part (C.meaning self.old.cohort.now) placing.valued (R.meaning register.now).entries claim placing.claim_days direction) }
    {
        for found in claim_entries(register, claim, 0) {
            self.add_standing_part(register, placing, direction, found);
        }
    }

    // Adds what a correction brings: the movement that it names off, its own terms on.
    fn add_correction<R: Register>(
        &mut self,
        register: &R,
        placing: Placing,
        correction: Correction,
    )
        ensures { Adds self.old self.new (correction_shares (C.meaning self.old.cohort.now) placing.valued (R.meaning register.now).entries placing.claim_days correction) }
    {
        self.add_movement_at(register, placing, Direction::TakenOff, correction.names);
        let kind = kind_of(register, correction.names);
        self.add_terms(placing, Direction::Added, kind, Some(correction.terms()));
    }

    // Adds what a redating brings: the claim's part off under the old claim days, on under the new.
    fn add_redating<R: Register>(
        &mut self,
        register: &R,
        placing: Placing,
        claim: u32,
        claim_days: ClaimDays,
    )
        ensures { Adds self.old self.new (redating_shares (C.meaning self.old.cohort.now) placing.valued (R.meaning register.now).entries claim placing.claim_days claim_days) }
    {
        self.add_claim_part(register, placing, Direction::TakenOff, claim);
        let placing = Placing {
            claim_days,
            ..placing
        };
        self.add_claim_part(register, placing, Direction::Added, claim);
    }

    // Adds what an entry of a claim without claim days brings: only an opening brings anything.
    fn add_without_days(&mut self, valued: Option<Day>, content: Content)
        ensures { (es : List Entry) (claim : ℕ) → Adds self.old self.new (brought_by (C.meaning self.old.cohort.now) valued es claim None content) }
    {
        if let Content::Opening(claim_days) = content {
            self.add_count(Placing { valued, claim_days }, Direction::Added);
        }
    }

    // Adds what an entry of a claim brings under the claim days in force.
    fn add_under_days<R: Register>(
        &mut self,
        register: &R,
        placing: Placing,
        claim: u32,
        content: Content,
    )
        ensures { Adds self.old self.new (brought_by (C.meaning self.old.cohort.now) placing.valued (R.meaning register.now).entries claim (Some placing.claim_days) content) }
    {
        match content {
            Content::Opening(claim_days) => {
                let placing = Placing {
                    claim_days,
                    ..placing
                };
                self.add_count(placing, Direction::Added);
            }
            Content::Payment(terms) => {
                let kind = Some(MovementKind::Paid);
                self.add_terms(placing, Direction::Added, kind, Some(terms));
            }
            Content::ReserveChange(terms) => {
                let kind = Some(MovementKind::Reserved);
                self.add_terms(placing, Direction::Added, kind, Some(terms));
            }
            Content::Correction(correction) => self.add_correction(register, placing, correction),
            Content::Void(void) => {
                self.add_movement_at(register, placing, Direction::TakenOff, void.names);
            }
            Content::Redating(redated) => self.add_redating(register, placing, claim, redated),
        }
    }

    // Adds what an entry brings by the register before it, as far as it falls on or before the value day.
    pub(crate) fn add_brought<R: Register>(
        &mut self,
        register: &R,
        valued: Option<Day>,
        entry: Entry,
    )
        ensures { Adds self.old self.new (brings (C.meaning self.old.cohort.now) valued (R.meaning register.now).entries entry) }
    {
        match claim_days_in_force(register, entry.claim) {
            Some(claim_days) => {
                let placing = Placing { valued, claim_days };
                self.add_under_days(register, placing, entry.claim, entry.content);
            }
            None => self.add_without_days(valued, entry.content),
        }
    }
}
