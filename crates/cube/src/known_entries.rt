// The entries that are known on a day.
ghost use Rattle.std.specs.Prelude.{◌≡◌, ◌≤◌, true, length, take, IfOk, Some};
ghost use Rattle.register.specs.Entries.{claim_days_in, entry_in, kind_in};
ghost use Rattle.register.specs.Registers.{is_claim};
ghost use Rattle.cube.specs.Known.{first_entries};
ghost use Rattle.cube.specs.Cells.{Adds};
ghost use Rattle.cube.specs.Tables.{is_replaced_in};
ghost use Rattle.cube.specs.Triangles.{triangle, triangle_part};

use crate::brings::Placing;
use crate::reading::kind_among;
use crate::sheet::Cells;
use crate::tables::Tables;
use crate::terms::{Direction, terms_of};
use register::entries::all_entries;
use register::kind::MovementKind;
use register::numbered::NumberedEntry;
use register::register::Register;
use std::alloc::{AllocError, Global};
use std::marker::Model;
use values::claim_days::ClaimDays;
use values::cohort::Cohort;
use values::day::Day;

// The first entries of a register, with their tables.
#[derive(Drop)]
pub(crate) struct KnownEntries<'a, R: Register> {
    register: &'a R,
    tables: Tables,
}

// They are seen as a register that has only these entries.
impl<'a, R: Register> Model for KnownEntries<'a, R> {
    ghost use Rattle.register.specs.Registers.{Meaning};
    ghost use Rattle.cube.specs.Known.{first_entries};
    ghost use Rattle.cube.specs.Tables.{Tabled};

    ghost Value = { Meaning };

    ghost view = { λ k. first_entries k.tables.count (R.meaning k.register.now) };

    ghost invariant = { λ k. Tabled (R.meaning k.register.now).bound (first_entries k.tables.count (R.meaning k.register.now)).entries k.tables };
}

impl<'a, R: Register> KnownEntries<'a, R> {
    // The first `count` entries of a register.
    pub(crate) fn of(
        heap: Global,
        register: &'a R,
        count: u32,
    ) -> Result<KnownEntries<'a, R>, AllocError>
        ensures { IfOk result (λ k. k ≡ first_entries count (R.meaning register.now)) }
    {
        let tables = Tables::of(heap, register, count)?;
        Ok(KnownEntries { register, tables })
    }

    // Whether the entry with a number counts as a payment or as a reserve change.
    fn kind(&self, number: u32) -> Option<MovementKind>
        ensures { result ≡ kind_in self.now.entries number }
    {
        kind_among(self.register, self.tables.count, number)
    }

    // The claim days in force of a claim.
    fn claim_days(&self, claim: u32) -> Option<ClaimDays>
        requires { is_claim self.now.bound claim ≡ true }
        ensures { result ≡ claim_days_in self.now.entries claim }
    {
        self.tables.claim_days_of(claim)
    }

    // Whether a later entry corrects or voids the entry with a number.
    fn is_replaced(&self, number: u32) -> bool
        requires { number ≤ length self.now.entries }
        ensures { result ≡ is_replaced_in self.now.entries number }
    {
        self.tables.is_replaced(number)
    }

    // Adds what one of these entries has in the triangle: the count of an opening, or a movement that stands.
    fn add_part<C: Cohort>(
        &self,
        cells: &mut Cells<'_, C>,
        valued: Option<Day>,
        found: NumberedEntry,
    )
        requires found { Some found.entry ≡ entry_in self.now.entries found.number }
        requires claim { is_claim self.now.bound found.entry.claim ≡ true }
        ensures { Adds cells.old cells.new (triangle_part (C.meaning cells.old.cohort.now) valued self.now.entries found.number found.entry) }
    {
        let Some(claim_days) = self.claim_days(found.entry.claim) else {
            return;
        };
        let placing = Placing { valued, claim_days };
        if found.entry.is_opening() {
            cells.add_count(placing, Direction::Added);
        } else if found.entry.is_movement() && !self.is_replaced(found.number) {
            let kind = self.kind(found.number);
            let terms = terms_of(found.entry.content);
            cells.add_terms(placing, Direction::Added, kind, terms);
        }
    }

    // Adds the triangle of these entries.
    pub(crate) fn add_triangle<C: Cohort>(&self, cells: &mut Cells<'_, C>, valued: Option<Day>)
        ensures { Adds cells.old cells.new (triangle (C.meaning cells.old.cohort.now) valued self.now.entries) }
    {
        for found in all_entries(self.register).take(self.tables.count as usize) {
            self.add_part(cells, valued, found);
        }
    }
}
