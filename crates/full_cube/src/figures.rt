// Figures by which two sheets are compared.
ghost use Rattle.std.specs.Prelude.{◌≡◌};
ghost use Rattle.full_cube.specs.Figures.{mixed, totalled};

// The sum of the cells modulo 2^64.
fn total(cells: &[i64]) -> u64
    ensures { result ≡ totalled cells.now }
{
    cells
        .iter()
        .fold(0, |sum: u64, cell| sum.wrapping_add_signed(*cell))
}

// A number that nearly always differs where two rows of cells do: the value modulo 2^64 of the polynomial whose coefficients
// they are, at the multiplier that Fowler, Noll and Vo give for their hash.
fn checksum(cells: &[i64]) -> u64
    ensures { result ≡ mixed cells.now }
{
    cells.iter().fold(0, |sum: u64, cell| {
        sum.wrapping_mul(1_099_511_628_211)
            .wrapping_add_signed(*cell)
    })
}

// Of one measure: the sum of its cells, what of that lies beyond, and the checksum.
#[derive(Clone, Copy, PartialEq)]
pub struct Figures {
    pub total: i64,
    pub beyond: i64,
    pub checksum: u64,
}

// Of a sheet: the figures of its three measures.
#[derive(Clone, Copy, PartialEq)]
pub struct SheetFigures {
    pub paid: Figures,
    pub incurred: Figures,
    pub count: Figures,
}

// The figures of the cells of one measure; of no cells 0 lies beyond, as 0 is their total.
fn measure_figures(cells: &[i64]) -> Figures {
    Figures {
        total: total(cells).cast_signed(),
        beyond: cells.last().copied().unwrap_or(0),
        checksum: checksum(cells),
    }
}

// The figures of a sheet.
pub fn sheet_figures(sheet: &[i64]) -> SheetFigures {
    let block = sheet.len() / 3;
    let (paid, others) = sheet.split_at(block);
    let (incurred, count) = others.split_at(block);
    SheetFigures {
        paid: measure_figures(paid),
        incurred: measure_figures(incurred),
        count: measure_figures(count),
    }
}
