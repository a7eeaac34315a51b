// The finished triangle as a table.
use crate::drawing::Drawing;
use cube::figures::running_sums;
use std::io;
use values::cohort::LabelledCohort;
use wording::money::Money;

impl<C: LabelledCohort> Drawing<'_, C> {
    // Prints what the rows below it show, and the number of each column.
    fn show_heading(&self, title: &str) -> io::Result<()> {
        let rt = self.rt;
        rt.println(title)?;
        rt.print("row   ")?;
        for column in 0..self.cohort.columns() {
            let name = format!(in rt.alloc(); "column {column}")?;
            print!(rt; "  {name:>16}")?;
        }
        rt.print("\n")
    }

    // Prints a row's label and its sums.
    fn show_row(&self, label: u32, sums: &[i64]) -> io::Result<()> {
        let rt = self.rt;
        print!(rt; "{label}")?;
        for sum in sums {
            let sum = Money(*sum);
            print!(rt; "  {sum:>16}")?;
        }
        rt.print("\n")
    }

    // Prints what was paid in each cell, then the running sums along each row, and last what lies beyond.
    pub fn show_triangle(&self) -> io::Result<()> {
        let rt = self.rt;
        self.show_heading("\nPaid in each year:")?;
        for row in 0..self.cohort.rows() {
            if let (Some(label), Some(cells)) = (self.cohort.label(row), self.triangle.row(row)) {
                self.show_row(label, cells)?;
            }
        }
        self.show_heading("\nPaid to the end of each year, the running sums from column 0:")?;
        for row in 0..self.cohort.rows() {
            if let (Some(label), Some(cells)) = (self.cohort.label(row), self.triangle.row(row)) {
                self.show_row(label, running_sums(rt.alloc(), cells)?.as_slice())?;
            }
        }
        let beyond = Money(self.triangle.beyond());
        println!(rt; "beyond  {beyond:>16}")
    }
}
