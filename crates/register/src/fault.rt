// Why a register does not take an entry.
ghost use Rattle.std.specs.Prelude.{Some};
ghost use Rattle.register.specs.Texts.{add_fault_text};

use std::error::Error;
use std::fmt;

// Checked in this order.
#[derive(Clone, Copy, PartialEq, Debug)]
pub enum AddFault {
    // the entry's claim is 0 or above the claim bound
    NoSuchClaim,
    // there are as many entries as the capacity
    Full,
}

impl fmt::Display for AddFault {
    ghost output = { λ fault. Some (add_fault_text fault) };

    fn fmt<W: fmt::Write>(&self, f: &mut fmt::Formatter<W>) -> fmt::Result {
        f.write_str(match self {
            AddFault::NoSuchClaim => "no such claim",
            AddFault::Full => "the register is full",
        })
    }
}

impl Error for AddFault {}
