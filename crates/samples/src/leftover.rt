// What lies in memory before a register is made over it.
ghost use Rattle.std.specs.Prelude.{◌≡◌};
ghost use Rattle.samples.specs.Leftover.{leftover_of};

use register::entry::{Content, Entry, Void};
use values::day::Day;
use values::fault::ValueFault;

// The number that stands for what other work left.
const LEFT: u32 = 77;

// An entry that is of no book; nothing may depend on it.
pub fn leftover() -> Result<Entry, ValueFault>
    ensures { result ≡ leftover_of 19991231 }
{
    Ok(Entry {
        booked: Day::new(19_991_231)?,
        claim: LEFT,
        content: Content::Void(Void { names: LEFT }),
    })
}
