// Putting the same request to two registers.
ghost use Rattle.std.specs.Prelude.{◌≡◌};

use crate::request::{Answer, Request};
use crate::serve::serve;
use register::register::Register;

// What two registers answered to the same request.
#[derive(Clone, Copy)]
pub struct Answers {
    pub first: Answer,
    pub second: Answer,
}

// Puts the request to both. Registers that mean the same give the same answer, and then still mean the same.
pub fn ask_both<F: Register, S: Register>(
    first: &mut F,
    second: &mut S,
    request: Request,
) -> Answers
    ensures alike { F.Register.meaning first.old ≡ S.Register.meaning second.old → result.first ≡ result.second }
    ensures after { F.Register.meaning first.old ≡ S.Register.meaning second.old → F.Register.meaning first.new ≡ S.Register.meaning second.new }
{
    Answers {
        first: serve(first, request),
        second: serve(second, request),
    }
}
