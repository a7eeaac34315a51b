// Worked figures of the rules, proved.
ghost use Rattle.std.specs.Prelude.{◌≡◌, true, length};
ghost use Rattle.register.specs.Figures.{every, figures};

// How many worked figures stand in the table; every one of them holds.
pub fn proved_figures() -> u32
    ensures count { result ≡ length figures }
    ensures hold { every figures ≡ true }
{
    10
}
