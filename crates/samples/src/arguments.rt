// Settings of a program, by its arguments.
ghost use Rattle.std.specs.Bool.{then_some};
ghost use Rattle.std.specs.Prelude.{◌≡◌, Some, SomeIff, MatchOption, Result, nat_le, string_bytes};
ghost use Rattle.std.specs.Result.{result_ok};
ghost use Rattle.samples.specs.Arguments.{IsNumberUpTo, number_of};

use std::str::FromStr;

// The setting that a word names, none where it names none; the default where the arguments have ended.
pub fn setting<T: FromStr + Drop>(word: Option<String>, default: T) -> Option<T>
where
    T::Err: Drop,
    ensures { MatchOption word (result ≡ Some default) (λ text. (read : Result T T.Err) × T.FromStr.from_str_gives (string_bytes text) read × (result ≡ result_ok read)) }
{
    match word {
        Some(word) => word.parse().ok(),
        None => Some(default),
    }
}

// The same for a number up to a bound.
pub fn number_up_to(most: u32, word: Option<String>, default: u32) -> Option<u32>
    ensures { MatchOption word (result ≡ then_some (nat_le default most) default) (λ text. SomeIff result (IsNumberUpTo most (string_bytes text)) (number_of (string_bytes text))) }
{
    setting(word, default).filter(|number| *number <= most)
}
