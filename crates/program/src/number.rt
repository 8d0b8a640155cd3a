//! Numbers that arguments write.

ghost use Rattle.std.specs.Prelude.{◌≡◌, SomeIff};
ghost use Rattle.program.specs.Numbers as spec;
ghost use Rattle.program.specs.Numbers.{IsNumber, number_in};

/// The number that an argument of decimal digits alone writes; `None` for another one, and where the number doesn't
/// fit.
pub fn number_of(argument: &str) -> Option<usize>
    ensures value { result ≡ spec.number_of argument.now }
    ensures digits { SomeIff result (IsNumber argument.now) (number_in argument.now) }
{
    match argument.as_bytes() {
        [b'+', ..] => None,
        _ => argument.parse().ok(),
    }
}

/// The number that an argument of decimal digits writes, before which a plus may stand; `None` for another one, and
/// where the number doesn't fit.
pub fn number_after_plus(argument: &str) -> Option<usize>
    ensures value { result ≡ spec.number_after_plus argument.now }
{
    argument.parse().ok()
}
