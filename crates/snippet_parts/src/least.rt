//! The lesser of numbers that may be missing.
ghost use Rattle.std.specs.Prelude.{◌≡◌, Some, min};
ghost use Rattle.std.specs.Option.{option_map_or};

/// The lesser of a number, if there is one, and another.
pub fn lesser(before: Option<usize>, number: usize) -> Option<usize>
    ensures value { result ≡ Some (option_map_or (λ n. min n number) before number) }
{
    match before {
        Some(least) => Some(least.min(number)),
        None => Some(number),
    }
}

/// The lesser of two numbers, as far as they are there.
pub fn lesser_of(before: Option<usize>, number: Option<usize>) -> Option<usize>
    ensures value { result ≡ option_map_or (λ n. Some (option_map_or (λ m. min m n) before n)) number before }
{
    match number {
        Some(number) => lesser(before, number),
        None => before,
    }
}
