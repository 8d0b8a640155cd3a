//! The number that a token of JSON writes.
ghost use Rattle.std.specs.Prelude.{◌≡◌, ◌==◌, false, option_map, slice_index, true};
ghost use Rattle.serde_json.specs.Read.{float_of, number_from, number_of};
ghost use Rattle.serde_json.specs.View.{number_view};

use fast_float::Numeral;
use serde_json::Number;

/// The number that a token writes, if it is one of 64 bits or a float.
pub fn number_in(text: &str) -> Option<Number>
    ensures value { option_map number_view result ≡ number_of text.now }
{
    let bytes = text.as_bytes();
    if has_minus(bytes) {
        below_zero(&Numeral::scan(&bytes[1..]))
    } else {
        from_zero(&Numeral::scan(bytes))
    }
}

/// Whether a token begins with a minus sign.
fn has_minus(bytes: &[u8]) -> bool
    ensures value { result ≡ (slice_index bytes.now 0 == 45) }
{
    !bytes.is_empty() && bytes[0] == b'-'
}

/// The number without a sign.
fn from_zero(numeral: &Numeral<'_>) -> Option<Number>
    ensures value { option_map number_view result ≡ number_from false numeral.now }
{
    match numeral.to_u64() {
        Some(number) => Some(Number::from(number)),
        None => nearest(false, numeral),
    }
}

/// The number after a minus sign. That of 0 is a float.
fn below_zero(numeral: &Numeral<'_>) -> Option<Number>
    ensures value { option_map number_view result ≡ number_from true numeral.now }
{
    if let Some(number) = numeral.to_i64(true) {
        if number < 0 {
            return Some(Number::from(number));
        }
    }
    nearest(true, numeral)
}

/// The float that is nearest to a number.
fn nearest(is_below_zero: bool, numeral: &Numeral<'_>) -> Option<Number>
    ensures value { option_map number_view result ≡ float_of is_below_zero numeral.now }
{
    Number::from_f64(numeral.to_float::<f64>(is_below_zero))
}
