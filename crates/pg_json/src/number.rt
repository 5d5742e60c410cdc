//! Whole numbers as JSON writes them.
ghost use Rattle.std.specs.Prelude.{◌≡◌, ◌==◌, ◌^◌, ◌<◌, ◌≤◌, IsTrue, IfSome, Some, length, slice_index, true, false};
ghost use Rattle.std.specs.Str.Parse.{IsNumeral, digits_value};
ghost use Rattle.fast_float.specs.Text.{minus};
ghost use Rattle.serde_json.specs.Data.{unsigned};
ghost use Rattle.serde_json.specs.Find.{as_i64, of_integer};
ghost use Rattle.serde_json.specs.Read.{number_of, number_from};
ghost use Rattle.pg_meaning.specs.Meters.{greatest_id};

use fast_float::Numeral;

/// The whole number of 64 bits that a number's text writes, if it is one. The negative zero is none.
#[inline(always)]
pub(crate) fn whole_number(text: &str) -> Option<i64>
    ensures read { IfSome result (λ z. number_of text.now ≡ Some (of_integer z)) }
    ensures fits { IfSome result (λ z. as_i64 (of_integer z) ≡ Some z) }
{
    match short_number(text.as_bytes()) {
        Some(number) => Some(number as i64),
        None => any_number(text),
    }
}

/// The number that at most 18 digits, and nothing else, write.
#[inline(always)]
fn short_number(bytes: &[u8]) -> Option<u64>
    ensures digits { IfSome result (λ _. IsNumeral 10 bytes.now) }
    ensures value { IfSome result (λ n. n ≡ digits_value 10 bytes.now) }
    ensures within { IfSome result (λ n. n < 2 ^ 63) }
{
    if bytes.is_empty() || bytes.len() > 18 {
        return None;
    }
    let mut number = 0;
    for byte in bytes {
        let digit = u64::from(*byte).wrapping_sub(48);
        if digit > 9 {
            return None;
        }
        number = number * 10 + digit;
    }
    Some(number)
}

/// The same of any text.
#[inline(never)]
fn any_number(text: &str) -> Option<i64>
    ensures read { IfSome result (λ z. number_of text.now ≡ Some (of_integer z)) }
    ensures fits { IfSome result (λ z. as_i64 (of_integer z) ≡ Some z) }
{
    let bytes = text.as_bytes();
    if has_minus(bytes) {
        below_zero(&Numeral::scan(&bytes[1..]))
    } else {
        from_zero(&Numeral::scan(bytes))
    }
}

/// The whole number of 63 bits that a number's text writes, if it is one.
pub(crate) fn natural_number(text: &str) -> Option<u64>
    ensures read { IfSome result (λ n. number_of text.now ≡ Some (unsigned n)) }
    ensures within { IfSome result (λ n. n ≤ greatest_id) }
{
    let number = whole_number(text)?;
    if number < 0 {
        None
    } else {
        Some(number as u64)
    }
}

fn has_minus(bytes: &[u8]) -> bool
    ensures value { result ≡ (slice_index bytes.now 0 == minus) }
    ensures length { IsTrue result → 0 < length bytes.now }
{
    !bytes.is_empty() && bytes[0] == b'-'
}

fn from_zero(numeral: &Numeral<'_>) -> Option<i64>
    ensures read { IfSome result (λ z. number_from false numeral.now ≡ Some (of_integer z)) }
    ensures fits { IfSome result (λ z. as_i64 (of_integer z) ≡ Some z) }
{
    numeral.to_i64(false)
}

fn below_zero(numeral: &Numeral<'_>) -> Option<i64>
    ensures read { IfSome result (λ z. number_from true numeral.now ≡ Some (of_integer z)) }
    ensures fits { IfSome result (λ z. as_i64 (of_integer z) ≡ Some z) }
{
    let number = numeral.to_i64(true)?;
    if number < 0 { Some(number) } else { None }
}
