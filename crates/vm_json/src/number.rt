// Numbers, which stay text in a value.
ghost use Rattle.std.specs.Prelude.{◌≡◌, ◌<◌, ◌==◌, length, slice_index, false, true, is_some, option_and_then, IsTrue};
ghost use Rattle.serde_json.specs.Find.{as_number, as_u64};
ghost use Rattle.serde_json.specs.Read.{number_from, number_of};
ghost use Rattle.vm_json.specs.View.{view};

use crate::value::Value;
use fast_float::Numeral;

// The greatest number that an `i64` has the negative of.
const MOST_NEGATIVE: u64 = 1 << 63;

/// The number that the value is, where it is written with digits alone (RFC 8259, section 6) and below 2^64.
pub fn whole(value: &Value<'_>) -> Option<u64>
    ensures { result ≡ option_and_then as_u64 (as_number (view value.now)) }
{
    if let Value::Number(text) = value {
        whole_number(*text)
    } else {
        None
    }
}

fn whole_number(text: &str) -> Option<u64>
    ensures { result ≡ option_and_then as_u64 (number_of text.now) }
{
    let bytes = text.as_bytes();
    if has_minus(bytes) {
        return None;
    }
    Numeral::scan(bytes).to_u64()
}

// Whether a number is an integer of 64 bits or rounds to a finite float.
pub(crate) fn is_in_range(text: &str) -> bool
    ensures { result ≡ is_some (number_of text.now) }
{
    let bytes = text.as_bytes();
    if has_minus(bytes) {
        is_negative_in_range(&Numeral::scan(&bytes[1..]))
    } else {
        is_positive_in_range(&Numeral::scan(bytes))
    }
}

fn is_positive_in_range(numeral: &Numeral<'_>) -> bool
    ensures { result ≡ is_some (number_from false numeral.now) }
{
    numeral.to_u64().is_some() || numeral.to_float::<f64>(false).is_finite()
}

fn is_negative_in_range(numeral: &Numeral<'_>) -> bool
    ensures { result ≡ is_some (number_from true numeral.now) }
{
    let fits = match numeral.to_u64() {
        Some(number) => 0 < number && number <= MOST_NEGATIVE,
        None => false,
    };
    fits || numeral.to_float::<f64>(true).is_finite()
}

fn has_minus(bytes: &[u8]) -> bool
    ensures value { result ≡ (slice_index bytes.now 0 == 45) }
    ensures some { IsTrue result → 0 < length bytes.now }
{
    bytes.first() == Some(&b'-')
}
