// Reads the numbers of a list.
ghost use Rattle.std.specs.Prelude.{◌≡◌, ◌<◌, ◌≤◌, ◌^◌, IfSome};
ghost use Rattle.std.specs.Char.{is_ascii_digit};
ghost use Rattle.std.specs.List.{list_all};
ghost use Rattle.vm_lists.specs.Numbers.{digits_in, hundredths_of, number_of};

use crate::bounds::Unit;

// The most digits that a number has in front of its point, and behind it.
const MOST_DIGITS: usize = 10;

const MOST_DECIMALS: usize = 2;

// Whether a text has no other bytes than digits.
fn is_decimal(word: &str) -> bool
    ensures { result ≡ list_all is_ascii_digit word.now }
{
    word.as_bytes().iter().all(|byte| byte.is_ascii_digit())
}

// The number that at most so many decimal digits are.
#[tactic(auto, unfolding(crate::specs::Numbers::digits_in))]
fn digits_in(most: usize, word: &str) -> Option<u64>
    requires { most ≤ 10 }
    ensures value { result ≡ digits_in most word.now }
    ensures small { IfSome result (λ n. n < 10 ^ 10) }
{
    if word.len() > most || !is_decimal(word) {
        return None;
    }
    word.parse::<u64>().ok()
}

// The hundredths of one or two digits behind a point.
#[tactic(auto, unfolding(crate::specs::Numbers::hundredths_of))]
fn hundredths_of(word: &str) -> Option<u64>
    ensures value { result ≡ hundredths_of word.now }
    ensures small { IfSome result (λ n. n < 10 ^ 11) }
{
    let value = digits_in(MOST_DECIMALS, word)?;
    Some(if word.len() == 1 { 10 * value } else { value })
}

// The value of a number in this unit.
#[tactic(auto, unfolding(crate::specs::Numbers::number_of))]
pub(crate) fn number_of(unit: Unit, word: &str) -> Option<u64>
    ensures value { result ≡ number_of unit word.now }
{
    if unit == Unit::Whole {
        return digits_in(MOST_DIGITS, word);
    }
    match word.split_once('.') {
        Some((percent, decimals)) => {
            Some(100 * digits_in(MOST_DIGITS, percent)? + hundredths_of(decimals)?)
        }
        None => Some(100 * digits_in(MOST_DIGITS, word)?),
    }
}
