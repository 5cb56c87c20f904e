// The numbers of a line.
ghost use Rattle.std.specs.Prelude.{◌≡◌, ◌≤◌, ◌^◌};
ghost use Rattle.std.specs.Char.{digit_value};
ghost use Rattle.vm_import.specs.Numerals.{numeral_of, IsInFront};

// The value of each byte as a digit or a letter, from 0 for `0` to 35 for `z`, and 36 for any other byte.
const DIGIT_VALUES: [u8; 256] = [
    36, 36, 36, 36, 36, 36, 36, 36, 36, 36, 36, 36, 36, 36, 36, 36, 36, 36, 36, 36, 36, 36, 36, 36,
    36, 36, 36, 36, 36, 36, 36, 36, 36, 36, 36, 36, 36, 36, 36, 36, 36, 36, 36, 36, 36, 36, 36, 36,
    0, 1, 2, 3, 4, 5, 6, 7, 8, 9, 36, 36, 36, 36, 36, 36, 36, 10, 11, 12, 13, 14, 15, 16, 17, 18,
    19, 20, 21, 22, 23, 24, 25, 26, 27, 28, 29, 30, 31, 32, 33, 34, 35, 36, 36, 36, 36, 36, 36, 10,
    11, 12, 13, 14, 15, 16, 17, 18, 19, 20, 21, 22, 23, 24, 25, 26, 27, 28, 29, 30, 31, 32, 33, 34,
    35, 36, 36, 36, 36, 36, 36, 36, 36, 36, 36, 36, 36, 36, 36, 36, 36, 36, 36, 36, 36, 36, 36, 36,
    36, 36, 36, 36, 36, 36, 36, 36, 36, 36, 36, 36, 36, 36, 36, 36, 36, 36, 36, 36, 36, 36, 36, 36,
    36, 36, 36, 36, 36, 36, 36, 36, 36, 36, 36, 36, 36, 36, 36, 36, 36, 36, 36, 36, 36, 36, 36, 36,
    36, 36, 36, 36, 36, 36, 36, 36, 36, 36, 36, 36, 36, 36, 36, 36, 36, 36, 36, 36, 36, 36, 36, 36,
    36, 36, 36, 36, 36, 36, 36, 36, 36, 36, 36, 36, 36, 36, 36, 36, 36, 36, 36, 36, 36, 36, 36, 36,
    36, 36, 36, 36, 36, 36, 36, 36, 36, 36, 36, 36, 36, 36,
];

// A table takes the same time for every digit.
fn digit_value(byte: u8) -> u8
    ensures { result ≡ digit_value byte }
{
    DIGIT_VALUES[byte as usize]
}

// Digits in front of a text: the number that they write, and how many they are.
#[derive(Clone, Copy)]
pub(crate) struct Digits {
    pub(crate) value: u64,
    pub(crate) len: usize,
}

// The digits of this radix in front of a text, at most so many.
#[inline(always)]
pub(crate) fn digits_in_front(text: &[u8], radix: u8, most: usize) -> Digits
    requires few { radix ^ most ≤ 2 ^ 64 }
    requires some { 2 ≤ radix }
    ensures { IsInFront radix most text.now result.value result.len }
{
    let end = most.min(text.len());
    let mut value = 0;
    for place in 0..end {
        let digit = digit_value(text[place]);
        if digit >= radix {
            return Digits { value, len: place };
        }
        value = value * u64::from(radix) + u64::from(digit);
    }
    Digits { value, len: end }
}

// The number that a word is, if it is 1 to so many digits of this radix.
#[tactic(auto, using(crate::proofs::NumeralLemmas::whole_numeral, crate::proofs::NumeralLemmas::longer_numeral, crate::proofs::NumeralLemmas::no_numeral))]
pub(crate) fn numeral_of(word: &[u8], radix: u8, most: usize) -> Option<u64>
    requires few { radix ^ most ≤ 2 ^ 64 }
    requires some { 2 ≤ radix }
    ensures { result ≡ numeral_of radix most word.now }
{
    let digits = digits_in_front(word, radix, most);
    if digits.len == 0 || digits.len < word.len() {
        return None;
    }
    Some(digits.value)
}
