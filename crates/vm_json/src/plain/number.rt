// Numbers (RFC 8259, section 6), part by part. Each function gives where its part ends.
ghost use Rattle.std.specs.Prelude.{◌≡◌, ◌==◌, ◌||◌, ◌+◌, ◌≤◌, drop, length};
ghost use Rattle.json.specs.Word.{after_digits, after_exponent, after_fraction, after_minus, after_number, after_sign, after_whole, head};
ghost use Rattle.vm_json.specs.Plain.{Leaves};

// The byte there, or a blank at the end, which ends a number as well.
#[inline(always)]
pub(super) fn byte_at(bytes: &[u8], at: usize) -> u8
    ensures { result ≡ head (drop at bytes.now) }
{
    if at < bytes.len() { bytes[at] } else { b' ' }
}

// Some digits.
#[inline(always)]
fn digits(bytes: &[u8], from: usize) -> Option<usize>
    requires { from ≤ length bytes.now }
    ensures { Leaves bytes.now result (after_digits (drop from bytes.now)) }
{
    let mut at = from;
    while at < bytes.len() && bytes[at].is_ascii_digit() {
        at += 1;
    }
    if at == from { None } else { Some(at) }
}

// One zero, or digits that begin with another.
#[inline(always)]
fn whole(bytes: &[u8], from: usize) -> Option<usize>
    requires { from ≤ length bytes.now }
    ensures { Leaves bytes.now result (after_whole (drop from bytes.now)) }
{
    if byte_at(bytes, from) == b'0' {
        Some(from + 1)
    } else {
        digits(bytes, from)
    }
}

// A point and digits, or nothing.
#[inline(always)]
fn fraction(bytes: &[u8], from: usize) -> Option<usize>
    requires { from ≤ length bytes.now }
    ensures { Leaves bytes.now result (after_fraction (drop from bytes.now)) }
{
    if byte_at(bytes, from) == b'.' {
        digits(bytes, from + 1)
    } else {
        Some(from)
    }
}

#[inline(always)]
fn sign_end(bytes: &[u8], from: usize) -> usize
    requires { from ≤ length bytes.now }
    ensures value { drop result bytes.now ≡ after_sign (drop from bytes.now) }
    ensures within { result ≤ length bytes.now }
{
    let byte = byte_at(bytes, from);
    if byte == b'-' || byte == b'+' {
        from + 1
    } else {
        from
    }
}

#[inline(always)]
fn minus_end(bytes: &[u8]) -> usize
    ensures value { drop result bytes.now ≡ after_minus bytes.now }
    ensures within { result ≤ length bytes.now }
{
    if byte_at(bytes, 0) == b'-' { 1 } else { 0 }
}

#[inline(always)]
fn begins_exponent(byte: u8) -> bool
    ensures { result ≡ ((byte == 101) || (byte == 69)) }
{
    byte == b'e' || byte == b'E'
}

// A letter, perhaps a sign, and digits, or nothing.
#[inline(always)]
fn exponent(bytes: &[u8], from: usize) -> Option<usize>
    requires { from ≤ length bytes.now }
    ensures { Leaves bytes.now result (after_exponent (drop from bytes.now)) }
{
    if begins_exponent(byte_at(bytes, from)) {
        digits(bytes, sign_end(bytes, from + 1))
    } else {
        Some(from)
    }
}

// The number that comes first.
pub(super) fn number_end(bytes: &[u8]) -> Option<usize>
    ensures { Leaves bytes.now result (after_number bytes.now) }
{
    let point = whole(bytes, minus_end(bytes))?;
    let letter = fraction(bytes, point)?;
    exponent(bytes, letter)
}
