// What a line of a log means.
ghost use Rattle.std.specs.Prelude.{◌≡◌, ◌≤◌, IfOk, IfSome, OnOk, length, position};
ghost use Rattle.std.specs.List.{after_first, before_first};
ghost use Rattle.std.specs.Option.{option_map};
ghost use Rattle.vm_import.specs.Accesses.{IsAccess};
ghost use Rattle.vm_import.specs.Lines.{access_of, access_with, address_of, digits_behind, is_another, is_comma, is_marked, is_no_digit, kind_of, line_of, process_of, size_of};

use crate::access::{Access, AccessKind};
use crate::faults::LineFault;
use crate::numerals::numeral_of;
use crate::process::{MAX_DIGITS, Process};

// The kind that the first three bytes of a line name.
#[inline(always)]
#[tactic(auto, unfolding(crate::specs::Lines::kind_of))]
pub(crate) fn kind_of(line: &[u8]) -> Result<AccessKind, LineFault>
    ensures kind { result ≡ kind_of line.now }
    ensures long { OnOk result (3 ≤ length line.now) }
{
    match line {
        [b'I', b' ', b' ', ..] => Ok(AccessKind::Fetch),
        [b' ', b'L', b' ', ..] => Ok(AccessKind::Load),
        [b' ', b'S', b' ', ..] => Ok(AccessKind::Store),
        [b' ', b'M', b' ', ..] => Ok(AccessKind::Modify),
        _ => Err(LineFault::NotALine),
    }
}

// The access of this kind, if no byte of it is behind the last address.
#[inline(always)]
#[tactic(auto, unfolding(crate::specs::Lines::access_with))]
pub(crate) fn access_with(kind: AccessKind, address: u64, size: u16) -> Result<Access, LineFault>
    requires some { 1 ≤ size }
    requires few { size ≤ 1024 }
    ensures access { result ≡ access_with kind address size }
    ensures valid { IfOk result IsAccess }
{
    if address > u64::MAX - u64::from(size - 1) {
        return Err(LineFault::PastTheEnd);
    }
    Ok(Access {
        address,
        size,
        kind,
    })
}

// The place of the first comma.
fn comma_in(text: &[u8]) -> Option<usize>
    ensures { result ≡ position is_comma text.now }
{
    text.iter().position(|byte| *byte == b',')
}

// The size that a word is.
#[tactic(auto, unfolding(crate::specs::Lines::size_of))]
fn size_of(word: &[u8]) -> Result<u16, LineFault>
    ensures size { result ≡ size_of word.now }
    ensures some { IfOk result (λ size. 1 ≤ size) }
    ensures few { IfOk result (λ size. size ≤ 1024) }
{
    let size = numeral_of(word, 10, 4).ok_or(LineFault::NoSize)?;
    if 1 <= size && size <= 1024 {
        Ok(size as u16)
    } else {
        Err(LineFault::NoSize)
    }
}

// The address in front of the first comma.
#[tactic(auto, unfolding(crate::specs::Lines::address_of))]
fn address_of(text: &[u8]) -> Result<u64, LineFault>
    ensures { result ≡ address_of text.now }
{
    match comma_in(text) {
        Some(comma) => numeral_of(&text[..comma], 16, 16).ok_or(LineFault::NoAddress),
        None => Err(LineFault::NoAddress),
    }
}

// What is behind the first comma.
fn behind_comma(text: &[u8]) -> &[u8]
    ensures { result.now ≡ after_first is_comma text.now }
{
    match comma_in(text) {
        Some(comma) => &text[comma + 1..],
        None => &[],
    }
}

// The access of a line.
#[tactic(auto, unfolding(crate::specs::Lines::access_of))]
fn access_of(line: &[u8]) -> Result<Access, LineFault>
    ensures access { result ≡ access_of line.now }
    ensures valid { IfOk result IsAccess }
{
    let kind = kind_of(line)?;
    let text = &line[3..];
    let address = address_of(text)?;
    let size = size_of(behind_comma(text))?;
    access_with(kind, address, size)
}

// Whether a line is one of valgrind's own.
fn is_marked(line: &[u8]) -> bool
    ensures { result ≡ is_marked line.now }
{
    line.starts_with(b"==") || line.starts_with(b"--") || line.starts_with(b"**")
}

// The place of the first byte that is no decimal digit.
fn first_other(text: &[u8]) -> Option<usize>
    ensures { result ≡ position is_no_digit text.now }
{
    text.iter().position(|byte| !byte.is_ascii_digit())
}

// The decimal digits that a text begins with.
fn digits_of(text: &[u8]) -> &[u8]
    ensures { result.now ≡ before_first is_no_digit text.now }
{
    match first_other(text) {
        Some(end) => &text[..end],
        None => text,
    }
}

// The digits that a line has between a mark and the same mark.
#[tactic(auto, unfolding(crate::specs::Lines::process_of))]
fn process_of(line: &[u8]) -> Option<&[u8]>
    ensures digits { option_map (λ digits. digits.now) result ≡ process_of line.now }
    ensures few { IfSome result (λ digits. length digits.now ≤ 10) }
{
    if !is_marked(line) {
        return None;
    }
    let text = &line[2..];
    let digits = digits_of(text);
    let is_process = !digits.is_empty() && digits.len() <= MAX_DIGITS;
    if is_process && text[digits.len()..].starts_with(&line[..2]) {
        Some(digits)
    } else {
        None
    }
}

// The same, to keep.
pub(crate) fn named_process(line: &[u8]) -> Option<Process>
    ensures { result ≡ process_of line.now }
{
    match process_of(line) {
        Some(digits) => Some(Process::from_digits(digits)),
        None => None,
    }
}

// Whether a line names another process than an earlier one did.
fn is_another(first: &Option<Process>, digits: Option<&[u8]>) -> bool
    ensures { result ≡ is_another first.now (option_map (λ digits. digits.now) digits.entry) }
{
    match (first, digits) {
        (Some(first), Some(digits)) => first.digits() != digits,
        _ => false,
    }
}

// What a line means in the log of this process.
#[tactic(auto, unfolding(crate::specs::Lines::line_of))]
pub(crate) fn line_of(process: &Option<Process>, line: &[u8]) -> Result<Option<Access>, LineFault>
    ensures meaning { result ≡ line_of process.now line.now }
    ensures valid { IfOk result (λ found. IfSome found IsAccess) }
{
    if is_another(process, process_of(line)) {
        return Err(LineFault::AnotherProcess);
    }
    if line.is_empty() || is_marked(line) {
        return Ok(None);
    }
    let access = access_of(line)?;
    Ok(Some(access))
}
