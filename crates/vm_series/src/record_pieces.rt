// The pieces of records, whose numbers are put together from their end.
ghost use Rattle.std.specs.Prelude.{◌≡◌, ◌+◌, ◌≤◌, ◌∷◌, ◌++◌, drop, length};
ghost use Rattle.std.specs.Fmt.{decimal};
ghost use Rattle.vm_series.specs.Csv.{flag, number_or_empty};
ghost use Rattle.vm_series.specs.Records.{comma_then, head_text, view_text};

use crate::rows::{EpochRow, evicted_of};
use itoa::write_digits;
use vm_host::GuestView;

// Room for eleven fields, each a comma and a number of at most twenty digits, and for the end.
const ROOM: usize = 240;

// Puts a byte before a place, and returns where it stands.
#[inline(always)]
fn put_byte(line: &mut [u8], end: usize, byte: u8) -> usize
    requires room { 1 ≤ end }
    requires inside { end ≤ length line.old }
    ensures start { result + 1 ≡ end }
    ensures written { drop result line.new ≡ byte ∷ drop end line.old }
{
    line[end - 1] = byte;
    end - 1
}

// Puts the digits of a number, of which there are at most twenty, before a place, and returns where they start.
#[inline(always)]
fn put_digits(line: &mut [u8], end: usize, number: u64) -> usize
    requires room { 20 ≤ end }
    requires inside { end ≤ length line.old }
    ensures start { result ≤ end }
    ensures short { end ≤ result + 20 }
    ensures written { drop result line.new ≡ decimal number ++ drop end line.old }
{
    write_digits(number, line, end)
}

// Puts a comma and a number before a place.
fn put_number(line: &mut [u8], end: usize, number: u64) -> usize
    requires room { 21 ≤ end }
    requires inside { end ≤ length line.old }
    ensures start { result ≤ end }
    ensures short { end ≤ result + 21 }
    ensures written { drop result line.new ≡ comma_then (decimal number) (drop end line.old) }
{
    let digits = put_digits(line, end, number);
    put_byte(line, digits, b',')
}

// Puts a comma and a number, or an empty field, before a place.
fn put_optional(line: &mut [u8], end: usize, number: Option<u32>) -> usize
    requires room { 21 ≤ end }
    requires inside { end ≤ length line.old }
    ensures start { result ≤ end }
    ensures short { end ≤ result + 21 }
    ensures written { drop result line.new ≡ comma_then (number_or_empty number) (drop end line.old) }
{
    match number {
        Some(number) => put_number(line, end, u64::from(number)),
        None => put_byte(line, end, b','),
    }
}

// Puts a comma and a flag before a place.
fn put_flag(line: &mut [u8], end: usize, is_set: bool) -> usize
    requires room { 2 ≤ end }
    requires inside { end ≤ length line.old }
    ensures start { result + 2 ≡ end }
    ensures written { drop result line.new ≡ comma_then (flag is_set) (drop end line.old) }
{
    let digit = put_byte(line, end, if is_set { b'1' } else { b'0' });
    put_byte(line, digit, b',')
}

// Puts a comma and a word before a place.
fn put_word(line: &mut [u8], end: usize, word: &str) -> usize
    requires room { length word.now + 1 ≤ end }
    requires inside { end ≤ length line.old }
    ensures start { result + length word.now + 1 ≡ end }
    ensures written { drop result line.new ≡ comma_then word.now (drop end line.old) }
{
    let bytes = word.as_bytes();
    let start = end - bytes.len();
    line[start..end].copy_from_slice(bytes);
    put_byte(line, start, b',')
}

// A place in which pieces are put together.
pub(crate) type Line = [u8; ROOM];

pub(crate) const EMPTY_LINE: Line = [0; ROOM];

// Puts what the records of an epoch have in common at the end of a line, and returns where it starts.
#[tactic(auto, unfolding(crate::specs::Records::head_text))]
pub(crate) fn put_head(line: &mut Line, row: &EpochRow) -> usize
    ensures inside { result ≤ 240 }
    ensures written { drop result line.new ≡ head_text row.now }
{
    let free = put_number(line, ROOM, u64::from(row.free()));
    let state = put_word(line, free, row.state().as_str());
    put_digits(line, state, u64::from(row.epoch()))
}

// Puts what stands behind the name of a guest at the end of a line, and returns where it starts.
#[tactic(auto, unfolding(crate::specs::Records::view_text))]
pub(crate) fn put_view(line: &mut Line, view: &GuestView) -> usize
    ensures inside { result ≤ 240 }
    ensures written { drop result line.new ≡ view_text view.now }
{
    let line_feed = put_byte(line, ROOM, b'\n');
    let end = put_byte(line, line_feed, b'\r');
    let done = put_number(line, end, u64::from(view.done));
    let evicted = put_number(line, done, evicted_of(view));
    let stalled = put_optional(line, evicted, view.stalled);
    let blocked = put_flag(line, stalled, view.blocked);
    let demand = put_number(line, blocked, view.demand);
    let active = put_number(line, demand, u64::from(view.active));
    let balloon = put_number(line, active, u64::from(view.balloon));
    let swapped = put_number(line, balloon, u64::from(view.swapped));
    let resident = put_number(line, swapped, u64::from(view.resident));
    let held = put_number(line, resident, u64::from(view.held));
    put_number(line, held, u64::from(view.target))
}
