// Reads texts that are spelled plainly, in one pass and without a list of their words: raw buffers, letters alone, reads and writes
// whose page has at most 6 digits, their offset 4 and their length 2, and touches and frees, whose page has at most 6 digits and their
// count 8.
ghost use Rattle.std.specs.Prelude.{◌≡◌, ◌≤◌, ℕ, List, ◌∷◌, None, length, true, IfOk, IfSome, OnErr, IsTrue};
ghost use Rattle.vm_trace.specs.Limits.{IsAccess};
ghost use Rattle.vm_trace.specs.Spelling.{IsNumeral};
ghost use Rattle.vm_trace.specs.Entering.{IsDecimal, IsField, IsPlace, IsRowOf, IsEntered, IsEnteredAt};

use crate::entering::{keep_hex, keep_pairs};
use crate::entry::Item;
use crate::limits::{StepLimits, most_posted};
use crate::parse::{MAX_ACCESS, PAGE_BYTES, queue_of};
use crate::text_steps::Row;
use std::alloc::AllocError;

// The most digits of a page that is read plainly: so many have all pages of the greatest guest.
const PAGE_DIGITS: usize = 6;

// The most digits of an offset that is read plainly.
const OFFSET_DIGITS: usize = 4;

// The most digits of a number that is read plainly where it ends the text.
const LAST_DIGITS: usize = 8;

// A number in front of a text, and what stands behind its space.
#[derive(Clone, Copy)]
struct Field<'a> {
    number: u32,
    rest: &'a [u8],
}

// A place in a page in front of a text, and what stands behind it.
#[derive(Clone, Copy)]
struct Place<'a> {
    page: u32,
    offset: u32,
    rest: &'a [u8],
}

// The value of a decimal digit, by one comparison.
fn decimal(byte: u8) -> Option<u32>
    ensures { IfSome result (λ n. IsDecimal byte n) }
{
    let value = u32::from(byte).wrapping_sub(u32::from(b'0'));
    if value < 10 { Some(value) } else { None }
}

// The number in front of a text, which a space among the first `end` bytes ends.
#[inline(always)]
fn number_within(text: &[u8], end: usize) -> Option<Field<'_>>
    requires inside { end ≤ length text.now }
    requires short { end ≤ 9 }
    ensures { IfSome result (λ f. IsField text.now f.number f.rest.now) }
{
    let mut number = 0;
    for place in 0..end {
        let Some(digit) = decimal(text[place]) else {
            if place == 0 || text[place] != b' ' {
                return None;
            }
            return Some(Field {
                number,
                rest: &text[place + 1..],
            });
        };
        number = 10 * number + digit;
    }
    None
}

// The number of at most so many digits in front of a text, which a space ends. Where the text is long enough, the loop has a
// known end and is unrolled.
#[inline(always)]
fn number_before_space(text: &[u8], digits: usize) -> Option<Field<'_>>
    requires { digits ≤ 8 }
    ensures { IfSome result (λ f. IsField text.now f.number f.rest.now) }
{
    if digits < text.len() {
        number_within(text, digits + 1)
    } else {
        number_within(text, text.len())
    }
}

// The number of one or two digits that a text is.
fn last(text: &[u8]) -> Option<u32>
    ensures { IfSome result (λ n. IsNumeral text.now n) }
{
    match *text {
        [ones] => decimal(ones),
        [tens, ones] => Some(10 * decimal(tens)? + decimal(ones)?),
        _ => None,
    }
}

// The number of at most 8 digits that a text is.
#[inline(always)]
fn number_alone(text: &[u8]) -> Option<u32>
    ensures { IfSome result (λ n. IsNumeral text.now n) }
{
    if text.is_empty() || text.len() > LAST_DIGITS {
        return None;
    }
    let mut number = 0;
    for place in 0..text.len() {
        let digit = decimal(text[place])?;
        number = 10 * number + digit;
    }
    Some(number)
}

// PAGE OFFSET in front of a text.
#[inline(always)]
fn place_in_front(text: &[u8], pages: u32) -> Option<Place<'_>>
    ensures { IfSome result (λ p. IsPlace pages text.now p.page p.offset p.rest.now) }
{
    let page = number_before_space(text, PAGE_DIGITS)?;
    let offset = number_before_space(page.rest, OFFSET_DIGITS)?;
    if page.number >= pages {
        return None;
    }
    Some(Place {
        page: page.number,
        offset: offset.number,
        rest: offset.rest,
    })
}

// Whether so many bytes from an offset on are ones that a step may read or write.
fn is_access(offset: u32, len: usize) -> bool
    ensures { IsTrue result → IsAccess offset len }
{
    1 <= len && len <= MAX_ACCESS as usize && offset as usize + len <= PAGE_BYTES as usize
}

// PAGE COUNT, which the text is.
#[inline(always)]
fn plain_row(text: &[u8], pages: u32) -> Option<Row>
    ensures { IfSome result (IsRowOf pages text.now) }
{
    let page = number_before_space(text, PAGE_DIGITS)?;
    let count = number_alone(page.rest)?;
    if count == 0 || page.number >= pages || count > pages - page.number {
        return None;
    }
    Some(Row {
        page: page.number,
        count,
    })
}

// The item of PAGE OFFSET LEN, behind the letter of a read.
#[inline(always)]
fn read(place: Place<'_>) -> Option<Item>
    ensures { IfSome result (λ item. (bytes : List ℕ) → IsEnteredAt 114 place.entry.page place.entry.offset place.entry.rest.now bytes bytes item) }
{
    let len = last(place.rest)?;
    if !is_access(place.offset, len as usize) {
        return None;
    }
    Some(Item::Read {
        len: len as u8,
        offset: place.offset as u16,
        page: place.page,
    })
}

// The item of PAGE OFFSET HEX, behind the letter of a write, whose bytes are put behind the others.
#[inline(always)]
fn write(store: &mut Vec<u8>, place: Place<'_>) -> Result<Option<Item>, AllocError>
    ensures item { IfOk result (λ found. IfSome found (IsEnteredAt 119 place.entry.page place.entry.offset place.entry.rest.now store.old.items store.new.items)) }
    ensures none { IfOk result (λ found. found ≡ None → store.new.items ≡ store.old.items) }
    ensures err { OnErr result (store.new.items ≡ store.old.items) }
{
    let len = place.rest.len() / 2;
    if !is_access(place.offset, len) {
        return Ok(None);
    }
    let Some(start) = keep_hex(store, place.rest)? else {
        return Ok(None);
    };
    Ok(Some(Item::Write {
        len: len as u8,
        offset: place.offset as u16,
        page: place.page,
        start,
    }))
}

// The item of a raw buffer, p QUEUE HEX, whose bytes are put behind the others.
fn post(store: &mut Vec<u8>, text: &[u8], limits: StepLimits) -> Result<Option<Item>, AllocError>
    ensures item { IfOk result (λ found. IfSome found (IsEntered limits text.now store.old.items store.new.items)) }
    ensures none { IfOk result (λ found. found ≡ None → store.new.items ≡ store.old.items) }
    ensures err { OnErr result (store.new.items ≡ store.old.items) }
{
    let [b'p', b' ', _, b' ', digits @ ..] = text else {
        return Ok(None);
    };
    let Ok(queue) = queue_of(&text[2..3]) else {
        return Ok(None);
    };
    let len = digits.len() / 2;
    if len == 0 || len > most_posted(limits) {
        return Ok(None);
    }
    let Some(start) = keep_pairs(store, digits)? else {
        return Ok(None);
    };
    Ok(Some(Item::Post {
        queue,
        len: len as u16,
        start,
    }))
}

// The item of a letter alone.
fn letter(text: &[u8], limits: StepLimits) -> Option<Item>
    ensures { IfSome result (λ item. (bytes : List ℕ) → IsEntered limits text.now bytes bytes item) }
{
    match *text {
        [b'i'] => Some(Item::Idle),
        [b'y'] if limits.version_3 => Some(Item::Yield),
        _ => None,
    }
}

// The item of t PAGE COUNT, with the rest of the text behind its letter.
fn touches(rest: &[u8], limits: StepLimits) -> Option<Item>
    ensures { IfSome result (λ item. (bytes : List ℕ) → IsEntered limits (116 ∷ 32 ∷ rest.now) bytes bytes item) }
{
    if !limits.version_3 {
        return None;
    }
    let row = plain_row(rest, limits.pages)?;
    Some(Item::Touch {
        page: row.page,
        count: row.count,
    })
}

// The item of f PAGE, with the rest of the text behind its letter.
fn free(rest: &[u8], limits: StepLimits) -> Option<Item>
    ensures { IfSome result (λ item. (bytes : List ℕ) → IsEntered limits (102 ∷ 32 ∷ rest.now) bytes bytes item) }
{
    let page = number_alone(rest)?;
    if page >= limits.pages {
        return None;
    }
    Some(Item::Free { page, count: 1 })
}

// The item of f PAGE or f PAGE COUNT, with the rest of the text behind its letter.
fn frees(rest: &[u8], limits: StepLimits) -> Option<Item>
    ensures { IfSome result (λ item. (bytes : List ℕ) → IsEntered limits (102 ∷ 32 ∷ rest.now) bytes bytes item) }
{
    if let Some(item) = free(rest, limits) {
        return Some(item);
    }
    if !limits.version_3 {
        return None;
    }
    let row = plain_row(rest, limits.pages)?;
    Some(Item::Free {
        page: row.page,
        count: row.count,
    })
}

// The item of a N, with the rest of the text behind its letter.
fn actual(rest: &[u8], limits: StepLimits) -> Option<Item>
    ensures { IfSome result (λ item. (bytes : List ℕ) → IsEntered limits (97 ∷ 32 ∷ rest.now) bytes bytes item) }
{
    if !limits.version_3 {
        return None;
    }
    let pages = number_alone(rest)?;
    Some(Item::Actual { pages })
}

// The item of a read or a write that is spelled plainly, and `None` for another text, which need not be faulty.
#[inline(always)]
pub(crate) fn plain_access(
    store: &mut Vec<u8>,
    text: &[u8],
    limits: StepLimits,
) -> Result<Option<Item>, AllocError>
    ensures item { IfOk result (λ found. IfSome found (IsEntered limits text.now store.old.items store.new.items)) }
    ensures none { IfOk result (λ found. found ≡ None → store.new.items ≡ store.old.items) }
    ensures err { OnErr result (store.new.items ≡ store.old.items) }
{
    let [kind, b' ', rest @ ..] = text else {
        return Ok(None);
    };
    if *kind != b'r' && *kind != b'w' {
        return Ok(None);
    }
    let Some(place) = place_in_front(rest, limits.pages) else {
        return Ok(None);
    };
    match *kind {
        b'r' => Ok(read(place)),
        b'w' => write(store, place),
        _ => Ok(None),
    }
}

// The item of another step that is spelled plainly, and `None` for another text, which need not be faulty.
pub(crate) fn plain_item(
    store: &mut Vec<u8>,
    text: &[u8],
    limits: StepLimits,
) -> Result<Option<Item>, AllocError>
    ensures item { IfOk result (λ found. IfSome found (IsEntered limits text.now store.old.items store.new.items)) }
    ensures none { IfOk result (λ found. found ≡ None → store.new.items ≡ store.old.items) }
    ensures err { OnErr result (store.new.items ≡ store.old.items) }
{
    let [kind, b' ', rest @ ..] = text else {
        return Ok(letter(text, limits));
    };
    match *kind {
        b't' => Ok(touches(rest, limits)),
        b'f' => Ok(frees(rest, limits)),
        b'a' => Ok(actual(rest, limits)),
        b'p' => post(store, text, limits),
        _ => Ok(None),
    }
}
