// How steps become items of a trace.
ghost use Rattle.std.specs.Prelude.{◌≡◌, ◌<◌, ◌≤◌, ◌↔◌, ◌^◌, ◌++◌, length, [], ◌∷◌, true, All, None, Err, IsTrue, IfOk, IfSome, OnErr, OnOk};
ghost use Rattle.vm_trace.specs.declared.error.PushError.TheVariants.{Fault};
ghost use Rattle.vm_trace.specs.declared.error.TraceError.{TraceError};
ghost use Rattle.vm_trace.specs.Entries.{action_at, bytes_of, Keeps};
ghost use Rattle.vm_trace.specs.Limits.{IsStep};
ghost use Rattle.vm_trace.specs.Entering.{KeepsHex, LeavesHex, IsItemOf};
ghost use Rattle.vm_trace.specs.Sized.{steps_in};
ghost use Rattle.vm_trace.specs.TextSteps.{HasRow, list_of, listed};

use crate::bytes::pair_of;
use crate::entry::Item;
use crate::error::{PushError, TraceError};
use crate::limits::StepLimits;
use crate::parse::steps_of;
use crate::plain::{plain_access, plain_item};
use crate::step::Action;
use crate::text_steps::{Row, TextSteps, are_within};
use std::alloc::AllocError;

// The place behind the last byte, if it has 32 bits.
fn next_place(store: &Vec<u8>) -> Result<u32, AllocError>
    ensures place { IfOk result (λ start. start ≡ length store.now.items) }
    ensures full { OnErr result (2 ^ 32 ≤ length store.now.items) }
{
    u32::try_from(store.len()).map_err(|_| AllocError)
}

// Puts the bytes of a step behind the others and gives their place.
pub(crate) fn keep(store: &mut Vec<u8>, bytes: &[u8]) -> Result<u32, AllocError>
    ensures place { IfOk result (λ start. start ≡ length store.old.items) }
    ensures ok { OnOk result (store.new.items ≡ store.old.items ++ bytes.now) }
    ensures err { OnErr result (store.new.items ≡ store.old.items) }
{
    let start = next_place(store)?;
    store.extend_from_slice(bytes)?;
    Ok(start)
}

// Puts the byte that two hexadecimal digits spell behind the others and gives its place; `None` for other characters.
fn keep_pair(store: &mut Vec<u8>, high: u8, low: u8) -> Result<Option<u32>, AllocError>
    ensures kept { IfOk result (λ found. IfSome found (KeepsHex (high ∷ low ∷ []) store.old.items store.new.items)) }
    ensures none { IfOk result (λ found. found ≡ None → LeavesHex (high ∷ low ∷ []) store.old.items store.new.items) }
    ensures err { OnErr result (store.new.items ≡ store.old.items) }
{
    let Some(byte) = pair_of(high, low) else {
        return Ok(None);
    };
    let start = next_place(store)?;
    store.push(byte)?;
    Ok(Some(start))
}

// Puts the bytes that a text spells in hexadecimal digits behind the others, in one pass, and gives their place; `None` for another
// text. Inlined, so that the loop keeps the store's fields at hand.
#[inline(always)]
pub(crate) fn keep_pairs(store: &mut Vec<u8>, text: &[u8]) -> Result<Option<u32>, AllocError>
    ensures kept { IfOk result (λ found. IfSome found (KeepsHex text.now store.old.items store.new.items)) }
    ensures none { IfOk result (λ found. found ≡ None → LeavesHex text.now store.old.items store.new.items) }
    ensures err { OnErr result (store.new.items ≡ store.old.items) }
{
    if text.len() % 2 != 0 {
        return Ok(None);
    }
    let start = next_place(store)?;
    store.reserve(text.len() / 2)?;
    let mut left = text;
    while let [high, low, rest @ ..] = left {
        let Some(byte) = pair_of(*high, *low) else {
            store.truncate(start as usize);
            return Ok(None);
        };
        store.push_reserved(byte);
        left = rest;
    }
    Ok(Some(start))
}

// As `keep_pairs`. Most writes have one byte, for which no room is asked and no loop begun.
#[inline(always)]
pub(crate) fn keep_hex(store: &mut Vec<u8>, text: &[u8]) -> Result<Option<u32>, AllocError>
    ensures kept { IfOk result (λ found. IfSome found (KeepsHex text.now store.old.items store.new.items)) }
    ensures none { IfOk result (λ found. found ≡ None → LeavesHex text.now store.old.items store.new.items) }
    ensures err { OnErr result (store.new.items ≡ store.old.items) }
{
    if let [high, low] = *text {
        keep_pair(store, high, low)
    } else {
        keep_pairs(store, text)
    }
}

// The item of an action, whose bytes it puts behind the others.
pub(crate) fn item_of(store: &mut Vec<u8>, action: Action) -> Result<Item, AllocError>
    requires { IsStep action }
    ensures item { IfOk result (λ item. Keeps store.new.items item (action ∷ [])) }
    ensures ok { OnOk result (store.new.items ≡ store.old.items ++ bytes_of action) }
    ensures err { OnErr result (store.new.items ≡ store.old.items) }
{
    Ok(match action {
        Action::Read { page, offset, len } => Item::Read { len, offset, page },
        Action::Write {
            page,
            offset,
            bytes,
        } => Item::Write {
            len: bytes.len() as u8,
            offset,
            page,
            start: keep(store, bytes.as_slice())?,
        },
        Action::Touch { page } => Item::Touch { page, count: 1 },
        Action::Free { page } => Item::Free { page, count: 1 },
        Action::Idle => Item::Idle,
        Action::Yield => Item::Yield,
        Action::Post { queue, bytes } => Item::Post {
            queue,
            len: bytes.len() as u16,
            start: keep(store, bytes.as_slice())?,
        },
        Action::Actual { pages } => Item::Actual { pages },
    })
}

// The steps that a text stands for within these limits, in a guest with this many pages.
fn steps_in(text: &str, limits: StepLimits, size: u32) -> Result<TextSteps, TraceError>
    requires some { 1 ≤ limits.pages }
    requires few { limits.pages ≤ 262144 }
    ensures steps { listed result ≡ steps_in limits size text.now }
    ensures row { IfOk result (HasRow 262144) }
{
    let steps = steps_of(text, limits)?;
    if !are_within(&steps, size) {
        return Err(TraceError::Range);
    }
    Ok(steps)
}

// The item of a text that is not spelled plainly, or the text's fault.
#[cold]
fn other_item(
    store: &mut Vec<u8>,
    text: &str,
    limits: StepLimits,
    size: u32,
) -> Result<Item, PushError>
    requires some { 1 ≤ limits.pages }
    requires few { limits.pages ≤ 262144 }
    ensures item { IfOk result (IsItemOf limits size text.now store.old.items store.new.items) }
    ensures fault { (fault : TraceError) → result ≡ Err (Fault fault) → steps_in limits size text.now ≡ Err fault }
    ensures err { OnErr result (store.new.items ≡ store.old.items) }
{
    match steps_in(text, limits, size)? {
        TextSteps::One(action) => Ok(item_of(store, action)?),
        TextSteps::Touches(Row { page, count }) => Ok(Item::Touch { page, count }),
        TextSteps::Frees(Row { page, count }) => Ok(Item::Free { page, count }),
    }
}

// The item of a read or a write that is spelled plainly, whose bytes it puts behind the others; `None` for another text.
#[inline(always)]
pub(crate) fn access_of_text(
    store: &mut Vec<u8>,
    text: &str,
    limits: StepLimits,
    size: u32,
) -> Result<Option<Item>, AllocError>
    requires { limits.pages ≤ 262144 }
    ensures item { IfOk result (λ found. IfSome found (IsItemOf limits size text.now store.old.items store.new.items)) }
    ensures none { IfOk result (λ found. found ≡ None → store.new.items ≡ store.old.items) }
    ensures err { OnErr result (store.new.items ≡ store.old.items) }
{
    let both = StepLimits {
        pages: limits.pages.min(size),
        version_3: limits.version_3,
    };
    let Some(item) = plain_access(store, text.as_bytes(), both)? else {
        return Ok(None);
    };
    Ok(Some(item))
}

// The item of the steps that a text stands for, whose bytes it puts behind the others: of a text for which `access_of_text` has none.
pub(crate) fn item_of_text(
    store: &mut Vec<u8>,
    text: &str,
    limits: StepLimits,
    size: u32,
) -> Result<Item, PushError>
    requires some { 1 ≤ limits.pages }
    requires few { limits.pages ≤ 262144 }
    ensures item { IfOk result (IsItemOf limits size text.now store.old.items store.new.items) }
    ensures fault { (fault : TraceError) → result ≡ Err (Fault fault) → steps_in limits size text.now ≡ Err fault }
    ensures err { OnErr result (store.new.items ≡ store.old.items) }
{
    let both = StepLimits {
        pages: limits.pages.min(size),
        version_3: limits.version_3,
    };
    if let Some(item) = plain_item(store, text.as_bytes(), both)? {
        return Ok(item);
    }
    other_item(store, text, limits, size)
}
