// Steps as a trace keeps them.
ghost use Rattle.std.specs.Prelude.{◌≡◌, ℕ, ◌+◌, ◌<◌, ◌≤◌, List, length};
ghost use Rattle.vm_trace.specs.Limits.{HasFewBytes};
ghost use Rattle.vm_trace.specs.Entries.{action_at, bytes_at, bytes_of, count_of, end_of, page_of};
ghost use Rattle.vm_trace.specs.Kinds.{with_bytes};

use crate::buffer::Buffer;
use crate::bytes::Bytes;
use crate::kind::StepKind;
use crate::step::{Action, Queue};

// One step, or touches or frees of as many pages as are counted. The bytes of a write and of a raw buffer lie in one list beside all
// entries, `len` of them from `start` on. So each item has the same small size, whatever its bytes.
#[derive(Clone, Copy)]
pub(crate) enum Item {
    Read {
        len: u8,
        offset: u16,
        page: u32,
    },
    Write {
        len: u8,
        offset: u16,
        page: u32,
        start: u32,
    },
    Touch {
        page: u32,
        count: u32,
    },
    Free {
        page: u32,
        count: u32,
    },
    Idle,
    Yield,
    Post {
        queue: Queue,
        len: u16,
        start: u32,
    },
    Actual {
        pages: u32,
    },
}

// An item, and the number of the steps before it.
#[derive(Clone, Copy)]
pub(crate) struct Entry {
    pub(crate) first: u32,
    pub(crate) item: Item,
}

const _: () = prove!(size_of::<Entry>() == 16);

// A step of an item, and how many of the item's steps come before it.
#[derive(Clone, Copy)]
pub(crate) struct Part {
    pub(crate) item: Item,
    pub(crate) before: u32,
}

// How many steps an item is.
pub(crate) fn count_of(item: Item) -> u32
    ensures { result ≡ count_of item }
{
    match item {
        Item::Touch { count, .. } => count,
        Item::Free { count, .. } => count,
        _ => 1,
    }
}

// The bytes from `start` on.
fn bytes_at(bytes: &[u8], start: u32, len: u8) -> Bytes
    requires within { start + len ≤ length bytes.now }
    requires few { len ≤ 64 }
    ensures { result ≡ bytes_at bytes.now start len }
{
    let start = start as usize;
    Bytes::from_slice(&bytes[start..start + len as usize])
}

// The raw buffer from `start` on.
fn buffer_at(bytes: &[u8], start: u32, len: u16) -> Buffer
    requires within { start + len ≤ length bytes.now }
    requires few { len ≤ 1024 }
    ensures { result ≡ bytes_at bytes.now start len }
{
    let start = start as usize;
    Buffer::from_slice(&bytes[start..start + len as usize])
}

// The action of a step, with these bytes beside it.
pub(crate) fn action_at(bytes: &[u8], part: Part) -> Action
    requires within { end_of part.item ≤ length bytes.now }
    requires few { HasFewBytes (action_at bytes.now part.item part.before) }
    requires page { page_of part.item + part.before < 262144 }
    ensures { result ≡ action_at bytes.now part.item part.before }
{
    match part.item {
        Item::Read { page, offset, len } => Action::Read { page, offset, len },
        Item::Write {
            page,
            start,
            offset,
            len,
        } => Action::Write {
            page,
            offset,
            bytes: bytes_at(bytes, start, len),
        },
        Item::Touch { page, .. } => Action::Touch {
            page: page + part.before,
        },
        Item::Free { page, .. } => Action::Free {
            page: page + part.before,
        },
        Item::Idle => Action::Idle,
        Item::Yield => Action::Yield,
        Item::Post { queue, start, len } => Action::Post {
            queue,
            bytes: buffer_at(bytes, start, len),
        },
        Item::Actual { pages } => Action::Actual { pages },
    }
}

// What a step does that has so many of its item's before it, whatever the bytes beside it.
#[inline(always)]
pub(crate) fn kind_of(item: &Item, before: u32) -> StepKind
    requires { page_of item.now + before < 262144 }
    ensures { (bytes : List ℕ) → action_at bytes item.now before ≡ with_bytes result (bytes_of (action_at bytes item.now before)) }
{
    match *item {
        Item::Read { page, offset, len } => StepKind::Read { page, offset, len },
        Item::Write { page, offset, .. } => StepKind::Write { page, offset },
        Item::Touch { page, .. } => StepKind::Touch {
            page: page + before,
        },
        Item::Free { page, .. } => StepKind::Free {
            page: page + before,
        },
        Item::Idle => StepKind::Idle,
        Item::Yield => StepKind::Yield,
        Item::Post { queue, .. } => StepKind::Post { queue },
        Item::Actual { pages } => StepKind::Actual { pages },
    }
}

// The bytes that each step of an item brings along, where they lie.
#[inline(always)]
pub(crate) fn bytes_of<'a>(bytes: &'a [u8], item: &Item) -> &'a [u8]
    requires within { end_of item.now ≤ length bytes.now }
    ensures { (before : ℕ) → result.now ≡ bytes_of (action_at bytes.now item.now before) }
{
    match *item {
        Item::Write { start, len, .. } => &bytes[start as usize..start as usize + len as usize],
        Item::Post { start, len, .. } => &bytes[start as usize..start as usize + len as usize],
        _ => &[],
    }
}
