ghost use Rattle.std.specs.Prelude.{◌≡◌, ℕ, ◌+◌, ◌<◌, ◌≤◌, ◌++◌, ◌↔◌, [], All, IsTrue, List, length, slice_range, slice_set, take};
ghost use Rattle.vm_patches.specs.Patches.{AreWithin, patched, writes_of};

use std::marker::Model;
use vm_frames::PAGE_BYTES;

/// How many bytes a patch has room for.
pub const PATCH_BYTES: usize = 12;

/// A byte that is written at an offset of a page.
#[derive(Clone, Copy, Debug, Default, PartialEq, Eq)]
pub struct ByteWrite {
    /// Where in the page.
    pub offset: u16,
    /// What is there then.
    pub byte: u8,
}

/// What was written to a page, where that are few bytes: at most [`PATCH_BYTES`], each byte counted as often as it was written.
///
/// A contract sees it as the list of its writes, in the order in which they came. No call takes memory, and each takes time for
/// the bytes that it is given and for those of the patch.
#[derive(Drop)]
pub struct Patch {
    // How many of the places are taken, from the first one on.
    len: u16,
    writes: [ByteWrite; PATCH_BYTES],
}

impl Model for Patch {
    ghost use Rattle.std.specs.Prelude.{◌≡◌, ◌≤◌, List, length, take};
    ghost use Rattle.vm_patches.specs.declared.patch.ByteWrite.{ByteWrite};
    ghost use Rattle.vm_patches.specs.Patches.{AreWithin};

    ghost Value = { List ByteWrite };

    ghost view = { λ p. take p.len p.writes };

    ghost invariant = { λ p. (length p.writes ≡ 12) × (p.len ≤ 12) × AreWithin (take p.len p.writes) };
}

impl Patch {
    /// A patch that changes nothing.
    pub fn new() -> Patch
        ensures { result ≡ [] }
    {
        let unused = ByteWrite { offset: 0, byte: 0 };
        Patch {
            len: 0,
            writes: [unused; PATCH_BYTES],
        }
    }

    /// Whether so many bytes more have room.
    pub fn has_room(&self, more: usize) -> bool
        ensures { IsTrue result ↔ (length self.now + more ≤ PATCH_BYTES) }
    {
        more <= PATCH_BYTES - usize::from(self.len)
    }

    /// Writes bytes from `offset` on, which have room.
    pub fn write(&mut self, offset: usize, bytes: &[u8])
        requires room { length self.old + length bytes.now ≤ PATCH_BYTES }
        requires within { offset + length bytes.now ≤ PAGE_BYTES }
        ensures { self.new ≡ self.old ++ writes_of offset bytes.now }
    {
        add_writes(&mut self.writes, usize::from(self.len), offset, bytes);
        self.len += bytes.len() as u16;
    }

    // The writes, of which the first comes first.
    pub(crate) fn writes(&self) -> &[ByteWrite]
        ensures is { result.now ≡ self.now }
        ensures within { AreWithin result.now }
    {
        &self.writes[..usize::from(self.len)]
    }

    /// Copies bytes of a page, from `offset` on, as they are after the writes.
    pub fn read(&self, page: &[u8; PAGE_BYTES], offset: usize, bytes: &mut [u8])
        requires { offset + length bytes.old ≤ PAGE_BYTES }
        ensures { bytes.new ≡ slice_range (patched page.now self.now) offset (offset + length bytes.old) }
    {
        bytes.copy_from_slice(&page[offset..offset + bytes.len()]);
        lay_over(self.writes(), offset, bytes);
    }

    /// Brings the writes to a page.
    pub fn apply(&self, page: &mut [u8; PAGE_BYTES])
        ensures { page.new ≡ patched page.old self.now }
    {
        write_all(self.writes(), page);
    }
}

// Puts a write for each of the bytes behind the first `len`.
fn add_writes(writes: &mut [ByteWrite; PATCH_BYTES], len: usize, offset: usize, bytes: &[u8])
    requires room { len + length bytes.now ≤ PATCH_BYTES }
    requires within { offset + length bytes.now ≤ PAGE_BYTES }
    ensures places { length writes.new ≡ length writes.old }
    ensures added { take (len + length bytes.now) writes.new ≡ take len writes.old ++ writes_of offset bytes.now }
{
    for i in 0..bytes.len() {
        let at = (offset + i) as u16;
        writes[len + i] = ByteWrite {
            offset: at,
            byte: bytes[i],
        };
    }
}

// Makes of bytes that a page has from `offset` on those that it has there after the writes.
fn lay_over(writes: &[ByteWrite], offset: usize, bytes: &mut [u8])
    ensures { (page : List ℕ) → offset + length bytes.old ≤ length page → bytes.old ≡ slice_range page offset (offset + length bytes.old) → bytes.new ≡ slice_range (patched page writes.now) offset (offset + length bytes.old) }
{
    for &write in writes {
        lay(write, offset, bytes);
    }
}

// The same of one write.
fn lay(write: ByteWrite, offset: usize, bytes: &mut [u8])
    ensures length { length bytes.new ≡ length bytes.old }
    ensures laid { (page : List ℕ) → offset + length bytes.old ≤ length page → bytes.old ≡ slice_range page offset (offset + length bytes.old) → bytes.new ≡ slice_range (slice_set page write.offset write.byte) offset (offset + length bytes.old) }
{
    let at = usize::from(write.offset);
    if offset <= at && at - offset < bytes.len() {
        bytes[at - offset] = write.byte;
    }
}

// Brings writes to a page.
fn write_all(writes: &[ByteWrite], page: &mut [u8; PAGE_BYTES])
    requires { AreWithin writes.now }
    ensures { page.new ≡ patched page.old writes.now }
{
    for write in writes {
        page[usize::from(write.offset)] = write.byte;
    }
}
