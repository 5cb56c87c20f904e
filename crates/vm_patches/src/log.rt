// What was written to a page, stretch by stretch.
ghost use Rattle.std.specs.Prelude.{◌≡◌, ℕ, ◌+◌, ◌<◌, ◌≤◌, ◌++◌, [], All, IsTrue, List, SomeIff, length, slice_range};
ghost use Rattle.std.specs.Bool.{OnTrue, OnFalse};
ghost use Rattle.vm_patches.specs.Patches.{overwritten, patched, writes_of, zero_bytes};
ghost use Rattle.vm_patches.specs.Runs.{length_of, offset_of, total, writes_in, IsWithinPage};

use crate::patch::{PATCH_BYTES, Patch};
use std::marker::Model;
use vm_frames::PAGE_BYTES;

// How many stretches a log has room for, and how many bytes.
const RUNS: usize = 20;

const LOG_BYTES: usize = 76;

// The longest stretch, which is the longest write of a step.
const RUN_BYTES: usize = 16;

// Where a stretch of bytes was written. Its offset and its length stand in one word, so that twenty of them take 40 bytes.
#[derive(Clone, Copy)]
pub(crate) struct Run {
    word: u16,
}

impl Run {
    fn new(offset: usize, len: usize) -> Run
        requires inside { offset < PAGE_BYTES }
        requires some { 0 < len }
        requires short { len ≤ RUN_BYTES }
        ensures offset { offset_of result ≡ offset }
        ensures length { length_of result ≡ len }
    {
        Run {
            word: (offset + PAGE_BYTES * (len - 1)) as u16,
        }
    }

    pub(crate) fn offset(self) -> usize
        ensures { result ≡ offset_of self }
    {
        usize::from(self.word) % PAGE_BYTES
    }

    pub(crate) fn len(self) -> usize
        ensures { result ≡ length_of self }
    {
        usize::from(self.word) / PAGE_BYTES + 1
    }
}

/// What was written to a page, where that has room in some 120 bytes: at most 20 stretches of at most 16 bytes, 76 bytes in all, each
/// counted as often as it was written.
///
/// A contract sees it as the list of the writes of single bytes, in the order in which they came, as it does a [`Patch`], than which it
/// has more room. No call takes memory, and each takes time for the bytes that it is given and for the stretches of the log.
#[derive(Drop)]
pub struct Log {
    // How many stretches there are, and how many bytes they have altogether.
    count: u8,
    used: u8,
    runs: [Run; RUNS],
    // Those of each stretch behind those of the one before.
    bytes: [u8; LOG_BYTES],
}

impl Model for Log {
    ghost use Rattle.std.specs.Prelude.{List, take};
    ghost use Rattle.vm_patches.specs.declared.patch.ByteWrite.{ByteWrite};
    ghost use Rattle.vm_patches.specs.Runs.{writes_in, IsLog};

    ghost Value = { List ByteWrite };

    ghost view = { λ l. writes_in (take l.count l.runs) l.bytes };

    ghost invariant = { λ l. IsLog l.count l.used l.runs };
}

impl Log {
    /// A log that changes nothing.
    pub fn new() -> Log
        ensures { result ≡ [] }
    {
        Log {
            count: 0,
            used: 0,
            runs: [Run { word: 0 }; RUNS],
            bytes: [0; LOG_BYTES],
        }
    }

    /// Writes bytes from `offset` on, where they have room, and answers whether they had. At most 16 always have, where the log has no
    /// more than 20 with them.
    pub fn write(&mut self, offset: usize, bytes: &[u8]) -> bool
        requires { offset + length bytes.now ≤ PAGE_BYTES }
        ensures written { OnTrue result (self.new ≡ self.old ++ writes_of offset bytes.now) }
        ensures unchanged { OnFalse result (self.new ≡ self.old) }
        ensures room { length bytes.now ≤ 16 → length self.old + length bytes.now ≤ 20 → IsTrue result }
    {
        let count = usize::from(self.count);
        let used = usize::from(self.used);
        let len = bytes.len();
        if len == 0 {
            return true;
        }
        if len > RUN_BYTES || count == RUNS || len > LOG_BYTES - used {
            return false;
        }
        self.runs[count] = Run::new(offset, len);
        self.bytes[used..used + len].copy_from_slice(bytes);
        self.count += 1;
        self.used += len as u8;
        true
    }

    /// Copies bytes of a page of zeros, from `offset` on, as they are after the writes.
    pub fn read(&self, offset: usize, bytes: &mut [u8])
        requires { offset + length bytes.old ≤ PAGE_BYTES }
        ensures { bytes.new ≡ slice_range (patched zero_bytes self.now) offset (offset + length bytes.old) }
    {
        bytes.fill(0);
        let (runs, written) = self.parts();
        lay_over(runs, written, offset, bytes);
    }

    // The stretches, of which the first comes first, and their bytes.
    pub(crate) fn parts(&self) -> (&[Run], &[u8])
        ensures is { writes_in result.0.now result.1.now ≡ self.now }
        ensures within { All IsWithinPage result.0.now }
        ensures counted { total result.0.now ≤ length result.1.now }
    {
        (&self.runs[..usize::from(self.count)], &self.bytes)
    }

    // The same writes as a patch, exactly where it has room for them.
    pub(crate) fn to_patch(&self) -> Option<Patch>
        ensures { SomeIff result (length self.now ≤ PATCH_BYTES) self.now }
    {
        if usize::from(self.used) > PATCH_BYTES {
            return None;
        }
        let (runs, written) = self.parts();
        patch_of(runs, written)
    }
}

// The writes as a patch, exactly where it has room for them.
fn patch_of(runs: &[Run], written: &[u8]) -> Option<Patch>
    requires within { All IsWithinPage runs.now }
    requires counted { total runs.now ≤ length written.now }
    ensures { SomeIff result (total runs.now ≤ PATCH_BYTES) (writes_in runs.now written.now) }
{
    let mut patch = Patch::new();
    let mut at = 0;
    for &run in runs {
        let end = at + run.len();
        if !patch.has_room(run.len()) {
            return None;
        }
        patch.write(run.offset(), &written[at..end]);
        at = end;
    }
    Some(patch)
}

// Makes of bytes that a page has from `offset` on those that it has there after the writes.
fn lay_over(runs: &[Run], written: &[u8], offset: usize, bytes: &mut [u8])
    requires inside { offset + length bytes.old ≤ PAGE_BYTES }
    requires within { All IsWithinPage runs.now }
    requires counted { total runs.now ≤ length written.now }
    ensures { (page : List ℕ) → length page ≡ PAGE_BYTES → bytes.old ≡ slice_range page offset (offset + length bytes.old)
        → bytes.new ≡ slice_range (patched page (writes_in runs.now written.now)) offset (offset + length bytes.old) }
{
    let mut at = 0;
    for &run in runs {
        let end = at + run.len();
        lay(run.offset(), &written[at..end], offset, bytes);
        at = end;
    }
}

// The same of one stretch, from `start` on.
#[inline(always)]
fn lay(start: usize, stretch: &[u8], offset: usize, bytes: &mut [u8])
    requires inside { offset + length bytes.old ≤ PAGE_BYTES }
    requires within { start + length stretch.now ≤ PAGE_BYTES }
    ensures length { length bytes.new ≡ length bytes.old }
    ensures laid { (page : List ℕ) → length page ≡ PAGE_BYTES → bytes.old ≡ slice_range page offset (offset + length bytes.old)
        → bytes.new ≡ slice_range (overwritten page start stretch.now) offset (offset + length bytes.old) }
{
    let end = start + stretch.len();
    let last = offset + bytes.len();
    if start < last && offset < end {
        let from = start.max(offset);
        let to = end.min(last);
        bytes[from - offset..to - offset].copy_from_slice(&stretch[from - start..to - start]);
    }
}
