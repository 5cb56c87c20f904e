// The lines of a page: which of them were written, a bit for each.
ghost use Rattle.std.specs.Prelude.{◌≡◌, ◌≢◌, ℕ, ◌+◌, ◌*◌, ◌/◌, ◌<◌, ◌≤◌, ◌==◌, true, if◌then◌else◌, All, length, slice_index, slice_range};
ghost use Rattle.vm_patches.specs.Patches.{overwritten, patched};
ghost use Rattle.vm_patches.specs.Runs.{total, writes_in, IsWithinPage};
ghost use Rattle.vm_patches.specs.Lines.{is_marked, masked, no_lines};

use crate::log::{Log, Run};
use vm_frames::PAGE_BYTES;

// How many bytes a line has, so that a word has a bit for each line of a page.
const LINE_BYTES: usize = 64;

// Some lines of a page.
#[derive(Clone, Copy)]
pub(crate) struct LineSet {
    bits: u64,
}

impl LineSet {
    // No line.
    pub(crate) fn new() -> LineSet
        ensures { result ≡ no_lines }
    {
        LineSet { bits: 0 }
    }

    fn contains(&self, line: usize) -> bool
        requires { line < 64 }
        ensures { result ≡ is_marked self.now line }
    {
        self.bits >> line & 1 == 1
    }

    fn insert(&mut self, line: usize)
        requires { line < 64 }
        ensures marked { is_marked self.new line ≡ true }
        ensures others { (other : ℕ) → other ≢ line → is_marked self.new other ≡ is_marked self.old other }
    {
        self.bits |= 1 << line;
    }
}

// Copies bytes of a page that has bytes in its lines alone, from `offset` on.
pub(crate) fn read_lines(lines: &LineSet, page: &[u8; PAGE_BYTES], offset: usize, bytes: &mut [u8])
    requires { offset + length bytes.old ≤ PAGE_BYTES }
    ensures { bytes.new ≡ slice_range (masked lines.now page.now) offset (offset + length bytes.old) }
{
    bytes.copy_from_slice(&page[offset..offset + bytes.len()]);
    mask(lines, offset, bytes);
}

// Makes zeros of the bytes outside the lines.
pub(crate) fn blank_others(lines: &LineSet, page: &mut [u8; PAGE_BYTES])
    ensures { page.new ≡ masked lines.now page.old }
{
    mask(lines, 0, page);
}

// Of bytes that stand in a page from `offset` on, makes zeros of those outside the lines.
fn mask(lines: &LineSet, offset: usize, bytes: &mut [u8])
    requires { offset + length bytes.old ≤ PAGE_BYTES }
    ensures length { length bytes.new ≡ length bytes.old }
    ensures each { (i : ℕ) → i < length bytes.old → slice_index bytes.new i ≡ (if is_marked lines.now ((offset + i) / 64) then slice_index bytes.old i else 0) }
{
    for line in offset / LINE_BYTES..(offset + bytes.len()).div_ceil(LINE_BYTES) {
        if !lines.contains(line) {
            blank(line, offset, bytes);
        }
    }
}

// Of bytes that stand in a page from `offset` on, makes zeros of those in the line, which has some of them.
fn blank(line: usize, offset: usize, bytes: &mut [u8])
    requires within { offset + length bytes.old ≤ PAGE_BYTES }
    requires before { line * 64 < offset + length bytes.old }
    requires after { offset < line * 64 + 64 }
    ensures length { length bytes.new ≡ length bytes.old }
    ensures each { (i : ℕ) → i < length bytes.old → slice_index bytes.new i ≡ (if (offset + i) / 64 == line then 0 else slice_index bytes.old i) }
{
    let start = (line * LINE_BYTES).saturating_sub(offset);
    let end = (line * LINE_BYTES + LINE_BYTES - offset).min(bytes.len());
    bytes[start..end].fill(0);
}

// Writes bytes to the page, from `offset` on. The lines get those of them, too.
pub(crate) fn write_lines(
    lines: &mut LineSet,
    page: &mut [u8; PAGE_BYTES],
    offset: usize,
    bytes: &[u8],
)
    requires { offset + length bytes.now ≤ PAGE_BYTES }
    ensures { masked lines.new page.new ≡ overwritten (masked lines.old page.old) offset bytes.now }
{
    let end = offset + bytes.len();
    open_lines(lines, page, offset / LINE_BYTES, end.div_ceil(LINE_BYTES));
    page[offset..end].copy_from_slice(bytes);
}

// Brings the writes of a log to the page.
pub(crate) fn write_each(lines: &mut LineSet, page: &mut [u8; PAGE_BYTES], log: &Log)
    ensures { masked lines.new page.new ≡ patched (masked lines.old page.old) log.now }
{
    let (runs, written) = log.parts();
    write_runs(lines, page, runs, written);
}

// Brings stretches, whose bytes stand one after the other, to the page.
fn write_runs(lines: &mut LineSet, page: &mut [u8; PAGE_BYTES], runs: &[Run], written: &[u8])
    requires within { All IsWithinPage runs.now }
    requires counted { total runs.now ≤ length written.now }
    ensures { masked lines.new page.new ≡ patched (masked lines.old page.old) (writes_in runs.now written.now) }
{
    let mut at = 0;
    for &run in runs {
        let end = at + run.len();
        write_lines(lines, page, run.offset(), &written[at..end]);
        at = end;
    }
}

// Takes lines from `first` on and below `end` into the set.
fn open_lines(lines: &mut LineSet, page: &mut [u8; PAGE_BYTES], first: usize, end: usize)
    requires { end ≤ 64 }
    ensures same { masked lines.new page.new ≡ masked lines.old page.old }
    ensures marked { (line : ℕ) → first ≤ line → line < end → is_marked lines.new line ≡ true }
{
    for line in first..end {
        open_line(lines, page, line);
    }
}

// Takes a line into the set. Where it was not there, its bytes become zeros.
fn open_line(lines: &mut LineSet, page: &mut [u8; PAGE_BYTES], line: usize)
    requires { line < 64 }
    ensures same { masked lines.new page.new ≡ masked lines.old page.old }
    ensures marked { is_marked lines.new line ≡ true }
    ensures others { (other : ℕ) → other ≢ line → is_marked lines.new other ≡ is_marked lines.old other }
{
    if !lines.contains(line) {
        let start = line * LINE_BYTES;
        page[start..start + LINE_BYTES].fill(0);
        lines.insert(line);
    }
}
