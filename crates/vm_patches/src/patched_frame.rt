ghost use Rattle.std.specs.Prelude.{◌≡◌, ◌+◌, ◌≤◌, ◌↔◌, [], IfSome, IfNone, IsTrue, is_some, length, slice_range};
ghost use Rattle.std.specs.Bool.{OnTrue, OnFalse};
ghost use Rattle.vm_patches.specs.Patches.{overwritten, patched, zero_bytes, AreWithin};
ghost use Rattle.vm_patches.specs.Contents.{blank_where_few, contents_of, log_of, FitsPatch, IsWritten};
ghost use Rattle.vm_patches.specs.declared.patched_frame.Contents.TheVariants.{Few, Whole};

use crate::lines::{LineSet, blank_others, read_lines, write_each, write_lines};
use crate::log::Log;
use crate::patch::{ByteWrite, Patch};
use std::marker::Model;
use std::mem::{replace, swap};
use vm_frames::{Frame, PAGE_BYTES};

// Where the bytes of a page are.
#[derive(Drop)]
enum Contents {
    // In a log of a page of zeros. Nothing is said by the frame's bytes.
    Few(Log),
    // In those lines of the frame, and all others are zeros, whatever the frame has there: so a frame need not be cleared when a page
    // outgrows its log.
    Lines(LineSet),
    // In the frame.
    Whole,
}

/// A frame that is under a page. While few bytes were written to the page since it was of zeros, they are kept beside the frame,
/// whose memory is not touched for them.
///
/// A contract sees it as a frame: its number, and the bytes of the page. Like a frame it is neither `Clone` nor `Drop`. No call takes
/// memory.
pub struct PatchedFrame {
    frame: Frame,
    contents: Contents,
}

impl Model for PatchedFrame {
    ghost use Rattle.vm_frames.specs.Frame.{FrameView};
    ghost use Rattle.vm_patches.specs.Contents.{contents_of};

    ghost Value = { FrameView };

    ghost view = { λ f. record { number = f.frame.number; bytes = contents_of f.contents f.frame.bytes } };
}

impl PatchedFrame {
    /// A page that has the frame's bytes.
    pub fn new(frame: Frame) -> PatchedFrame
        ensures { result ≡ frame }
    {
        if frame.is_blank() {
            let contents = Contents::Few(Log::new());
            PatchedFrame { frame, contents }
        } else {
            PatchedFrame {
                frame,
                contents: Contents::Whole,
            }
        }
    }

    /// Copies bytes of the page, from `offset` on.
    pub fn read(&self, offset: usize, bytes: &mut [u8])
        requires { offset + length bytes.old ≤ PAGE_BYTES }
        ensures { bytes.new ≡ slice_range self.now.bytes offset (offset + length bytes.old) }
    {
        read_contents(&self.contents, &self.frame, offset, bytes);
    }

    /// Writes bytes to the page, from `offset` on.
    pub fn write(&mut self, offset: usize, bytes: &[u8])
        requires { offset + length bytes.now ≤ PAGE_BYTES }
        ensures { self.new ≡ record self.old { bytes = overwritten self.old.bytes offset bytes.now } }
    {
        if !write_few(&mut self.contents, offset, bytes) {
            write_frame(&mut self.contents, self.frame.bytes_mut(), offset, bytes);
        }
    }

    /// Takes the page's bytes, where they are kept as a log, and leaves a page of zeros.
    pub fn take_log(&mut self) -> Option<Log>
        ensures some { IfSome result (λ log. self.old.bytes ≡ patched zero_bytes log) }
        ensures taken { IfSome result (λ log. self.new ≡ record self.old { bytes = zero_bytes }) }
        ensures none { IfNone result (self.new ≡ self.old) }
    {
        take_few(&mut self.contents)
    }

    /// Makes it a page of zeros that has the writes of the log. The frame's memory is not touched.
    pub fn set_log(&mut self, log: Log)
        ensures { self.new ≡ record self.old { bytes = patched zero_bytes log } }
    {
        self.contents = Contents::Few(log);
    }

    /// Takes the page's bytes, where they are kept as a log that a patch has room for, and leaves a page of zeros.
    pub fn take_patch(&mut self) -> Option<Patch>
        ensures some { IfSome result (λ patch. self.old.bytes ≡ patched zero_bytes patch) }
        ensures taken { IfSome result (λ patch. self.new ≡ record self.old { bytes = zero_bytes }) }
        ensures none { IfNone result (self.new ≡ self.old) }
    {
        take_patch(&mut self.contents)
    }

    /// Makes it a page of zeros that has the writes of the patch. The frame's memory is not touched.
    pub fn set_patch(&mut self, patch: Patch)
        ensures { self.new ≡ record self.old { bytes = patched zero_bytes patch } }
    {
        self.contents = Contents::Few(Log::new());
        write_all(self, patch.writes());
    }

    /// Makes them the page's bytes.
    pub fn set_bytes(&mut self, bytes: &[u8; PAGE_BYTES])
        ensures { self.new ≡ record self.old { bytes = bytes.now } }
    {
        self.contents = Contents::Whole;
        *self.frame.bytes_mut() = *bytes;
    }

    /// Exchanges the page's bytes with those of the buffer.
    pub fn exchange(&mut self, buffer: &mut [u8; PAGE_BYTES])
        ensures page { self.new ≡ record self.old { bytes = buffer.old } }
        ensures buffer { buffer.new ≡ self.old.bytes }
    {
        settle(&mut self.contents, &mut self.frame);
        swap(self.frame.bytes_mut(), buffer);
    }

    /// The frame, with the page's bytes.
    pub fn into_frame(self) -> Frame
        ensures { result ≡ self }
    {
        let PatchedFrame {
            mut frame,
            mut contents,
        } = self;
        settle(&mut contents, &mut frame);
        frame
    }

    /// The frame, with whatever bytes, once the page's are not wanted any more.
    pub fn release(self) -> Frame
        ensures { result.number ≡ self.number }
    {
        let PatchedFrame { frame, contents: _ } = self;
        frame
    }
}

// Copies bytes of the page, from `offset` on.
fn read_contents(contents: &Contents, frame: &Frame, offset: usize, bytes: &mut [u8])
    requires { offset + length bytes.old ≤ PAGE_BYTES }
    ensures { bytes.new ≡ slice_range (contents_of contents.now frame.now.bytes) offset (offset + length bytes.old) }
{
    match contents {
        Contents::Few(few) => few.read(offset, bytes),
        Contents::Lines(lines) => read_lines(lines, frame.bytes(), offset, bytes),
        Contents::Whole => bytes.copy_from_slice(&frame.bytes()[offset..offset + bytes.len()]),
    }
}

// Writes bytes to the log, if there is one that has room for them, and answers whether it did.
fn write_few(contents: &mut Contents, offset: usize, bytes: &[u8]) -> bool
    requires { offset + length bytes.now ≤ PAGE_BYTES }
    ensures written { OnTrue result (IsWritten contents.old contents.new offset bytes.now) }
    ensures unchanged { OnFalse result (contents.new ≡ contents.old) }
{
    if let Contents::Few(few) = contents {
        few.write(offset, bytes)
    } else {
        false
    }
}

// Writes bytes to the frame. Those of a log go there too.
fn write_frame(contents: &mut Contents, page: &mut [u8; PAGE_BYTES], offset: usize, bytes: &[u8])
    requires { offset + length bytes.now ≤ PAGE_BYTES }
    ensures { contents_of contents.new page.new ≡ overwritten (contents_of contents.old page.old) offset bytes.now }
{
    match contents {
        Contents::Few(few) => {
            let mut lines = LineSet::new();
            write_each(&mut lines, page, few);
            write_lines(&mut lines, page, offset, bytes);
            *contents = Contents::Lines(lines);
        }
        Contents::Lines(lines) => write_lines(lines, page, offset, bytes),
        Contents::Whole => page[offset..offset + bytes.len()].copy_from_slice(bytes),
    }
}

// Takes the log, if there is one, and leaves one that changes nothing.
fn take_few(contents: &mut Contents) -> Option<Log>
    ensures taken { result ≡ log_of contents.old }
    ensures left { contents.new ≡ blank_where_few contents.old }
{
    match contents {
        Contents::Few(few) => Some(replace(few, Log::new())),
        Contents::Lines(_) | Contents::Whole => None,
    }
}

// Takes the log, exactly where there is one that a patch has room for, and leaves one that changes nothing.
fn take_patch(contents: &mut Contents) -> Option<Patch>
    ensures room { IsTrue (is_some result) ↔ FitsPatch contents.old }
    ensures taken { IfSome result (λ patch. contents.old ≡ Few patch) }
    ensures left { IfSome result (λ patch. contents.new ≡ Few []) }
    ensures none { IfNone result (contents.new ≡ contents.old) }
{
    match contents {
        Contents::Few(few) => {
            let patch = few.to_patch()?;
            *few = Log::new();
            Some(patch)
        }
        Contents::Lines(_) | Contents::Whole => None,
    }
}

// Brings writes to a page of zeros, of which the first comes first.
fn write_all(page: &mut PatchedFrame, writes: &[ByteWrite])
    requires blank { page.old.bytes ≡ zero_bytes }
    requires within { AreWithin writes.now }
    ensures { page.new ≡ record page.old { bytes = patched zero_bytes writes.now } }
{
    for &write in writes {
        page.write(usize::from(write.offset), &[write.byte]);
    }
}

// Brings the page's bytes into the frame.
fn settle(contents: &mut Contents, frame: &mut Frame)
    ensures contents { contents.new ≡ Whole }
    ensures frame { frame.new ≡ record frame.old { bytes = contents_of contents.old frame.old.bytes } }
{
    match contents {
        Contents::Few(few) => {
            let mut lines = LineSet::new();
            write_each(&mut lines, frame.bytes_mut(), few);
            blank_others(&lines, frame.bytes_mut());
        }
        Contents::Lines(lines) => blank_others(lines, frame.bytes_mut()),
        Contents::Whole => {}
    }
    *contents = Contents::Whole;
}
