ghost use Rattle.std.specs.Prelude.{◌≡◌, ◌+◌, ◌<◌, IfOk, IfSome, IfNone, IsTrue, false};
ghost use Rattle.std.specs.FinSet as set;

use crate::frame::Frame;
use crate::memory::Memory;
use std::alloc::{AllocError, Global};
use std::marker::Model;

/// The frames of a machine, of which it keeps those that nobody holds.
///
/// A contract sees it as how many frames there are, `total`, and the set of the numbers of those that somebody holds, `out`.
/// A frame is made when it is first taken. Before, the machine keeps 8 bytes for it.
/// It isn't `Drop`: [`Machine::close`] ends it, once each frame is back. No call but [`Machine::new`] takes memory, and each of
/// the others but `close` takes constant time.
pub struct Machine {
    total: u32,
    // How many were made, with the numbers below it.
    made: u32,
    // Memory of the others. It is `None` once all were made and one more was wanted.
    unmade: Option<Memory>,
    // Those that were made and came back. It has room for all.
    free: Vec<Frame>,
}

impl Model for Machine {
    ghost use Rattle.std.specs.Prelude.{vec_capacity};
    ghost use Rattle.vm_frames.specs.Machine.{MachineView, machine_code};
    ghost use Rattle.vm_frames.specs.KeptFrames.{machine_of, KeepsFrames};

    ghost Value = { MachineView };

    ghost coded = { machine_code };

    ghost view = { λ m. machine_of m.total m.made m.free.items };

    ghost invariant = { λ m. KeepsFrames m.total m.made m.unmade (vec_capacity m.free) m.free.items };
}

impl Machine {
    /// A machine of `frames` frames, numbered from 0, all of them free and of zeros.
    ///
    /// An error says that memory was refused. Nothing is kept then.
    pub fn new(alloc: Global, frames: u32) -> Result<Machine, AllocError>
        ensures { IfOk result (λ m. m ≡ record { total = frames; out = set.empty }) }
    {
        let memory = Memory::new(alloc, frames)?;
        let free = Vec::with_capacity(alloc, frames as usize)?;
        Ok(Machine {
            total: frames,
            made: 0,
            unmade: Some(memory),
            free,
        })
    }

    /// A free frame, with whatever bytes its last holder left, or `None` where somebody holds each of them.
    // Inlined, so that a caller that takes many has each in registers between the machine's list and its own.
    #[inline(always)]
    pub fn take(&mut self) -> Option<Frame>
        ensures none { IfNone result (set.len self.old.out ≡ self.old.total) }
        ensures unchanged { IfNone result (self.new ≡ self.old) }

        ensures in_range { IfSome result (λ f. f.number < self.old.total) }
        ensures was_free { IfSome result (λ f. set.contains self.old.out f.number ≡ false) }
        ensures taken { IfSome result (λ f. self.new ≡ record self.old { out = set.insert self.old.out f.number }) }
    {
        if let Some(frame) = self.free.pop() {
            return Some(frame);
        }
        let (frame, left) = Frame::new(self.unmade.take()?, self.made)?;
        self.unmade = Some(left);
        self.made += 1;
        Some(frame)
    }

    /// Takes a frame back.
    pub fn give(&mut self, frame: Frame)
        requires { IsTrue (set.contains self.old.out frame.number) }
        ensures { self.new ≡ record self.old { out = set.remove self.old.out frame.number } }
    {
        self.free.push_reserved(frame);
    }

    /// How many frames are free: with those that somebody holds they are all of the machine's.
    pub fn free(&self) -> u32
        ensures { result + set.len self.now.out ≡ self.now.total }
    {
        self.total - self.made + self.free.len() as u32
    }

    /// How many frames the machine has.
    pub fn total(&self) -> u32
        ensures { result ≡ self.now.total }
    {
        self.total
    }

    /// Frees the memory of a machine that has all of its frames.
    pub fn close(self)
        requires { set.len self.out ≡ 0 }
    {
        let Machine {
            total: _,
            made: _,
            unmade,
            free,
        } = self;
        drop(unmade);
        discard(free);
    }
}

// Frees the memory of frames that nobody will use again.
fn discard(mut frames: Vec<Frame>) {
    while let Some(frame) = frames.pop() {
        frame.discard();
    }
    frames.destroy_empty();
}
