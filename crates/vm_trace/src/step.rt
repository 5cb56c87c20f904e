// A step of a trace: an action, and its limits.
ghost use Rattle.std.specs.Prelude.{◌≡◌, ◌↔◌, IsTrue};
ghost use Rattle.vm_trace.specs.Sized.{is_within};

use crate::buffer::Buffer;
use crate::bytes::Bytes;
use std::marker::Model;

/// A queue of the balloon device (OASIS VIRTIO 1.2, section 5.5.2).
#[derive(Clone, Copy, Debug, PartialEq, Eq)]
pub enum Queue {
    /// Pages that the guest puts into the balloon.
    Inflate,
    /// Pages that the guest takes out of the balloon.
    Deflate,
    /// Statistics of the guest's memory.
    Stats,
}

/// What a guest does in one step. Pages have 4096 bytes.
#[derive(Clone, Copy, Debug, PartialEq, Eq)]
pub enum Action {
    /// Reads `len` bytes of a page from the byte `offset` on.
    Read {
        page: u32,
        offset: u16,
        len: u8,
    },
    /// Writes the bytes to a page from the byte `offset` on.
    Write {
        page: u32,
        offset: u16,
        bytes: Bytes,
    },
    /// Touches a page, and neither reads nor writes it.
    Touch {
        page: u32,
    },
    /// Frees a page.
    Free {
        page: u32,
    },
    /// Does nothing.
    Idle,
    /// Does nothing, and nothing more in this epoch.
    Yield,
    /// Posts a raw buffer to a queue, as a driver of its own would.
    Post {
        queue: Queue,
        bytes: Buffer,
    },
    /// Tells how many pages are in the balloon, as a driver of its own would: writes the device's `actual`.
    Actual {
        pages: u32,
    },
}

/// An action within the limits of a step: its page is below 262144, a read or a write is of 1 to 16 bytes of that
/// page, and a raw buffer has 1 to 1024 bytes. A clause reads a step as its action.
#[derive(Clone, Copy, Debug, PartialEq, Eq)]
pub struct Step {
    action: Action,
}

impl Model for Step {
    ghost use Rattle.vm_trace.specs.declared.step.Action.{Action};
    ghost use Rattle.vm_trace.specs.Limits.{IsStep};

    ghost Value = { Action };

    ghost view = { λ s. s.action };

    ghost invariant = { λ s. IsStep s.action };

    ghost inverse = { λ a. record { action = a } };
}

impl Step {
    ghost use Rattle.vm_trace.specs.Limits.{IsStep, IsWithin};

    /// The step of an action within the limits.
    pub fn new(action: Action) -> Self
        requires { IsStep action }
        ensures { result ≡ action }
    {
        Step { action }
    }

    /// What the guest does in this step, which keeps the limits of a step.
    pub fn action(&self) -> Action
        ensures same { result ≡ self.now }
        ensures limits { IsStep result }
    {
        self.action
    }

    /// Whether the step's page, if it has one, is one of a guest with this many pages.
    pub fn is_within(&self, pages: u32) -> bool
        ensures { IsTrue result ↔ IsWithin pages self.now }
    {
        is_within(&self.action, pages)
    }
}

// Whether the action's page, if it has one, is below the size.
pub(crate) fn is_within(action: &Action, pages: u32) -> bool
    ensures { result ≡ is_within pages action.now }
{
    match *action {
        Action::Read { page, .. } => page < pages,
        Action::Write { page, .. } => page < pages,
        Action::Touch { page } => page < pages,
        Action::Free { page } => page < pages,
        Action::Idle => true,
        Action::Yield => true,
        Action::Post { .. } => true,
        Action::Actual { .. } => true,
    }
}
