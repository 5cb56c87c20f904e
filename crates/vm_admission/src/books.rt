ghost use Rattle.std.specs.Prelude.{◌≡◌, ◌+◌, ◌^◌, ◌<◌, ◌≤◌, ◌↔◌, IsOk, OnOk, OnErr, IsErrOf};
ghost use Rattle.std.specs.Option.{SomeIff};
ghost use Rattle.vm_admission.specs.Accounts.{empty_accounts, with_guest, without_guest, with_minimum, FitsFrames, FitsSwap, ExceedsFrames, ExceedsSwap, IsMinimumBooked, IsReserveBooked};

use crate::error::AdmissionError;
use std::marker::Model;

/// The books of a machine: its frames, its pages of swap and the overhead of a guest, with the number of
/// running guests and the sums of what they were promised. All numbers are frames or pages of 4096 bytes.
///
/// Clauses read them as `Accounts` of `specs/Accounts.antt`.
#[derive(Debug, Drop)]
pub struct Books {
    frames: u32,
    swap: u32,
    overhead: u32,
    guests: u32,
    memory: u32,
    reserved: u32,
}

impl Model for Books {
    ghost use Rattle.std.specs.Prelude.{◌≤◌};
    ghost use Rattle.vm_admission.specs.Accounts.{Accounts, accounts_code};

    ghost Value = { Accounts };

    ghost coded = { accounts_code };

    ghost view = { λ b. record { frames = b.frames; swap = b.swap; overhead = b.overhead; guests = b.guests; memory = b.memory; reserved = b.reserved } };

    ghost invariant = { λ b. (b.memory ≤ b.frames) × (b.reserved ≤ b.swap) };
}

impl Books {
    /// The books of a machine with this many frames and pages of swap on which no guest runs yet. Each guest
    /// will take `overhead` frames beside its minimum.
    pub fn new(frames: u32, swap: u32, overhead: u32) -> Self
        ensures { result ≡ empty_accounts frames swap overhead }
    {
        Books {
            frames,
            swap,
            overhead,
            guests: 0,
            memory: 0,
            reserved: 0,
        }
    }

    /// Admits a guest, where the machine can give it `min` frames and the overhead, and has `reserve` pages of
    /// swap for the rest of its memory (Waldspurger, OSDI 2002, section 6.2).
    ///
    /// Memory is looked at first: `NoMemory` where the frames are too few, else `NoSwap` where the swap is. A
    /// refusal changes nothing.
    pub fn admit(&mut self, min: u32, reserve: u32) -> Result<(), AdmissionError>
        requires { self.old.guests + 1 < 2 ^ 32 }
        ensures admitted { OnOk result (self.new ≡ with_guest self.old min reserve) }
        ensures err { OnErr result (self.new ≡ self.old) }

        ensures ok { IsOk result ↔
            (FitsFrames (with_guest self.old min reserve) × FitsSwap (with_guest self.old min reserve)) }
        ensures no_memory { IsErrOf result AdmissionError.NoMemory ↔
            ExceedsFrames (with_guest self.old min reserve) }
        ensures no_swap { IsErrOf result AdmissionError.NoSwap ↔
            (FitsFrames (with_guest self.old min reserve) × ExceedsSwap (with_guest self.old min reserve)) }
    {
        let promised = u64::from(min) + u64::from(self.overhead);
        let memory = within(u64::from(self.memory) + promised, self.frames).ok_or(
            AdmissionError::NoMemory,
        )?;
        let reserved = within(u64::from(self.reserved) + u64::from(reserve), self.swap).ok_or(
            AdmissionError::NoSwap,
        )?;
        self.guests += 1;
        self.memory = memory;
        self.reserved = reserved;
        Ok(())
    }

    /// Changes the minimum of an admitted guest from `old` to `new` frames, and adds `more_reserve` pages to its
    /// reserve (`virsh memtune --min-guarantee`).
    ///
    /// It answers as `admit` does, by the sums that would follow. A refusal changes nothing.
    pub fn change_min(
        &mut self,
        old: u32,
        new: u32,
        more_reserve: u32,
    ) -> Result<(), AdmissionError>
        requires { IsMinimumBooked self.old old }
        ensures changed { OnOk result (self.new ≡ with_minimum self.old old new more_reserve) }
        ensures err { OnErr result (self.new ≡ self.old) }

        ensures ok { IsOk result ↔
            (FitsFrames (with_minimum self.old old new more_reserve)
            × FitsSwap (with_minimum self.old old new more_reserve)) }
        ensures no_memory { IsErrOf result AdmissionError.NoMemory ↔
            ExceedsFrames (with_minimum self.old old new more_reserve) }
        ensures no_swap { IsErrOf result AdmissionError.NoSwap ↔
            (FitsFrames (with_minimum self.old old new more_reserve)
            × ExceedsSwap (with_minimum self.old old new more_reserve)) }
    {
        let others = self.memory - old;
        let memory = within(u64::from(others) + u64::from(new), self.frames).ok_or(
            AdmissionError::NoMemory,
        )?;
        let reserved = within(
            u64::from(self.reserved) + u64::from(more_reserve),
            self.swap,
        )
        .ok_or(AdmissionError::NoSwap)?;
        self.memory = memory;
        self.reserved = reserved;
        Ok(())
    }

    /// Takes an admitted guest out of the books: its minimum of `min` frames with the overhead, and its reserve
    /// of `reserve` pages.
    pub fn leave(&mut self, min: u32, reserve: u32)
        requires minimum { IsMinimumBooked self.old min }
        requires reserve { IsReserveBooked self.old reserve }
        ensures { self.new ≡ without_guest self.old min reserve }
    {
        self.guests -= 1;
        self.memory -= min + self.overhead;
        self.reserved -= reserve;
    }
}

// The sum, if it is at most the limit.
fn within(sum: u64, limit: u32) -> Option<u32>
    ensures { SomeIff result (sum ≤ limit) sum }
{
    u32::try_from(sum).ok().filter(|sum| *sum <= limit)
}
