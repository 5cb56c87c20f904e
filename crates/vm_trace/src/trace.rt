// A list of steps.
ghost use Rattle.std.specs.Prelude.{◌≡◌, ◌<◌, ◌≤◌, ◌↔◌, [], ◌∷◌, ◌++◌, length, Err, IsTrue, IfOk, IfSome, OnOk, OnErr, None, Some, IfNone, slice_get};
ghost use Rattle.vm_trace.specs.declared.error.PushError.TheVariants.{Fault};
ghost use Rattle.vm_trace.specs.declared.error.TraceError.{TraceError};
ghost use Rattle.vm_trace.specs.Kinds.{bytes_in, with_bytes};
ghost use Rattle.vm_trace.specs.Limits.{IsStep};
ghost use Rattle.vm_trace.specs.Sized.{steps_with, AreAdded};

use crate::entering::{access_of_text, item_of, item_of_text};
use crate::entry::{Entry, action_at, bytes_of, kind_of};
use crate::error::{PushError, TraceError};
use crate::kind::StepKind;
use crate::limits::StepLimits;
use crate::places::{item_at, one_more, part_at, steps_behind};
use crate::step::Step;
use std::alloc::{AllocError, Global};
use std::marker::Model;

/// The steps of one guest, in order: 16 bytes a step, and as many for all steps that a text counts, and the bytes of its writes and
/// raw buffers. A clause reads them as a list.
#[derive(Drop)]
pub struct Trace {
    entries: Vec<Entry>,
    bytes: Vec<u8>,
    steps: u32,
}

impl Model for Trace {
    ghost use Rattle.std.specs.Prelude.{List};
    ghost use Rattle.vm_trace.specs.declared.step.Step.{Step};
    ghost use Rattle.vm_trace.specs.Entries.{steps_of, IsTrace};

    ghost Value = { List Step };

    ghost view = { λ t. steps_of t.bytes.items t.entries.items };

    ghost invariant = { λ t. IsTrace t.bytes.items t.entries.items t.steps };
}

/// `clone` gives a trace of the same steps in memory of its own, with room for no more. It copies the memory whole, and not step by
/// step. An `Err` says that memory was refused.
impl Clone for Trace {
    ghost is_clone = { λ trace copy. copy ≡ trace };

    fn clone(&self) -> Result<Trace, AllocError> {
        let alloc = *self.entries.allocator();
        let entries = Vec::from_slice(alloc, self.entries.as_slice())?;
        let bytes = Vec::from_slice(alloc, self.bytes.as_slice())?;
        Ok(Trace {
            entries,
            bytes,
            steps: self.steps,
        })
    }
}

impl Trace {
    /// A trace with no step.
    pub fn new(alloc: Global) -> Self
        ensures { result ≡ [] }
    {
        Trace {
            entries: Vec::new(alloc),
            bytes: Vec::new(alloc),
            steps: 0,
        }
    }

    /// A trace with no step, and room for the steps of so many texts. Memory is wanted only for some.
    pub fn with_capacity(alloc: Global, steps: usize) -> Result<Self, AllocError>
        ensures empty { IfOk result (λ trace. trace ≡ []) }
        ensures memory { OnErr result (0 < steps) }
    {
        Ok(Trace {
            entries: Vec::with_capacity(alloc, steps)?,
            bytes: Vec::new(alloc),
            steps: 0,
        })
    }

    /// Adds a step at the end. An `Err` changes nothing; it also comes for a write or a raw buffer where those before
    /// have 4 GiB of bytes, and where there are 2^32 - 1 steps.
    pub fn push(&mut self, step: Step) -> Result<(), AllocError>
        ensures ok { OnOk result (self.new ≡ self.old ++ step ∷ []) }
        ensures err { OnErr result (self.new ≡ self.old) }
    {
        let all = one_more(self.steps)?;
        let item = item_of(&mut self.bytes, step.action())?;
        let first = self.steps;
        self.entries.push(Entry { first, item })?;
        self.steps = all;
        Ok(())
    }

    /// Adds the steps that a text stands for at the end, for a guest with `size` pages:
    ///
    /// | Steps | Words |
    /// |---|---|
    /// | [`Action::Read`](crate::Action::Read) | `r PAGE OFFSET LEN` |
    /// | [`Action::Write`](crate::Action::Write) | `w PAGE OFFSET HEX` |
    /// | [`Action::Free`](crate::Action::Free) | `f PAGE` |
    /// | [`Action::Idle`](crate::Action::Idle) | `i` |
    /// | [`Action::Post`](crate::Action::Post) | `p QUEUE HEX`, where QUEUE is `i`, `d` or `s` |
    /// | [`Action::Touch`](crate::Action::Touch), COUNT of them, on PAGE and the pages behind it | `t PAGE COUNT` (version 3) |
    /// | [`Action::Free`](crate::Action::Free), COUNT of them, on PAGE and the pages behind it | `f PAGE COUNT` (version 3) |
    /// | [`Action::Yield`](crate::Action::Yield) | `y` (version 3) |
    /// | [`Action::Actual`](crate::Action::Actual) | `a N` (version 3) |
    ///
    /// Words are separated by single spaces, numbers are decimal, and two hexadecimal digits in either case are a byte; a raw buffer
    /// has at most 64 of them, and in version 3 1024. The first fault is [`TraceError::Unknown`](crate::TraceError::Unknown) where it
    /// stands, and else that of the first faulty word from left to right; then that the bytes go beyond the page, or the pages that
    /// are counted beyond the greatest guest's; then a page that isn't below `size`; and last that the trace would have more than
    /// [`MAX_STEPS`](crate::MAX_STEPS) steps: these are all [`TraceError::Range`](crate::TraceError::Range). An `Err` changes
    /// nothing, and [`PushError::Memory`] comes where memory was refused, or where the bytes before would be 4 GiB.
    ///
    /// Most texts are read in one pass, and so in less time than [`Trace::push`] takes behind `parse_step_within`.
    pub fn push_text(&mut self, text: &str, limits: StepLimits, size: u32) -> Result<(), PushError>
        requires some { 1 ≤ limits.pages }
        requires few { limits.pages ≤ 262144 }
        ensures ok { OnOk result (AreAdded limits size text.now self.old self.new) }
        ensures fault { (fault : TraceError) → result ≡ Err (Fault fault) → steps_with limits size text.now self.old ≡ Err fault }
        ensures err { OnErr result (self.new ≡ self.old) }
    {
        let Some(item) = access_of_text(&mut self.bytes, text, limits, size)? else {
            return self.push_other(text, limits, size);
        };
        let Some(all) = steps_behind(self.steps, item) else {
            return Err(PushError::Fault(TraceError::Range));
        };
        let first = self.steps;
        let Ok(()) = self.entries.push(Entry { first, item }) else {
            return Err(PushError::Memory);
        };
        self.steps = all;
        Ok(())
    }

    // As `push_text`, and for most texts slower. Not inlined, so that what is built of a read or a write is kept at once.
    #[inline(never)]
    fn push_other(&mut self, text: &str, limits: StepLimits, size: u32) -> Result<(), PushError>
        requires some { 1 ≤ limits.pages }
        requires few { limits.pages ≤ 262144 }
        ensures ok { OnOk result (AreAdded limits size text.now self.old self.new) }
        ensures fault { (fault : TraceError) → result ≡ Err (Fault fault) → steps_with limits size text.now self.old ≡ Err fault }
        ensures err { OnErr result (self.new ≡ self.old) }
    {
        let item = item_of_text(&mut self.bytes, text, limits, size)?;
        let Some(all) = steps_behind(self.steps, item) else {
            return Err(PushError::Fault(TraceError::Range));
        };
        let first = self.steps;
        let Ok(()) = self.entries.push(Entry { first, item }) else {
            return Err(PushError::Memory);
        };
        self.steps = all;
        Ok(())
    }

    /// The step at a place, counted from 0, or `None` behind the last one.
    pub fn step(&self, place: usize) -> Option<Step>
        ensures step { result ≡ slice_get self.now place }
        ensures limits { IfSome result IsStep }
    {
        let part = part_at(self.entries.as_slice(), self.steps, place)?;
        Some(Step::new(action_at(self.bytes.as_slice(), part)))
    }

    // As `kind`, where entries count more than one.
    #[cold]
    #[inline(never)]
    fn counted_kind(&self, place: usize) -> Option<StepKind>
        ensures some { IfSome result (λ kind. slice_get self.now place ≡ Some (with_bytes kind (bytes_in self.now place))) }
        ensures none { IfNone result (slice_get self.now place ≡ None) }
    {
        let part = part_at(self.entries.as_slice(), self.steps, place)?;
        Some(kind_of(&part.item, part.before))
    }

    /// What the step at a place does, counted from 0, or `None` behind the last one. Its bytes are those of [`Trace::bytes`]. This takes
    /// less time than [`Trace::step`], which copies them.
    #[inline(always)]
    pub fn kind(&self, place: usize) -> Option<StepKind>
        ensures some { IfSome result (λ kind. slice_get self.now place ≡ Some (with_bytes kind (bytes_in self.now place))) }
        ensures none { IfNone result (slice_get self.now place ≡ None) }
    {
        if self.entries.len() != self.steps as usize {
            return self.counted_kind(place);
        }
        let item = item_at(self.entries.as_slice(), self.steps, place)?;
        Some(kind_of(item, 0))
    }

    // As `bytes`, where entries count more than one.
    #[cold]
    #[inline(never)]
    fn counted_bytes(&self, place: usize) -> &[u8]
        ensures { result.now ≡ bytes_in self.now place }
    {
        match part_at(self.entries.as_slice(), self.steps, place) {
            Some(part) => bytes_of(self.bytes.as_slice(), &part.item),
            None => &[],
        }
    }

    /// The bytes that the step at a place writes or posts, where they lie: none where it does neither, or where no step is.
    #[inline(always)]
    pub fn bytes(&self, place: usize) -> &[u8]
        ensures { result.now ≡ bytes_in self.now place }
    {
        if self.entries.len() != self.steps as usize {
            return self.counted_bytes(place);
        }
        match item_at(self.entries.as_slice(), self.steps, place) {
            Some(item) => bytes_of(self.bytes.as_slice(), item),
            None => &[],
        }
    }

    /// How many steps there are.
    pub fn len(&self) -> usize
        ensures { result ≡ length self.now }
    {
        self.steps as usize
    }

    /// Whether there is no step.
    pub fn is_empty(&self) -> bool
        ensures { IsTrue result ↔ (self.now ≡ []) }
    {
        self.steps == 0
    }
}
