// Reads a log from a source, access by access.
ghost use Rattle.std.specs.Prelude.{◌≡◌, ◌⊎◌, ◌+◌, ◌<◌, ◌≤◌, ◌^◌, ℕ, None, Ok, Err, IfOk, IfSome, OnOk, length, true};
ghost use Rattle.std.specs.List.{before_first};
ghost use Rattle.vm_import.specs.declared.access.Access.{Access};
ghost use Rattle.vm_import.specs.declared.faults.LineFault.{LineFault};
ghost use Rattle.vm_import.specs.declared.faults.LogError.TheVariants.{Line, Read, TooLong};
ghost use Rattle.vm_import.specs.declared.step.Step.TheVariants.{Found, Passed};
ghost use Rattle.vm_import.specs.Accesses.{IsAccess};
ghost use Rattle.vm_import.specs.Logs.{first_process, is_line_end};
ghost use Rattle.vm_import.specs.Reading.{beginning, left, length_in_all, BeginsWithFault, Gives, Stays};
ghost use Rattle.vm_import.specs.BlockSteps.{first_line, GoesOn, IsRead};

use crate::access::Access;
use crate::block::{Block, WINDOW, line_end};
use crate::faults::LogError;
use crate::lines::{line_of, named_process};
use crate::plain::access_in_front;
use crate::process::Process;
use crate::step::{Step, step_of};
use std::alloc::{AllocError, Global};
use std::marker::Model;
use vm_streams::Source;

/// How far a log has been read.
#[derive(Drop)]
pub struct LogReader {
    block: Block,
    lines: u64,
    process: Option<Process>,
}

impl Model for LogReader {
    ghost use Rattle.vm_import.specs.Reading.{Place};
    ghost use Rattle.vm_import.specs.BlockSteps.{IsCounted};

    ghost Value = { Place };

    ghost view = { λ r. record { kept = r.block.bytes; taken = r.block.taken; lines = r.lines; process = r.process } };

    ghost invariant = { λ r. IsCounted r.block.bytes r.block.taken r.lines };
}

// The first line of a text, or all of it.
fn first_line(text: &[u8]) -> &[u8]
    ensures { result.now ≡ before_first is_line_end text.now }
{
    match line_end(text) {
        Some(end) => &text[..end],
        None => text,
    }
}

// So much of the first line as decides what it means.
fn window(bytes: &[u8]) -> &[u8]
    ensures { result.now ≡ first_line bytes.now }
{
    first_line(&bytes[..WINDOW.min(bytes.len())])
}

// Takes over the process that a line named, where no line before it named one.
fn name_process(first: &mut Option<Process>, found: Option<Process>)
    ensures { first.new ≡ first_process first.old found }
{
    if first.is_none() {
        *first = found;
    }
}

impl LogReader {
    /// A reader that has read nothing. It takes memory for one block of bytes, and no more later.
    pub fn new(alloc: Global) -> Result<Self, AllocError>
        ensures { IfOk result (λ reader. reader ≡ beginning) }
    {
        Ok(LogReader {
            block: Block::new(alloc)?,
            lines: 0,
            process: None,
        })
    }

    // The next access, where it stands wholly in the block and on the very next line.
    #[inline(always)]
    fn plain_access(&mut self) -> Option<Access>
        ensures read { IfSome result (IsRead self.old self.new) }
        ensures none { result ≡ None → self.new ≡ self.old }
    {
        let bytes = self.block.bytes();
        if bytes.len() < WINDOW {
            return None;
        }
        let line = access_in_front(&bytes[..WINDOW])?;
        self.block.pass(line.len);
        self.lines += 1;
        Some(line.access)
    }

    // Reads the next line.
    fn next_line<R: Source>(&mut self, source: &mut R) -> Result<Step, LogError>
        ensures step { IfOk result (GoesOn (left self.old (R.remaining source.old)) (left self.new (R.remaining source.new))) }
        ensures fault { (number : ℕ) (fault : LineFault) → result ≡ Err (Line number fault) → BeginsWithFault (left self.old (R.remaining source.old)) number fault }
        ensures failure { result ≡ Err Read → R.has_failed source.new ≡ true }
        ensures stays { (result ≡ Err Read) ⊎ (R.has_failed source.new ≡ R.has_failed source.old) }
        ensures length { OnOk result (Stays (length_in_all self.old (R.remaining source.old)) (length_in_all self.new (R.remaining source.new))) }
        ensures long { result ≡ Err TooLong → IfSome (length_in_all self.old (R.remaining source.old)) (λ length. 2 ^ 64 ≤ length) }
        ensures valid { (access : Access) → result ≡ Ok (Found access) → IsAccess access }
        ensures passed { IfOk result (λ step. step ≡ Passed → self.new.lines ≡ self.old.lines + 1) }
        ensures small { self.new.lines < 2 ^ 64 }
    {
        self.block.fill(source)?;
        if self.block.bytes().is_empty() {
            return Ok(Step::Ended);
        }
        let line = window(self.block.bytes());
        let process = named_process(line);
        let found = match line_of(&self.process, line) {
            Ok(found) => found,
            Err(fault) => {
                let number = self.lines + 1;
                return Err(LogError::Line { number, fault });
            }
        };
        self.block.pass_line(source)?;
        self.lines += 1;
        name_process(&mut self.process, process);
        Ok(step_of(found))
    }

    // The next access, line by line.
    #[cold]
    fn access_by_lines<R: Source>(&mut self, source: &mut R) -> Result<Option<Access>, LogError>
        ensures gives { IfOk result (Gives (left self.old (R.remaining source.old)) (left self.new (R.remaining source.new))) }
        ensures access { IfOk result (λ found. IfSome found IsAccess) }
        ensures fault { (number : ℕ) (fault : LineFault) → result ≡ Err (Line number fault) → BeginsWithFault (left self.old (R.remaining source.old)) number fault }
        ensures failure { result ≡ Err Read → R.has_failed source.new ≡ true }
        ensures stays { (result ≡ Err Read) ⊎ (R.has_failed source.new ≡ R.has_failed source.old) }
        ensures length { OnOk result (Stays (length_in_all self.old (R.remaining source.old)) (length_in_all self.new (R.remaining source.new))) }
        ensures long { result ≡ Err TooLong → IfSome (length_in_all self.old (R.remaining source.old)) (λ length. 2 ^ 64 ≤ length) }
    {
        loop {
            match self.next_line(source)? {
                Step::Ended => return Ok(None),
                Step::Passed => {}
                Step::Found(access) => return Ok(Some(access)),
            }
        }
    }

    /// The next access of the log, `None` at its end. All calls are to be passed the same source.
    ///
    /// Lines that are empty, or begin with `==`, `--` or `**`, are passed over, however long they are. The error is
    /// [`LogError::Line`] where the next line that is not passed over is refused, [`LogError::Read`] where the source failed in
    /// this call, and [`LogError::TooLong`] where it gave 2^64 bytes or more in all. After an error nothing is said of what
    /// further calls give.
    #[inline(always)]
    pub fn next_access<R: Source>(&mut self, source: &mut R) -> Result<Option<Access>, LogError>
        ensures gives { IfOk result (Gives (left self.old (R.remaining source.old)) (left self.new (R.remaining source.new))) }
        ensures access { IfOk result (λ found. IfSome found IsAccess) }
        ensures fault { (number : ℕ) (fault : LineFault) → result ≡ Err (Line number fault) → BeginsWithFault (left self.old (R.remaining source.old)) number fault }
        ensures failure { result ≡ Err Read → R.has_failed source.new ≡ true }
        ensures stays { (result ≡ Err Read) ⊎ (R.has_failed source.new ≡ R.has_failed source.old) }

        // How long the log is in all.
        ensures length { OnOk result (Stays (length_in_all self.old (R.remaining source.old)) (length_in_all self.new (R.remaining source.new))) }
        ensures long { result ≡ Err TooLong → IfSome (length_in_all self.old (R.remaining source.old)) (λ length. 2 ^ 64 ≤ length) }
    {
        match self.plain_access() {
            Some(access) => Ok(Some(access)),
            None => self.access_by_lines(source),
        }
    }
}
