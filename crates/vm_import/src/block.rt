// The bytes of a source that wait to be used, in one block of memory.
ghost use Rattle.std.specs.Prelude.{◌≡◌, ◌⊎◌, ◌+◌, ◌<◌, ◌≤◌, ◌^◌, ℕ, List, [], ◌++◌, ◌-◌, Err, IfErr, IfOk, IfSome, IsTrue, OnErr, OnOk, drop, false, length, position, take, true};
ghost use Rattle.std.specs.Io.KnownBytes.{Consumes, IsAtEnd};
ghost use Rattle.std.specs.List.{after_first};
ghost use Rattle.vm_import.specs.declared.faults.LogError.TheVariants.{Read, TooLong};
ghost use Rattle.vm_import.specs.Logs.{is_line_end};
ghost use Rattle.vm_import.specs.Waiting.{all_of, IsLineUsed, IsOfSource, IsTaken};

use crate::faults::LogError;
use std::alloc::{AllocError, Global};
use std::marker::Model;
use vm_streams::Source;

// The most bytes that one read takes.
const BLOCK: usize = 65536;

/// So many bytes of a line decide what it means: an access has at most 24 of them, and a process between its marks 14.
pub(crate) const WINDOW: usize = 32;

/// A clause sees the bytes that wait, and how many were taken from the source in all.
#[derive(Drop)]
pub(crate) struct Block {
    bytes: Vec<u8>,
    start: usize,
    end: usize,
    taken: u64,
}

impl Model for Block {
    ghost use Rattle.std.specs.Prelude.{◌-◌, drop, take};
    ghost use Rattle.vm_import.specs.Waiting.{Waiting, IsBlock};

    ghost Value = { Waiting };

    ghost view = { λ b. record { bytes = take (b.end - b.start) (drop b.start b.bytes.items); taken = b.taken } };

    ghost invariant = { λ b. IsBlock b.bytes.items b.start b.end };
}

// Moves the bytes from a place up to another to the front.
fn move_to_front(bytes: &mut [u8], start: usize, end: usize)
    requires ordered { start ≤ end }
    requires within { end ≤ length bytes.old }
    ensures { take (end - start) bytes.new ≡ take (end - start) (drop start bytes.old) }
{
    bytes.copy_within(start..end, 0);
}

// Reads from a source behind so many bytes, and says how many it gave; 0 is its end.
fn read_behind<R: Source>(bytes: &mut [u8], end: usize, source: &mut R) -> Result<usize, LogError>
    requires { end < length bytes.old }
    ensures front { take end bytes.new ≡ take end bytes.old }
    ensures read { IfOk result (λ count. Consumes (R.remaining source.old) (R.remaining source.new) (take count (drop end bytes.new))) }
    ensures bound { IfOk result (λ count. end + count ≤ length bytes.old) }
    ensures end { IfOk result (λ count. count ≡ 0 → IsAtEnd (R.remaining source.new)) }
    ensures failure { OnErr result ((result ≡ Err Read) × (R.has_failed source.new ≡ true)) }
    ensures stays { OnOk result (R.has_failed source.new ≡ R.has_failed source.old) }
{
    source.read(&mut bytes[end..]).map_err(|_| LogError::Read)
}

// The place of the first end of a line.
pub(crate) fn line_end(text: &[u8]) -> Option<usize>
    ensures { result ≡ position is_line_end text.now }
{
    text.iter().position(|byte| *byte == b'\n')
}

impl Block {
    // Nothing waits.
    pub(crate) fn new(alloc: Global) -> Result<Self, AllocError>
        ensures { IfOk result (λ block. block ≡ record { bytes = []; taken = 0 }) }
    {
        let bytes = vec![in alloc; 0u8; BLOCK]?;
        Ok(Block {
            bytes,
            start: 0,
            end: 0,
            taken: 0,
        })
    }

    // The bytes that wait.
    pub(crate) fn bytes(&self) -> &[u8]
        ensures { result.now ≡ self.now.bytes }
    {
        &self.bytes[self.start..self.end]
    }

    // Uses so many bytes.
    pub(crate) fn pass(&mut self, count: usize)
        requires { count ≤ length self.old.bytes }
        ensures { self.new ≡ record { bytes = drop count self.old.bytes; taken = self.old.taken } }
    {
        self.start += count;
    }

    // Takes more bytes from the source, and says whether there were any.
    fn take_more<R: Source>(&mut self, source: &mut R) -> Result<bool, LogError>
        requires { length self.old.bytes < WINDOW }
        ensures taken { OnOk result (IsTaken self.old (R.remaining source.old) self.new (R.remaining source.new)) }
        ensures more { IfOk result (λ more. IsTrue more → length self.old.bytes < length self.new.bytes) }
        ensures end { IfOk result (λ more. more ≡ false → IsAtEnd (R.remaining source.new)) }
        ensures none { IfOk result (λ more. more ≡ false → self.new ≡ self.old) }
        ensures counted { self.new.taken + length self.old.bytes ≡ self.old.taken + length self.new.bytes }
        ensures small { self.new.taken < 2 ^ 64 }
        ensures error { IfErr result IsOfSource }
        ensures failure { result ≡ Err Read → R.has_failed source.new ≡ true }
        ensures stays { (result ≡ Err Read) ⊎ (R.has_failed source.new ≡ R.has_failed source.old) }
        ensures long { result ≡ Err TooLong → IfSome (all_of self.old.taken (R.remaining source.old)) (λ all. 2 ^ 64 ≤ all) }
    {
        move_to_front(&mut self.bytes, self.start, self.end);
        self.end -= self.start;
        self.start = 0;
        let count = read_behind(&mut self.bytes, self.end, source)?;
        let taken = self
            .taken
            .checked_add(count as u64)
            .ok_or(LogError::TooLong)?;
        self.end += count;
        self.taken = taken;
        Ok(count > 0)
    }

    // Takes bytes until a window of them waits, or there are no more.
    pub(crate) fn fill<R: Source>(&mut self, source: &mut R) -> Result<(), LogError>
        ensures taken { OnOk result (IsTaken self.old (R.remaining source.old) self.new (R.remaining source.new)) }
        ensures enough { OnOk result ((WINDOW ≤ length self.new.bytes) ⊎ IsAtEnd (R.remaining source.new)) }
        ensures counted { self.new.taken + length self.old.bytes ≡ self.old.taken + length self.new.bytes }
        ensures small { self.old.taken < 2 ^ 64 → self.new.taken < 2 ^ 64 }
        ensures error { IfErr result IsOfSource }
        ensures failure { result ≡ Err Read → R.has_failed source.new ≡ true }
        ensures stays { (result ≡ Err Read) ⊎ (R.has_failed source.new ≡ R.has_failed source.old) }
        ensures long { result ≡ Err TooLong → IfSome (all_of self.old.taken (R.remaining source.old)) (λ all. 2 ^ 64 ≤ all) }
    {
        while self.bytes().len() < WINDOW {
            if !self.take_more(source)? {
                return Ok(());
            }
        }
        Ok(())
    }

    // Uses the bytes of the first line that wait, with its end, and says whether its end was among them.
    fn pass_to_line_end(&mut self) -> bool
        requires { 0 < length self.old.bytes }
        ensures there { IsTrue result → (more : List ℕ) → after_first is_line_end (self.old.bytes ++ more) ≡ self.new.bytes ++ more }
        ensures beyond { result ≡ false → (more : List ℕ) → after_first is_line_end (self.old.bytes ++ more) ≡ after_first is_line_end more }
        ensures all { result ≡ false → self.new.bytes ≡ [] }
        ensures some { length self.new.bytes < length self.old.bytes }
        ensures taken { self.new.taken ≡ self.old.taken }
    {
        match line_end(self.bytes()) {
            Some(end) => {
                self.pass(end + 1);
                true
            }
            None => {
                self.pass(self.bytes().len());
                false
            }
        }
    }

    // Uses what is left of the first line, with its end, and takes as much as it has.
    pub(crate) fn pass_line<R: Source>(&mut self, source: &mut R) -> Result<(), LogError>
        requires some { 0 < length self.old.bytes }
        requires small { self.old.taken < 2 ^ 64 }
        ensures used { OnOk result (IsLineUsed self.old (R.remaining source.old) self.new (R.remaining source.new)) }
        ensures counted { self.old.taken + length self.new.bytes ≤ self.new.taken + length self.old.bytes }
        ensures shorter { OnOk result (self.old.taken + length self.new.bytes < self.new.taken + length self.old.bytes) }
        ensures few { self.new.taken < 2 ^ 64 }
        ensures error { IfErr result IsOfSource }
        ensures failure { result ≡ Err Read → R.has_failed source.new ≡ true }
        ensures stays { (result ≡ Err Read) ⊎ (R.has_failed source.new ≡ R.has_failed source.old) }
        ensures long { result ≡ Err TooLong → IfSome (all_of self.old.taken (R.remaining source.old)) (λ all. 2 ^ 64 ≤ all) }
    {
        loop {
            if self.pass_to_line_end() {
                return Ok(());
            }
            if !self.take_more(source)? {
                return Ok(());
            }
        }
    }
}
