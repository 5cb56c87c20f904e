// The text of a run.
ghost use Rattle.std.specs.Prelude.{◌≡◌, ◌≤◌, ℕ, List, length, IfErr, IfOk, OnOk, Err};
ghost use Rattle.std.specs.Io.KnownBytes.{Consumes, IsAtEnd};
ghost use Rattle.vm_sim.specs.declared.run_error.RunError.TheVariants.{Read};
ghost use Rattle.vm_sim.specs.Run.{FailsToRead};
ghost use Rattle.vm_streams.specs.Streams.{NewlyFailed};

use crate::run_error::RunError;
use std::alloc::Global;
use vm_streams::{Source, read_input};

// The longest input.
const MAX_INPUT: usize = 16_777_216;

/// Reads a text to the reader's end, as [`run`](crate::run) does.
///
/// At most 16777216 bytes are read, and one more. The answer is [`RunError::Read`] where the reader failed or more came, and
/// [`RunError::Memory`] where memory was refused.
pub fn read_text<R: Source>(alloc: Global, reader: &mut R) -> Result<Vec<u8>, RunError>
    ensures text { IfOk result (λ text. Consumes (R.remaining reader.old) (R.remaining reader.new) text.items) }
    ensures end { OnOk result (IsAtEnd (R.remaining reader.new)) }
    ensures failed { IfErr result (FailsToRead (R.remaining reader.old) 16777216 (R.has_failed reader.new)) }
    ensures reader_failed { NewlyFailed (R.has_failed reader.old) (R.has_failed reader.new) → result ≡ Err Read }
    ensures at_most { (taken : List ℕ) × Consumes (R.remaining reader.old) (R.remaining reader.new) taken
        × (length taken ≤ 16777217) }
{
    let text = read_input(alloc, reader, MAX_INPUT)?;
    Ok(text)
}
