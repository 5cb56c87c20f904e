//! The text of a run.
ghost use Rattle.std.specs.Prelude.{◌≡◌, IfErr, IfOk, IsErr, OnOk};
ghost use Rattle.std.specs.Io.KnownBytes.{Consumes, IsAtEnd};
ghost use Rattle.vm_streams.specs.Streams.{NewlyFailed};

use crate::input::MOST_BYTES;
use vm_streams::{InputError, Source, read_input};
use vm_words::CommandLine;

/// Reads a text to the reader's end. Where it can't be read, is longer than 16777216 bytes, or memory is refused, says so, and gives the
/// status to end with.
pub fn read_text<R: Source>(
    line: &CommandLine,
    system: &(impl Eprint + AllocGlobal),
    reader: &mut R,
) -> Result<Vec<u8>, u8>
    ensures text { IfOk result (λ text. Consumes (R.remaining reader.old) (R.remaining reader.new) text.items) }
    ensures end { OnOk result (IsAtEnd (R.remaining reader.new)) }
    ensures status { IfErr result (λ status. status ≡ 3) }
    ensures reader_failed { NewlyFailed (R.has_failed reader.old) (R.has_failed reader.new) → IsErr result }
{
    match read_input(system.alloc(), reader, MOST_BYTES) {
        Ok(text) => Ok(text),
        Err(InputError::Failed) => Err(line.read_failed(system)),
        Err(InputError::TooLong) => Err(line.too_long(system, "the text", MOST_BYTES)),
        Err(InputError::Memory) => Err(line.no_memory(system)),
    }
}
