// Reading all of a source, up to a limit.
ghost use Rattle.std.specs.Prelude.{◌≡◌, ◌⊎◌, ◌<◌, ◌≤◌, ◌+◌, ◌^◌, ℕ, List, length, IfOk, IfSome, OnOk, Err, vec_len, true};
ghost use Rattle.std.specs.Io.KnownBytes.{Consumes, IsAtEnd};
ghost use Rattle.vm_streams.specs.declared.input.InputError.TheVariants.{Failed, TooLong};

use crate::stream::Source;
use std::alloc::Global;
use thiserror::Error;

/// Why an input was not read.
#[derive(Clone, Copy, Debug, PartialEq, Eq, Error)]
pub enum InputError {
    /// The source failed.
    #[error("a read failed")]
    Failed,
    /// There is more than the limit.
    #[error("the input is too long")]
    TooLong,
    /// Memory was refused.
    #[error("out of memory")]
    Memory,
}

const CHUNK: usize = 4096;

/// Reads to the source's end: at most `limit` bytes, and one more.
///
/// The answer is [`InputError::Failed`] where the source failed, [`InputError::TooLong`] where it has more than `limit` bytes, and
/// [`InputError::Memory`] where memory was refused; what was read by then is gone.
pub fn read_input<R: Source>(
    alloc: Global,
    reader: &mut R,
    limit: usize,
) -> Result<Vec<u8>, InputError>
    requires { limit < 2 ^ 32 }
    ensures bytes { IfOk result (λ input. Consumes (R.remaining reader.old) (R.remaining reader.new) input.items) }
    ensures end { OnOk result (IsAtEnd (R.remaining reader.new)) }
    ensures short { IfOk result (λ input. vec_len input ≤ limit) }
    ensures failure { result ≡ Err Failed → R.has_failed reader.new ≡ true }
    ensures too_long { result ≡ Err TooLong → IfSome (R.remaining reader.old) (λ bytes. limit < length bytes) }
    ensures stays { (result ≡ Err Failed) ⊎ (R.has_failed reader.new ≡ R.has_failed reader.old) }
    ensures at_most { (taken : List ℕ) × Consumes (R.remaining reader.old) (R.remaining reader.new) taken × (length taken ≤ limit + 1) }
{
    let mut input = Vec::new(alloc);
    let mut chunk = [0u8; CHUNK];
    while input.len() <= limit {
        let room = (limit + 1 - input.len()).min(CHUNK);
        let Ok(count) = reader.read(&mut chunk[..room]) else {
            return Err(InputError::Failed);
        };
        if count == 0 {
            return Ok(input);
        }
        if input.extend_from_slice(&chunk[..count]).is_err() {
            return Err(InputError::Memory);
        }
    }
    Err(InputError::TooLong)
}
