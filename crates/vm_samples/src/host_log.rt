// Reads a host log from a source, block by block.
ghost use Rattle.std.specs.Prelude.{◌≡◌, ◌≢◌, ◌⊎◌, ◌≤◌, [], Err, IfOk, IfSome, OnOk, true, length};
ghost use Rattle.vm_samples.specs.declared.host_log.LogError.TheVariants.{Read, TooLong};
ghost use Rattle.vm_samples.specs.Blocks.{blocks_of};
ghost use Rattle.vm_samples.specs.LogSteps.{left, Gives, IsTooLong};

use crate::front::{cut, find_front};
use std::alloc::{AllocError, Global};
use std::marker::Model;
use thiserror::Error;
use vm_streams::Source;

/// Why a host log is read no further.
#[derive(Clone, Copy, Debug, PartialEq, Eq, Error)]
pub enum LogError {
    /// The source failed.
    #[error("read failed")]
    Read,
    /// There are more than 16777216 bytes in front of a line `---`, or behind the last one.
    #[error("a block is too long")]
    TooLong,
    /// Memory was refused.
    #[error("out of memory")]
    Memory,
}

impl From<AllocError> for LogError {
    ghost use Rattle.vm_samples.specs.declared.host_log.LogError.TheVariants.{Memory};

    ghost from_gives = { λ _ error. error ≡ Memory };

    fn from(_error: AllocError) -> LogError {
        LogError::Memory
    }
}

/// A host log, of which one block at a time is in memory: what stands in front of a line `---`. A clause sees the block, and the
/// bytes that were taken from the source behind it.
#[derive(Drop)]
pub struct HostLog {
    block: Vec<u8>,
    ahead: Vec<u8>,
}

impl Model for HostLog {
    ghost use Rattle.vm_samples.specs.LogSteps.{LogView};

    ghost Value = { LogView };

    ghost view = { λ l. record { block = l.block.items; ahead = l.ahead.items } };
}

impl HostLog {
    ghost use Rattle.vm_samples.specs.LogSteps.{beginning};

    /// A log of which nothing was read.
    pub fn new(alloc: Global) -> Self
        ensures { result ≡ beginning }
    {
        HostLog {
            block: Vec::new(alloc),
            ahead: Vec::new(alloc),
        }
    }

    /// The bytes of the block that was read last, with the ends of its lines.
    pub fn block(&self) -> &[u8]
        ensures { result.now ≡ self.now.block }
    {
        self.block.as_slice()
    }

    /// Reads the next block, and says whether there is one. Where there is none, what stands behind the last line `---` is the
    /// block, and the source has ended. All calls are to be passed the same source.
    ///
    /// The block is there as soon as the source has given the line `---` behind it: where that is among the bytes that were taken
    /// already, nothing is read. A block has at most 16777216 bytes.
    ///
    /// The error is [`LogError::Read`] where the source failed in this call, [`LogError::TooLong`] where the next block, or what
    /// stands behind the last line `---`, has more than 16777216 bytes, and [`LogError::Memory`] where memory was refused. After an
    /// error nothing is said of what further calls give.
    pub fn next<R: Source>(&mut self, source: &mut R) -> Result<bool, LogError>
        ensures gives { IfOk result (λ found. Gives (left self.old (R.remaining source.old)) found self.new.block (left self.new (R.remaining source.new))) }
        ensures short { OnOk result (length self.new.block ≤ 16777216) }
        ensures at_hand { blocks_of self.old.ahead ≢ [] → source.new ≡ source.old }
        ensures failure { result ≡ Err Read → R.has_failed source.new ≡ true }
        ensures stays { (result ≡ Err Read) ⊎ (R.has_failed source.new ≡ R.has_failed source.old) }
        ensures long { result ≡ Err TooLong → IfSome (left self.old (R.remaining source.old)) IsTooLong }
    {
        let front = find_front(&mut self.ahead, source)?;
        cut(&mut self.block, &mut self.ahead, front)?;
        Ok(front.is_ended)
    }
}
