//! What a configuration text has at most.
ghost use Rattle.std.specs.Prelude.{◌≡◌};
ghost use Rattle.vm_recorded.specs.Limits.{limit_by};

use thiserror::Error;

/// What a configuration text has at most.
#[derive(Clone, Copy, Debug, PartialEq, Eq, Error)]
pub enum Limit {
    /// 10000 epochs.
    #[error("10000 epochs")]
    Epochs,
    /// 256 guests.
    #[error("256 guests")]
    Guests,
    /// 1000000 steps in the trace of a guest.
    #[error("1000000 steps")]
    Steps,
    /// 65536 steps of a guest in an epoch.
    #[error("65536 steps in an epoch")]
    EpochSteps,
    /// 16777216 bytes, with the LF at the end.
    #[error("16777216 bytes")]
    Bytes,
}

const MAX_EPOCHS: u64 = 10000;

const MAX_GUESTS: u64 = 256;

const MAX_STEPS: u64 = 1000000;

const MAX_EPOCH_STEPS: u64 = 65536;

/// The first limit, but for that of bytes, that a host passes with so many epochs and guests, of which one has so many steps and one
/// so many in an epoch.
pub fn limit_by(epochs: u64, guests: u64, steps: u64, longest: u64) -> Option<Limit>
    ensures { result ≡ limit_by epochs guests steps longest }
{
    if epochs > MAX_EPOCHS {
        return Some(Limit::Epochs);
    }
    if guests > MAX_GUESTS {
        return Some(Limit::Guests);
    }
    if steps > MAX_STEPS {
        return Some(Limit::Steps);
    }
    if longest > MAX_EPOCH_STEPS {
        return Some(Limit::EpochSteps);
    }
    None
}
