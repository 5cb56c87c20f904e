//! Why a sweep ended early.
use thiserror::Error;
use vm_sim::RunError;
use vm_variants::GuestSetting;

/// Why a list of values for a guest is refused.
#[derive(Clone, Copy, Debug, PartialEq, Eq, Error)]
pub enum RefusalCause {
    /// The configuration has no guest of this name.
    #[error("no such guest")]
    NoGuest,
    /// A value isn't one that this guest may have: a minimum is above its size.
    #[error("above its size")]
    OutOfRange,
}

/// A list of values that a configuration refuses: the one with this number, from 0, among those for this setting.
#[derive(Clone, Copy, Debug, PartialEq, Eq, Error)]
#[error("{cause}")]
pub struct GuestRefusal {
    pub setting: GuestSetting,
    pub list: usize,
    pub cause: RefusalCause,
}

/// Why a sweep ended early.
#[derive(Clone, Copy, Debug, PartialEq, Eq, Error)]
pub enum SweepError {
    /// A run stopped, or none began.
    #[error("{0}")]
    Run(RunError),
    /// The configuration refuses a list of values for a guest.
    #[error("a list for a guest is refused: {0}")]
    Guest(GuestRefusal),
}
