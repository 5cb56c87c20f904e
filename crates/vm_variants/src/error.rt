//! Why a value of a guest is refused.
use crate::guest_setting::GuestSetting;
use thiserror::Error;

/// Why a value of a guest is refused. Guests are counted from 0, in the order of the configuration.
#[derive(Clone, Copy, Debug, PartialEq, Eq, Error)]
pub enum GuestError {
    /// There is no guest at this place.
    #[error("no guest {place}")]
    NoGuest {
        place: usize,
    },
    /// The value is not in the range of the setting of this guest, from `least` to `greatest`.
    #[error("guest {place}: not {least} to {greatest}")]
    OutOfRange {
        setting: GuestSetting,
        place: usize,
        least: u32,
        greatest: u32,
    },
}
