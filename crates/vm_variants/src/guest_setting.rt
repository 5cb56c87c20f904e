//! The numbers of a guest that may be changed.
ghost use Rattle.std.specs.Prelude.{◌≡◌};
ghost use Rattle.vm_variants.specs.Guests.{range_of};

use vm_domains::GuestSpec;

/// A number of a guest that may be changed.
#[derive(Clone, Copy, Debug, PartialEq, Eq)]
pub enum GuestSetting {
    /// The frames that are never taken from it, 1 to its size in pages.
    Min,
    /// Its shares, 1 to 1000000.
    Shares,
}

/// The values that a setting of a guest may have, from `least` to `greatest`.
#[derive(Clone, Copy, Debug, PartialEq, Eq)]
pub struct GuestRange {
    pub least: u32,
    pub greatest: u32,
}

impl GuestSetting {
    /// The values that a guest may have.
    pub fn range(self, guest: &GuestSpec) -> GuestRange
        ensures { result ≡ range_of self guest.now }
    {
        let greatest = match self {
            GuestSetting::Min => guest.size,
            GuestSetting::Shares => 1_000_000,
        };
        GuestRange { least: 1, greatest }
    }
}
