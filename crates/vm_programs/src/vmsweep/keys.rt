//! The keys of a configuration whose values a sweep goes over.
ghost use Rattle.std.specs.Prelude.{◌≡◌};
ghost use Rattle.vm_programs.specs.vmsweep.Keys.{limits_of, word_of};

use std::fmt;
use vm_lists::{Limits, Unit};

/// The values of `--frames`, in frames.
pub const FRAMES_LIMITS: Limits = Limits {
    unit: Unit::Whole,
    least: 1,
    greatest: 262144,
};

/// The values of `--swap`, in pages.
pub const SWAP_LIMITS: Limits = Limits {
    unit: Unit::Whole,
    least: 0,
    greatest: 67108864,
};

/// The values of `--tax`, in hundredths of a percent. They are written in percent.
pub const TAX_LIMITS: Limits = Limits {
    unit: Unit::Hundredths,
    least: 0,
    greatest: 9999,
};

/// The values of `--page-rate`, in frames per guest and boundary.
pub const PAGE_RATE_LIMITS: Limits = Limits {
    unit: Unit::Whole,
    least: 1,
    greatest: 256,
};

/// The values of `--rebalance`, in pages.
pub const REBALANCE_LIMITS: Limits = Limits {
    unit: Unit::Whole,
    least: 0,
    greatest: 262144,
};

/// The values of `--min-percent`, in percent of a guest's size.
pub const MIN_PERCENT_LIMITS: Limits = Limits {
    unit: Unit::Whole,
    least: 1,
    greatest: 100,
};

/// The values of `--min`, in pages.
pub const MIN_LIMITS: Limits = Limits {
    unit: Unit::Whole,
    least: 1,
    greatest: 262144,
};

/// The values of `--shares`.
pub const SHARES_LIMITS: Limits = Limits {
    unit: Unit::Whole,
    least: 1,
    greatest: 1000000,
};

/// A key whose values a sweep goes over.
#[derive(Clone, Copy, Debug, PartialEq, Eq)]
pub enum SweptKey {
    /// The frames of the machine.
    Frames,
    /// The pages of the swap area.
    Swap,
    /// The tax on idle memory.
    Tax,
    /// The most frames that a guest gives up by paging at a boundary.
    PageRate,
    /// The most pages that a boundary moves from idle guests to those who would pay more for them.
    Rebalance,
    /// The minimum of each guest, in percent of its size.
    MinPercent,
    /// The minimum of a guest with a name.
    Min,
    /// The shares of a guest with a name.
    Shares,
}

impl SweptKey {
    /// Its word, without the two dashes before it.
    #[tactic(auto, unfolding(crate::specs::vmsweep::Keys::word_of))]
    pub fn word(self) -> &'static str
        ensures { result.now ≡ word_of self }
    {
        match self {
            SweptKey::Frames => "frames",
            SweptKey::Swap => "swap",
            SweptKey::Tax => "tax",
            SweptKey::PageRate => "page-rate",
            SweptKey::Rebalance => "rebalance",
            SweptKey::MinPercent => "min-percent",
            SweptKey::Min => "min",
            SweptKey::Shares => "shares",
        }
    }

    /// The values that its list may have.
    #[tactic(auto, unfolding(crate::specs::vmsweep::Keys::limits_of))]
    pub fn limits(self) -> Limits
        ensures { result ≡ limits_of self }
    {
        match self {
            SweptKey::Frames => FRAMES_LIMITS,
            SweptKey::Swap => SWAP_LIMITS,
            SweptKey::Tax => TAX_LIMITS,
            SweptKey::PageRate => PAGE_RATE_LIMITS,
            SweptKey::Rebalance => REBALANCE_LIMITS,
            SweptKey::MinPercent => MIN_PERCENT_LIMITS,
            SweptKey::Min => MIN_LIMITS,
            SweptKey::Shares => SHARES_LIMITS,
        }
    }
}

impl fmt::Display for SweptKey {
    ghost use Rattle.std.specs.Prelude.{Some};

    ghost output = { λ key. Some (word_of key) };

    fn fmt<W: fmt::Write>(&self, f: &mut fmt::Formatter<W>) -> fmt::Result {
        f.write_str(self.word())
    }
}
