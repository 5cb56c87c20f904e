//! The numbers by which a host decides.
ghost use Rattle.std.specs.Prelude.{◌≤◌};

use vm_plan::Thresholds;

/// The numbers by which a host decides what it takes and gives.
#[derive(Clone, Copy, Debug)]
pub struct Numbers {
    /// The tax on idle memory, in hundredths of a percent, at most 9999 (Waldspurger, OSDI 2002, section 5.2).
    pub tax: u32,
    /// How many frames are meant to be free in each state (section 6.3).
    pub thresholds: Thresholds,
    /// The most frames that a guest gives up by paging in a boundary.
    pub page_rate: u32,
    /// The most pages that move from guest to guest at a boundary (section 6.3). With 0 none does.
    pub rebalance: u32,
    ghost part_taxed: { tax ≤ 9999 },
}
