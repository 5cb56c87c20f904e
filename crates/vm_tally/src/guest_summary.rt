//! What is told of each guest of a run.

/// What is told of a guest over a run: of this guest alone. Pages and frames have 4096 bytes; epochs are those of the run, each with
/// the boundary before it. A number stops at the greatest of 64 bits.
#[derive(Clone, Copy, Debug, PartialEq, Eq)]
pub struct GuestSummary {
    /// Epochs in which it ran, blocked or not.
    pub epochs: u64,
    /// Pages by which its target fell, for commands and by boundaries (Waldspurger, OSDI 2002, section 5.1).
    pub revoked: u64,
    /// Frames that it gave up in paging at boundaries, spares too (section 6.3).
    pub paged: u64,
    /// Pages that its touches sent to swap, for want of a frame.
    pub evicted: u64,
    /// Pages by which its target rose.
    pub granted: u64,
    /// Pages by which its target fell for guests that would pay more (section 6.3).
    pub rebalanced: u64,
    /// Epochs in which it was blocked (section 6.3).
    pub blocked: u64,
    /// Epochs in which it stalled.
    pub stalls: u64,
    /// Steps of its trace that it executed, over all its starts.
    pub done: u64,
    /// The most of its pages in swap, at the end of a boundary or of an epoch; 0 while it doesn't run.
    pub most_swapped: u64,
    /// What holds at the end, if it runs then.
    pub at_end: Option<AtEnd>,
}

/// What holds of a guest that runs at the end of a run.
#[derive(Clone, Copy, Debug, PartialEq, Eq)]
pub struct AtEnd {
    /// Steps of its trace that it has not executed since its last start.
    pub left: u64,
    /// The frames that it is to have (section 5).
    pub target: u32,
    /// The frames that it holds.
    pub held: u32,
    /// Its pages in swap.
    pub swapped: u32,
    /// Its pages in the balloon (section 3.2).
    pub balloon: u32,
}
