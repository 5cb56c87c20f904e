//! What is told of a run as a whole.
ghost use Rattle.std.specs.Prelude.{◌≡◌};
ghost use Rattle.vm_tally.specs.Summary.{fits};

/// What is told of a run. Pages and frames have 4096 bytes; epochs are those of the run, each with the boundary before it. A number
/// stops at the greatest of 64 bits.
#[derive(Clone, Copy, Debug, PartialEq, Eq)]
pub struct Summary {
    /// Epochs whose boundary found this state (Waldspurger, OSDI 2002, section 6.3).
    pub high: u64,
    pub soft: u64,
    pub hard: u64,
    pub low: u64,
    /// The fewest free frames, when a state was found or after an epoch. Without epochs, the machine's.
    pub least_free: u64,
    /// Commands that were refused since the machine has too few frames for what would be promised (section 6.2).
    pub no_memory: u64,
    /// The same of too little swap.
    pub no_swap: u64,
    /// Pages by which targets fell, for commands and by boundaries (section 5.1).
    pub revoked: u64,
    /// Frames that guests gave up in paging at boundaries, spares too (section 6.3).
    pub paged: u64,
    /// Pages that touches of guests sent to swap, for want of a frame.
    pub evicted: u64,
    /// Pages by which targets rose.
    pub granted: u64,
    /// Pages by which targets fell for guests that would pay more (section 6.3).
    pub rebalanced: u64,
    /// Guests that were blocked, summed over epochs.
    pub blocked: u64,
    /// Guests that stalled, summed over epochs.
    pub stalls: u64,
    /// Steps of traces that guests executed, over all their starts.
    pub done: u64,
    /// Steps that the guests which run at the end have not executed.
    pub left: u64,
    /// The most pages of all guests in swap, at the end of a boundary or of an epoch.
    pub most_swapped: u64,
    /// Pages of all guests in swap at the end.
    pub swapped: u64,
    /// Pages of all guests in their balloons at the end.
    pub balloon: u64,
    /// The most pages that touches of all guests sent to swap in one epoch.
    pub most_evicted: u64,
    /// The first epoch, from 0, in which they sent so many; none where none was sent.
    pub worst: Option<u32>,
}

impl Summary {
    /// Whether every promise of a start or a minimum was kept, no page was seen in swap, and nobody waited.
    pub fn fits(&self) -> bool
        ensures { result ≡ fits self.now }
    {
        self.no_memory == 0
            && self.no_swap == 0
            && self.blocked == 0
            && self.stalls == 0
            && self.most_swapped == 0
    }
}
