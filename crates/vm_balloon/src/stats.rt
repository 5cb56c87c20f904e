ghost use Rattle.std.specs.Prelude.{◌≡◌};

use crate::virtio::{stat_count, stat_entry};

// The tags of the entries (VIRTIO 1.2, section 5.5.6.4).
const SWAP_IN: u16 = 0;

const SWAP_OUT: u16 = 1;

const MAJOR_FAULTS: u16 = 2;

const MINOR_FAULTS: u16 = 3;

const FREE: u16 = 4;

const TOTAL: u16 = 5;

const AVAILABLE: u16 = 6;

/// What the driver said of its guest's memory, each number where it did (VIRTIO 1.2, section 5.5.6.3).
#[derive(Clone, Copy, Debug, Default, PartialEq, Eq)]
pub struct Stats {
    /// Bytes swapped in.
    pub swap_in: Option<u64>,
    /// Bytes swapped out.
    pub swap_out: Option<u64>,
    /// Page faults that read a page in.
    pub major_faults: Option<u64>,
    /// Page faults that read nothing in.
    pub minor_faults: Option<u64>,
    /// Bytes that nothing uses.
    pub free: Option<u64>,
    /// Bytes in all.
    pub total: Option<u64>,
    /// Bytes that can be used without swapping.
    pub available: Option<u64>,
}

impl Stats {
    ghost use Rattle.vm_balloon.specs.StatsOf.{stats_of, with_entry};

    /// The numbers in a statistics buffer. Unknown tags and a rest below 10 bytes say nothing.
    pub(crate) fn in_buffer(bytes: &[u8]) -> Self
        ensures { result ≡ stats_of bytes.now }
    {
        let mut stats = Stats::default();
        for i in 0..stat_count(bytes) {
            let (tag, value) = stat_entry(bytes, i);
            stats.set(tag, value);
        }
        stats
    }

    // One more entry was read: its value stands in the place of its tag.
    fn set(&mut self, tag: u16, value: u64)
        ensures { self.new ≡ with_entry self.old (tag, value) }
    {
        match tag {
            SWAP_IN => self.swap_in = Some(value),
            SWAP_OUT => self.swap_out = Some(value),
            MAJOR_FAULTS => self.major_faults = Some(value),
            MINOR_FAULTS => self.minor_faults = Some(value),
            FREE => self.free = Some(value),
            TOTAL => self.total = Some(value),
            AVAILABLE => self.available = Some(value),
            _ => {}
        }
    }
}
