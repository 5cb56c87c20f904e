ghost use Rattle.std.specs.Prelude.{◌≡◌, ◌<◌, ◌≤◌, ◌++◌, ◌∷◌, ◌↔◌, [], IfOk, IsSome, IsTrue, OnErr, length};
ghost use Rattle.vm_balloon.specs.Device.{last_stats, no_stats};
ghost use Rattle.vm_balloon.specs.Statistics.{last};

use crate::Stats;
use crate::buffer::Buffer;
use crate::buffers::Buffers;
use std::alloc::{AllocError, Global};
use std::marker::Model;
use std::mem;

/// The statistics buffers that are posted, and what was said in those that were served last.
///
/// What was served is kept as it came, and read where it is asked for.
#[derive(Drop)]
pub(crate) struct Reports {
    posted: Buffers,
    // Those of the last service that found any.
    served: Buffers,
}

impl Model for Reports {
    ghost use Rattle.vm_balloon.specs.Posted.{PostedReports};

    ghost Value = { PostedReports };

    ghost use Rattle.vm_balloon.specs.ReportsFields.{reports_of, AreReports};

    ghost view = { reports_of };

    ghost invariant = { AreReports };
}

impl Reports {
    /// Room for so many buffers, none of which is posted or served. Memory is wanted only for some.
    pub(crate) fn new(alloc: Global, room: usize) -> Result<Self, AllocError>
        ensures reports { IfOk result (λ reports. reports ≡ record { room = room; list = []; stats = no_stats }) }
        ensures memory { OnErr result (0 < room) }
    {
        let posted = Buffers::new(alloc, room)?;
        let served = Buffers::new(alloc, room)?;
        Ok(Reports { posted, served })
    }

    /// Posts a buffer.
    pub(crate) fn push(&mut self, bytes: &[u8])
        requires short { length bytes.now ≤ 1024 }
        requires room { length self.old.list < self.old.room }
        ensures { self.new ≡ record self.old { list = self.old.list ++ bytes.now ∷ [] } }
    {
        self.posted.push(bytes);
    }

    /// Takes all buffers out, in constant time. The last of them counts from now on, if there is one.
    pub(crate) fn serve(&mut self)
        ensures { self.new ≡ record self.old { list = []; stats = last_stats self.old.stats self.old.list } }
    {
        if has_some(self.posted.as_slice()) {
            mem::swap(&mut self.posted, &mut self.served);
        }
        self.posted.clear();
    }

    /// Takes all buffers out, and forgets what was said, in constant time.
    pub(crate) fn reset(&mut self)
        ensures { self.new ≡ record self.old { list = []; stats = no_stats } }
    {
        self.posted.clear();
        self.served.clear();
    }

    /// What the last buffer said that was served.
    pub(crate) fn stats(&self) -> Stats
        ensures { result ≡ self.now.stats }
    {
        last_stats(self.served.as_slice())
    }

    /// How many buffers are posted.
    pub(crate) fn len(&self) -> usize
        ensures { result ≡ length self.now.list }
    {
        self.posted.len()
    }
}

// Whether there is a report.
fn has_some(reports: &[Buffer]) -> bool
    ensures { IsTrue result ↔ IsSome (last reports.now) }
{
    reports.last().is_some()
}

// What the last of the reports says, and nothing where there is none.
fn last_stats(reports: &[Buffer]) -> Stats
    ensures { result ≡ last_stats no_stats reports.now }
{
    match reports.last() {
        Some(report) => Stats::in_buffer(report.bytes()),
        None => Stats::default(),
    }
}
