// What is drawn of a host that is steered sample by sample.
ghost use Rattle.std.specs.Prelude.{◌≡◌, ◌<◌, ◌+◌, ◌^◌, IfErr, OnOk};
ghost use Rattle.vm_samples.specs.SampleOf.{sample_of};
ghost use Rattle.vm_steer.specs.declared.steer_error.SteerError.TheVariants.{Memory};
ghost use Rattle.vm_steer.specs.Entries.{names_in};
ghost use Rattle.vm_steer.specs.Names.{AreRising};
ghost use Rattle.vm_steer_charts.specs.Series.{after, begun_with};

use crate::rows::Row;
use std::alloc::{AllocError, Global};
use std::collections::VecDeque;
use std::marker::Model;
use vm_samples::{Policy, Sample, SampleError, read_sample};
use vm_steer::{SteerError, Steering};

const MAX_ROWS: usize = 10000;

// A host that is steered, and rows of its last good samples, 10000 at most, behind so many that are left out.
#[derive(Drop)]
pub(crate) struct Series {
    pub(crate) steering: Steering,
    pub(crate) first: u64,
    pub(crate) rows: VecDeque<Row>,
}

impl Model for Series {
    ghost use Rattle.vm_steer_charts.specs.Series.{SeriesView};

    ghost Value = { SeriesView };

    ghost view = { λ s. record { steering = s.steering; first = s.first; rows = s.rows.items } };
}

impl Series {
    ghost use Rattle.vm_steer_charts.specs.Series.{after_good};

    // Before the first sample.
    pub(crate) fn new(alloc: Global, policy: Policy) -> Self
        ensures { result ≡ begun_with policy }
    {
        Series {
            steering: Steering::new(alloc, policy),
            first: 0,
            rows: VecDeque::new(alloc),
        }
    }

    // Takes a good sample.
    fn take(&mut self, alloc: Global, sample: &Sample) -> Result<(), AllocError>
        requires { self.old.first + 1 < 2 ^ 64 }
        ensures { OnOk result (self.new ≡ after_good self.old sample.now) }
    {
        self.steering.take(alloc, sample)?;
        let row = Row::of_told(alloc, self.steering.told())?;
        if self.rows.len() >= MAX_ROWS {
            self.rows.pop_front();
            self.first += 1;
        }
        self.rows.push_back(row)?;
        Ok(())
    }

    // Takes a block as a sample; a bad one changes nothing.
    pub(crate) fn take_block(&mut self, alloc: Global, block: &[u8]) -> Result<(), SteerError>
        requires { self.old.first + 1 < 2 ^ 64 }
        ensures taken { OnOk result (self.new ≡ after self.old (sample_of block.now)) }
        ensures failed { IfErr result (λ error. error ≡ Memory) }
    {
        match read_sample(alloc, block) {
            Ok(sample) => Ok(self.take(alloc, &sample)?),
            Err(SampleError::Bad(_)) => Ok(()),
            Err(SampleError::Memory) => Err(SteerError::Memory),
        }
    }
}
