//! The jobs, by their words.
use crate::awkward::awkward;
use crate::day::day;
use crate::digest::Digest;
use crate::drivers::drivers;
use crate::fleet::fleet;
use crate::import::import;
use crate::log::log;
use crate::months::months;
use crate::policy::policy;
use crate::series::series;
use crate::steer::steer;
use crate::steps::steps;
use crate::sweep::sweep;
use std::alloc::Global;
use std::thread::Threads;
use vm_sim::RunError;

/// A job that a user waits for.
#[derive(Clone, Copy)]
pub enum Job {
    Day,
    Months,
    Fleet,
    Policy,
    Drivers,
    Awkward,
    Series,
    Sweep,
    Import,
    Steps,
    Steer,
    Log,
}

/// All jobs.
pub const JOBS: [Job; 12] = [
    Job::Day,
    Job::Months,
    Job::Fleet,
    Job::Policy,
    Job::Drivers,
    Job::Awkward,
    Job::Series,
    Job::Sweep,
    Job::Import,
    Job::Steps,
    Job::Steer,
    Job::Log,
];

impl Job {
    /// Its word.
    pub fn word(self) -> &'static str {
        match self {
            Job::Day => "day",
            Job::Months => "months",
            Job::Fleet => "fleet",
            Job::Policy => "policy",
            Job::Drivers => "drivers",
            Job::Awkward => "awkward",
            Job::Series => "series",
            Job::Sweep => "sweep",
            Job::Import => "import",
            Job::Steps => "steps",
            Job::Steer => "steer",
            Job::Log => "log",
        }
    }

    /// Whether the word `all` stands for it too. It does not for [`Job::Series`], since `policy` makes the same calls, not for
    /// [`Job::Sweep`] and [`Job::Import`], since the stored runs of `vmsweep` and `vmtrace` show what they make, and not for
    /// [`Job::Steps`], since its text is of version 3 and those of `all` are of version 2, nor for [`Job::Steer`] and
    /// [`Job::Log`], since the stored runs of `vmsteer` and `vmlog` show what they make.
    pub fn is_in_all(self) -> bool {
        !matches!(
            self,
            Job::Series | Job::Sweep | Job::Import | Job::Steps | Job::Steer | Job::Log
        )
    }

    /// Does it on inputs of this seed, and gives the digest of its results. `part` is how many times smaller the inputs are.
    pub fn run<RT: Threads + Sync>(
        self,
        rt: &RT,
        alloc: Global,
        seed: u64,
        part: u32,
    ) -> Result<Digest, RunError> {
        let mut digest = Digest::new();
        match self {
            Job::Day => day(rt, alloc, seed, part, &mut digest)?,
            Job::Months => months(rt, alloc, seed, part, &mut digest)?,
            Job::Fleet => fleet(rt, alloc, seed, part, &mut digest)?,
            Job::Policy => policy(rt, alloc, seed, part, &mut digest)?,
            Job::Drivers => drivers(rt, alloc, seed, part, &mut digest)?,
            Job::Awkward => awkward(rt, alloc, seed, part, &mut digest)?,
            Job::Series => series(rt, alloc, seed, part, &mut digest)?,
            Job::Sweep => sweep(rt, alloc, seed, part, &mut digest)?,
            Job::Import => import(alloc, seed, part, &mut digest)?,
            Job::Steps => steps(rt, alloc, seed, part, &mut digest)?,
            Job::Steer => steer(alloc, seed, part, &mut digest)?,
            Job::Log => log(alloc, seed, part, &mut digest)?,
        }
        Ok(digest)
    }
}
