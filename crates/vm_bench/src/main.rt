//! Does jobs that users of this software wait for, on inputs of its own making, and prints a digest of all their results:
//! `vm_bench JOB SEED [PART]`.
//!
//! JOB is `day`, `months`, `fleet`, `policy`, `drivers`, `awkward`, or `all` of them, or `series`, `sweep`, `import`, `steps`, `steer` or
//! `log`, which `all` leaves out: `policy` makes the same calls as `series`, the stored runs of `vmsweep`, `vmtrace`, `vmsteer` and
//! `vmlog` show the table of a sweep, the guest of a log, the orders to a host and the configuration of one, and the text of `steps`
//! is of version 3, those of `all` of version 2. Each SEED gives other inputs of the same kind and size, and PART makes them so many
//! times smaller. A line says the job, how many bytes its results have, and their digest.
#![tactic(auto)]

mod awkward;
mod day;
mod digest;
mod drivers;
mod fleet;
mod host_log;
mod import;
mod jobs;
mod log;
mod months;
mod policy;
mod random;
mod recording;
mod runs;
mod series;
mod steer;
mod steps;
mod sweep;
mod text;

use crate::jobs::{JOBS, Job};
use std::process::ExitCode;
use std::thread::Threads;
use std::{env, io};

// Does a job, and prints its line.
fn tell(
    rt: &(impl Print + AllocGlobal + Threads + Sync),
    job: Job,
    seed: u64,
    part: u32,
) -> io::Result<bool> {
    let word = job.word();
    let Ok(digest) = job.run(rt, rt.alloc(), seed, part) else {
        println!(rt; "{word} failed")?;
        return Ok(false);
    };
    let (length, hash) = (digest.length(), digest.hash());
    println!(rt; "{word} {length} {hash:016x}")?;
    Ok(true)
}

// Does the jobs of a word, and says whether there were any and all were done.
fn tell_all(
    rt: &(impl Print + AllocGlobal + Threads + Sync),
    word: &str,
    seed: u64,
    part: u32,
) -> io::Result<bool> {
    let mut done = false;
    for job in JOBS {
        if word == job.word() || (word == "all" && job.is_in_all()) {
            done = tell(rt, job, seed, part)?;
        }
    }
    Ok(done)
}

fn number_of(word: Option<&String>, default: u64) -> u64 {
    match word {
        Some(word) => word.parse::<u64>().unwrap_or(default),
        None => default,
    }
}

fn main(rt: HostRuntime) -> io::Result<ExitCode> {
    let words = env::args(&rt)?.collect::<Vec<String>>(rt.alloc())?;
    let seed = number_of(words.get(2), 1);
    let part = number_of(words.get(3), 1).clamp(1, 1_000_000) as u32;
    let done = match words.get(1) {
        Some(word) => tell_all(&rt, word.as_str(), seed, part)?,
        None => false,
    };
    Ok(ExitCode::from(if done { 0 } else { 2 }))
}
