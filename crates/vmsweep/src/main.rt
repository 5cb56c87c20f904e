//! Runs the configuration in FILE or on standard input once for each combination of listed values, and writes a table with a record for
//! each run, or for each run and guest, or a drawing to standard output: `vmsweep [--frames LIST] [--swap LIST] [--tax LIST]
//! [--page-rate LIST] [--rebalance LIST] [--guests | --svg] [--progress] [--workers N] [FILE]`.
#![tactic(auto)]

use std::process::ExitCode;
use vm_programs::vmsweep::vmsweep;

fn main(rt: HostRuntime) -> ExitCode {
    vmsweep(&rt)
}
