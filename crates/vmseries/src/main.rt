//! Runs the guests that a configuration in FILE or on standard input names, and writes what is seen of the host after each epoch to
//! standard output: `vmseries [--svg] [--workers N] [FILE]`.
#![tactic(auto)]

use std::process::ExitCode;
use vm_programs::vmseries::vmseries;

fn main(rt: HostRuntime) -> ExitCode {
    vmseries(&rt)
}
