//! Runs the guests that a configuration on standard input names, and writes the report to standard output: `vmmem [--workers N]`.
#![tactic(auto)]

use std::process::ExitCode;
use vm_programs::vmmem::vmmem;

fn main(rt: HostRuntime) -> ExitCode {
    vmmem(&rt)
}
