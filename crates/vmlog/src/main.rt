//! Reads a host log, a policy and what `virsh domstats` tells sample by sample, from FILE or standard input, and writes a configuration
//! of the recorded host to standard output, in which its domains use as much memory as was sampled: `vmlog [--every N] [FILE]`.
#![tactic(auto)]

use std::process::ExitCode;
use vm_programs::vmlog::vmlog;

fn main(rt: HostRuntime) -> ExitCode {
    vmlog(&rt)
}
