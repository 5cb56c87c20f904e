//! Reads a host log, a policy and what `virsh domstats` tells sample by sample, from FILE or standard input, and writes what the
//! balloons of the host's domains are ordered to standard output, for `virsh` to read: `vmsteer [--csv | --svg] [FILE]`.
#![tactic(auto)]

use std::process::ExitCode;
use vm_programs::vmsteer::vmsteer;

fn main(rt: HostRuntime) -> ExitCode {
    vmsteer(&rt)
}
