//! Tells what is wrong or surprising in a configuration or a policy in FILE or on standard input, a line for each finding:
//! `vmcheck [--policy] [FILE]`.
#![tactic(auto)]

use std::process::ExitCode;
use vm_programs::vmcheck::vmcheck;

fn main(rt: HostRuntime) -> ExitCode {
    vmcheck(&rt)
}
