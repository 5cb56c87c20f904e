//! Reads a log of valgrind's lackey from FILE or standard input, and writes a configuration with one guest that touches memory as the
//! program did to standard output:
//! `vmtrace [--name NAME] [--min PAGES] [--interval LINES] [--quantum STEPS] [--skip LINES] [--steps N] [--no-code] [FILE]`.
#![tactic(auto)]

use std::process::ExitCode;
use vm_programs::vmtrace::vmtrace;

fn main(rt: HostRuntime) -> ExitCode {
    vmtrace(&rt)
}
