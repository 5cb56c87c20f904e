//! How the program is called.
use crate::runs::WORKERS;
use vm_words::CommandLine;

/// `vmmem [--workers N] < CONFIGURATION > REPORT`
pub const LINE: CommandLine = CommandLine {
    program: "vmmem",
    takes: "CONFIGURATION",
    gives: "REPORT",
    takes_file: false,
    about: "Runs the guests that a configuration names on an overcommitting host, and tells what happens there,\n\
        epoch by epoch. It reads the configuration (JSON) from standard input, and writes the report to\n\
        standard output.",
    example: "Example:\n  vmmem --workers 4 < examples/overcommit.json > overcommit.report",
    flags: &[],
    values: &[WORKERS],
};
