//! How the program is called.
use crate::runs::WORKERS;
use vm_words::{CommandLine, Flag};

/// `--svg`.
pub const SVG: Flag = Flag {
    name: "svg",
    help: "Write a drawing (SVG) in place of comma-separated values",
    beside: None,
};

/// `vmseries [--svg] [--workers N] [FILE] < CONFIGURATION > SERIES`
pub const LINE: CommandLine = CommandLine {
    program: "vmseries",
    takes: "CONFIGURATION",
    gives: "SERIES",
    takes_file: true,
    about: "Runs the guests that a configuration names, and tells what is seen of their host after each epoch.\n\
        It reads the configuration (JSON) from FILE or standard input, and writes a table (CSV), or a drawing\n\
        (SVG), to standard output.",
    example: "Example:\n  vmseries --svg examples/overcommit.json > overcommit.svg",
    flags: &[SVG],
    values: &[WORKERS],
};
