//! How the program is called.
use vm_words::{CommandLine, Flag};

/// `--csv`.
pub const CSV: Flag = Flag {
    name: "csv",
    help: "Write a table (CSV) in place of orders",
    beside: Some("svg"),
};

/// `--svg`.
pub const SVG: Flag = Flag {
    name: "svg",
    help: "Write a drawing (SVG) in place of orders, once the log has ended",
    beside: Some("csv"),
};

/// `vmsteer [--csv | --svg] [FILE] < LOG > ORDERS`
pub const LINE: CommandLine = CommandLine {
    program: "vmsteer",
    takes: "LOG",
    gives: "ORDERS",
    takes_file: true,
    about: "Steers the balloons of a libvirt host. It reads a policy (JSON) and what virsh domstats tells, sample\n\
        by sample, from FILE or standard input, and writes for each sample the setmem lines that virsh takes,\n\
        or a table (CSV) or a drawing (SVG), to standard output.",
    example: "Example:\n  vmsteer --csv examples/recorded/host.log > host.csv",
    flags: &[CSV, SVG],
    values: &[],
};
