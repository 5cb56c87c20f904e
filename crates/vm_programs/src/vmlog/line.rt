//! How the program is called.
use vm_words::{CommandLine, ValueKind, ValueWord};

/// `--every N`.
pub const EVERY: ValueWord = ValueWord {
    name: "every",
    value_name: "N",
    help: "The samples of an epoch, 1 to 10000; 1 where it isn't said",
    kind: ValueKind::Number {
        least: 1,
        greatest: 10000,
    },
};

/// `vmlog [--every N] [FILE] < LOG > CONFIGURATION`
pub const LINE: CommandLine = CommandLine {
    program: "vmlog",
    takes: "LOG",
    gives: "CONFIGURATION",
    takes_file: true,
    about: "Makes a configuration of a recorded libvirt host, with a guest for each of its domains. It reads a\n\
        policy (JSON) and what virsh domstats told, sample by sample, from FILE or standard input, and writes\n\
        the configuration (JSON) to standard output.",
    example: "Example:\n  vmlog --every 6 examples/recorded/host.log > host.json",
    flags: &[],
    values: &[EVERY],
};
