//! How the program is called.
use vm_words::{CommandLine, Flag, ValueKind, ValueWord};

/// `vmtrace [--no-code] [--name NAME] [--min PAGES] [--interval LINES] [--quantum STEPS] [--skip LINES] [--steps N] [FILE] < LOG > CONFIGURATION`
pub const LINE: CommandLine = CommandLine {
    program: "vmtrace",
    takes: "LOG",
    gives: "CONFIGURATION",
    takes_file: true,
    about: "Makes a guest that touches memory as a recorded program did. It reads a log of valgrind's lackey\n\
        (valgrind --tool=lackey --trace-mem=yes) from FILE or standard input, and writes a configuration (JSON)\n\
        with that guest to standard output.",
    example: "Example:\n  vmtrace --name sort --interval 100000 sort.log > sort.json",
    flags: &[Flag {
        name: "no-code",
        help: "Fetched instructions count, and touch nothing; else they read",
        beside: None,
    }],
    values: &[
        ValueWord {
            name: "name",
            value_name: "NAME",
            help: "The guest's name: 1 to 32 letters, digits, _, . and -, the first no -; guest where it isn't said",
            kind: ValueKind::Text,
        },
        ValueWord {
            name: "min",
            value_name: "PAGES",
            help: "The guest's minimum, 1 to 262144, at most its size; half of its size where it isn't said",
            kind: ValueKind::Number {
                least: 1,
                greatest: 262144,
            },
        },
        ValueWord {
            name: "interval",
            value_name: "LINES",
            help: "The accesses of an interval, 1 to 1000000000; 1000000 where it isn't said",
            kind: ValueKind::Number {
                least: 1,
                greatest: 1000000000,
            },
        },
        ValueWord {
            name: "quantum",
            value_name: "STEPS",
            help: "The steps of an epoch, 1 to 65536; 1024 where it isn't said",
            kind: ValueKind::Number {
                least: 1,
                greatest: 65536,
            },
        },
        ValueWord {
            name: "skip",
            value_name: "LINES",
            help: "The accesses that are left out at the start; none where it isn't said",
            kind: ValueKind::Number {
                least: 0,
                greatest: 18446744073709551615,
            },
        },
        ValueWord {
            name: "steps",
            value_name: "N",
            help: "The most steps, 1 to 1000000; 1000000 where it isn't said",
            kind: ValueKind::Number {
                least: 1,
                greatest: 1000000,
            },
        },
    ],
};
