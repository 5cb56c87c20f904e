//! How the program is called.
use crate::runs::WORKERS;
use vm_words::{CommandLine, Flag, ValueKind, ValueWord};

/// The greatest number of seeds.
pub(crate) const MAX_SEEDS: u64 = 1000;

/// `vmsweep [--frames LIST] [--swap LIST] [--tax LIST] [--page-rate LIST] [--rebalance LIST] [--min-percent LIST] [--min NAME=LIST]..
/// [--shares NAME=LIST].. [--seeds N] [--guests | --svg] [--progress] [--workers N] [FILE] < CONFIGURATION > SWEEP`
pub const LINE: CommandLine = CommandLine {
    program: "vmsweep",
    takes: "CONFIGURATION",
    gives: "SWEEP",
    takes_file: true,
    about: "Runs a configuration on each of the machines and under each of the policies that are listed. It reads\n\
        the configuration (JSON) from FILE or standard input, and writes a table (CSV) with a record for each\n\
        run, or a drawing (SVG), to standard output. A LIST has values and ranges with a step, as in\n\
        96,128..256/32; what has no LIST is as the configuration says.",
    example: "Example:\n  vmsweep --frames 300..600/50 --tax 0,75 examples/overcommit.json > overcommit.csv",
    flags: &[
        Flag {
            name: "guests",
            help: "Write a record for each run and guest, in place of one for each run",
            beside: Some("svg"),
        },
        Flag {
            name: "svg",
            help: "Write a drawing (SVG) in place of comma-separated values",
            beside: Some("guests"),
        },
        Flag {
            name: "progress",
            help: "Say on standard error how many runs have ended",
            beside: None,
        },
    ],
    values: &[
        ValueWord {
            name: "frames",
            value_name: "LIST",
            help: "The frames of the machine, 1 to 262144, as in 96,128..256/32",
            kind: ValueKind::Text,
        },
        ValueWord {
            name: "swap",
            value_name: "LIST",
            help: "The pages of the swap area, 0 to 67108864",
            kind: ValueKind::Text,
        },
        ValueWord {
            name: "tax",
            value_name: "LIST",
            help: "The tax on idle memory in percent, 0 to 99.99",
            kind: ValueKind::Text,
        },
        ValueWord {
            name: "page-rate",
            value_name: "LIST",
            help: "The most frames that a guest gives up by paging at a boundary, 1 to 256",
            kind: ValueKind::Text,
        },
        ValueWord {
            name: "rebalance",
            value_name: "LIST",
            help: "The most pages that a boundary moves from idle guests to others, 0 to 262144",
            kind: ValueKind::Text,
        },
        ValueWord {
            name: "min-percent",
            value_name: "LIST",
            help: "The minimum of each guest in percent of its size, 1 to 100",
            kind: ValueKind::Text,
        },
        ValueWord {
            name: "min",
            value_name: "NAME=LIST",
            help: "The minimum of the guest NAME in pages, 1 to 262144; may be given for several guests",
            kind: ValueKind::Texts,
        },
        ValueWord {
            name: "shares",
            value_name: "NAME=LIST",
            help: "The shares of the guest NAME, 1 to 1000000; may be given for several guests",
            kind: ValueKind::Texts,
        },
        ValueWord {
            name: "seeds",
            value_name: "N",
            help: "Run each combination N times, with other seeds of the guests each time, 1 to 1000",
            kind: ValueKind::Number {
                least: 1,
                greatest: MAX_SEEDS,
            },
        },
        ValueWord {
            help: "On how many threads the runs go, 1 to 64; 1 where it isn't said",
            ..WORKERS
        },
    ],
};
