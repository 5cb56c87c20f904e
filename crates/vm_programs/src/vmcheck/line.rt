//! How the program is called.
use vm_words::{CommandLine, Flag};

/// `--policy`.
pub const POLICY: Flag = Flag {
    name: "policy",
    help: "Check a policy of vmsteer in place of a configuration",
    beside: None,
};

/// `vmcheck [--policy] [FILE] < CONFIGURATION > FINDINGS`
pub const LINE: CommandLine = CommandLine {
    program: "vmcheck",
    takes: "CONFIGURATION",
    gives: "FINDINGS",
    takes_file: true,
    about: "Tells what is wrong or surprising in a configuration, or in a policy of vmsteer. It reads the\n\
        configuration or the policy (JSON) from FILE or standard input, and writes a line for each finding,\n\
        PLACE: WHAT, to standard output. The exit status is 0 where there is none, and 1 where there is one or\n\
        the text is refused.",
    example: "Example:\n  vmcheck examples/overcommit.json",
    flags: &[POLICY],
    values: &[],
};
