//! How a program is called.
ghost use Rattle.std.specs.Prelude.{◌≡◌, IfOk, false, map};
ghost use Rattle.clap.specs.Words.{app_of, new_app, rule_of};
ghost use Rattle.vm_words.specs.Words.{action_for, file_option, file_options, flag_option, flag_rule, value_option, value_rule, versioned, with_options};

use clap::builder::ValueParser;
use clap::{Arg, ArgAction, Command};
use std::alloc::{AllocError, Global};

/// The version of all programs, as `--version` says it.
pub const VERSION: &str = "1.0.0";

/// What stands for the file in the usage and the help.
pub const FILE: &str = "FILE";

/// A flag of a program.
#[derive(Clone, Copy, Debug)]
pub struct Flag {
    /// Its name, without the two dashes before it.
    pub name: &'static str,
    /// What it does, in a line of the help.
    pub help: &'static str,
    /// The name of a flag that may not stand beside it.
    pub beside: Option<&'static str>,
}

/// What a value has to be.
#[derive(Clone, Copy, Debug)]
pub enum ValueKind {
    /// Any text.
    Text,
    /// Any texts: the word may be given several times, with a text each time.
    Texts,
    /// A whole number, as decimal digits.
    Number {
        /// The least that it may be.
        least: u64,
        /// The greatest that it may be.
        greatest: u64,
    },
}

/// A value that a program may be given.
#[derive(Clone, Copy, Debug)]
pub struct ValueWord {
    /// Its name, without the two dashes before it.
    pub name: &'static str,
    /// What stands for the value in the usage and the help.
    pub value_name: &'static str,
    /// What it says, in a line of the help.
    pub help: &'static str,
    /// What it has to be.
    pub kind: ValueKind,
}

/// How a program is called: `PROGRAM [--FLAG] .. [--VALUE NAME] .. [FILE] < TAKES > GIVES`. What is given twice is refused, but for a
/// value of [`ValueKind::Texts`].
#[derive(Clone, Copy, Debug)]
pub struct CommandLine {
    /// The program's name, which stands before each of its complaints.
    pub program: &'static str,
    /// What the program reads, as its usage calls it.
    pub takes: &'static str,
    /// What the program writes, as its usage calls it.
    pub gives: &'static str,
    /// The flags that it may be given.
    pub flags: &'static [Flag],
    /// The values that it may be given.
    pub values: &'static [ValueWord],
    /// Whether it may be given a file to read in place of standard input.
    pub takes_file: bool,
    /// What the program is, and what it reads and writes, in a few lines at the top of the help.
    pub about: &'static str,
    /// A line to copy, at the end of the help.
    pub example: &'static str,
}

// `--NAME`.
#[tactic(auto, unfolding(crate::specs::Words::flag_option))]
fn flag_argument<'a>(alloc: Global, flag: &Flag) -> Arg<'a>
    ensures rule { rule_of result ≡ flag_option (flag_rule flag.now) }
    ensures local { result.global ≡ false }
{
    Arg::new(alloc, flag.name)
        .long(flag.name)
        .help(flag.help)
        .action(ArgAction::SetTrue)
}

// What `clap` does with a value that is given.
fn action_for(kind: &ValueKind) -> ArgAction
    ensures { result ≡ action_for kind.now }
{
    match kind {
        ValueKind::Texts => ArgAction::Append,
        _ => ArgAction::Set,
    }
}

// `--NAME VALUE`.
fn value_argument<'a>(alloc: Global, value: &ValueWord) -> Arg<'a>
    ensures rule { rule_of result ≡ value_option (value_rule value.now) }
    ensures local { result.global ≡ false }
{
    let argument = Arg::new(alloc, value.name)
        .long(value.name)
        .value_name(value.value_name)
        .help(value.help)
        .action(action_for(&value.kind));
    match value.kind {
        ValueKind::Text => argument,
        ValueKind::Texts => argument,
        ValueKind::Number { least, greatest } => {
            argument.value_parser(ValueParser::unsigned(least, greatest))
        }
    }
}

// `FILE`.
fn file_argument<'a>(alloc: Global) -> Arg<'a>
    ensures rule { rule_of result ≡ file_option }
    ensures local { result.global ≡ false }
{
    Arg::new(alloc, FILE)
        .value_name(FILE)
        .help("The file to read in place of standard input; - is standard input")
        .action(ArgAction::Set)
}

// A command of this name without words of its own.
fn named<'a>(alloc: Global, line: &CommandLine) -> Command<'a>
    ensures { app_of result ≡ versioned (new_app line.now.program.now) }
{
    Command::new(alloc, line.program)
        .version(VERSION)
        .about(line.about)
        .after_help(line.example)
}

// A command with these flags.
fn with_flags<'a>(
    alloc: Global,
    command: Command<'a>,
    flags: &[Flag],
) -> Result<Command<'a>, AllocError>
    ensures { IfOk result (λ with. app_of with
        ≡ with_options (app_of command.entry) (map flag_option (map flag_rule flags.now))) }
{
    let mut with = command;
    for flag in flags {
        with = with.arg(flag_argument(alloc, flag))?;
    }
    Ok(with)
}

// A command with these values.
fn with_values<'a>(
    alloc: Global,
    command: Command<'a>,
    values: &[ValueWord],
) -> Result<Command<'a>, AllocError>
    ensures { IfOk result (λ with. app_of with
        ≡ with_options (app_of command.entry) (map value_option (map value_rule values.now))) }
{
    let mut with = command;
    for value in values {
        with = with.arg(value_argument(alloc, value))?;
    }
    Ok(with)
}

// A command with FILE, where it takes one.
fn with_file<'a>(
    alloc: Global,
    command: Command<'a>,
    takes_file: bool,
) -> Result<Command<'a>, AllocError>
    ensures { IfOk result (λ with. app_of with ≡ with_options (app_of command.entry) (file_options takes_file)) }
{
    if takes_file {
        command.arg(file_argument(alloc))
    } else {
        Ok(command)
    }
}

impl CommandLine {
    ghost use Rattle.vm_words.specs.Words.{command_line, line_of};

    // The command line, for `clap`.
    pub(crate) fn command<'a>(&self, alloc: Global) -> Result<Command<'a>, AllocError>
        ensures { IfOk result (λ command. app_of command ≡ command_line (line_of self.now)) }
    {
        let command = with_flags(alloc, named(alloc, self), self.flags)?;
        let command = with_values(alloc, command, self.values)?;
        with_file(alloc, command, self.takes_file)
    }
}
