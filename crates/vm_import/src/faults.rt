// Why a log is read no further.
use thiserror::Error;

/// What is wrong with a line; of several the first one here.
#[derive(Clone, Copy, Debug, PartialEq, Eq, Error)]
pub enum LineFault {
    /// It begins with one of the marks `==`, `--` and `**`, then 1 to 10 digits and the same mark again, and an earlier line
    /// that did so had other digits.
    #[error("another process")]
    AnotherProcess,
    /// It isn't empty, begins with no mark, and its first three bytes are none of `I  `, ` L `, ` S ` and ` M `.
    #[error("not a line of lackey")]
    NotALine,
    /// Behind the first three bytes are not 1 to 16 hexadecimal digits and a comma.
    #[error("no address")]
    NoAddress,
    /// What is behind the comma isn't 1 to 4 decimal digits of a number from 1 to 1024.
    #[error("no size")]
    NoSize,
    /// The address and the size together are above 2^64.
    #[error("past the last address")]
    PastTheEnd,
}

/// Why a log is read no further.
#[derive(Clone, Copy, Debug, PartialEq, Eq, Error)]
pub enum LogError {
    /// A line is refused. Lines count from 1, all of them.
    #[error("line {number}: {fault}")]
    Line { number: u64, fault: LineFault },
    /// The source failed.
    #[error("read failed")]
    Read,
    /// The log has 2^64 bytes or more.
    #[error("too long")]
    TooLong,
}
