// What is wrong with the text of a list.
use crate::bounds::Limits;
use thiserror::Error;

/// The first fault of a list.
#[derive(Clone, Copy, Debug, PartialEq, Eq, Error)]
#[error("at byte {at}: {kind}")]
pub struct ListFault {
    /// The byte of the list where it stands, from 0.
    pub at: usize,
    pub kind: ListFaultKind,
}

/// What the fault is.
#[derive(Clone, Copy, Debug, PartialEq, Eq, Error)]
pub enum ListFaultKind {
    /// The item that begins there is no number and no range.
    #[error("not a list of numbers and ranges")]
    NoItem,
    /// The number that begins there is outside its range.
    #[error("outside its range of {limits}")]
    OutsideRange { limits: Limits },
    /// The end that begins there is below the beginning of its range.
    #[error("the range ends below its beginning")]
    EndsBelow,
    /// The step that begins there is 0.
    #[error("the step is 0")]
    NoStep,
    /// There was no memory for the item that begins there.
    #[error("out of memory")]
    Memory,
}

/// The first fault of a list with a name.
#[derive(Clone, Copy, Debug, PartialEq, Eq, Error)]
#[error("at byte {at}: {kind}")]
pub struct NamedListFault {
    /// The byte of the text where it stands, from 0: the name and its `=` count too.
    pub at: usize,
    pub kind: NamedListFaultKind,
}

/// What the fault is.
#[derive(Clone, Copy, Debug, PartialEq, Eq, Error)]
pub enum NamedListFaultKind {
    /// The text ends there, and has no `=`.
    #[error("no = behind the name")]
    NoEquals,
    /// The list behind the `=` has this fault.
    #[error("{fault}")]
    BadList { fault: ListFaultKind },
}

/// The first fault of the names of lists.
#[derive(Clone, Copy, Debug, PartialEq, Eq, Error)]
#[error("name {place}: {kind}")]
pub struct NameFault {
    /// The place of its list, from 0.
    pub place: usize,
    pub kind: NameFaultKind,
}

/// What the fault is.
#[derive(Clone, Copy, Debug, PartialEq, Eq, Error)]
pub enum NameFaultKind {
    /// It is no name.
    #[error("no name")]
    NoName,
    /// It is the name of an earlier list.
    #[error("twice")]
    Twice,
}
