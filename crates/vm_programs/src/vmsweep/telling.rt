//! What is said while runs go on, and of a list for a guest.
use super::keys::SweptKey;
use super::line::LINE;
use std::fmt;
use std::fmt::Display;
use vm_sweep::Progress;

/// Says on standard error how many runs are told, where that is wanted.
#[derive(Drop)]
pub(crate) struct Telling<'a, S> {
    pub(crate) system: &'a S,
    pub(crate) is_wanted: bool,
}

impl<S: Eprint> Progress for Telling<'_, S> {
    fn report(&self, told: usize, all: usize) {
        if self.is_wanted {
            let program = LINE.program;
            let _ = eprintln!(self.system; "{program}: {told} of {all}");
        }
    }
}

/// What is wrong with the list of a key for the guest with a name, as in `--min web: no such guest`.
#[derive(Clone, Copy)]
pub(crate) struct OfGuest<'a, C> {
    pub(crate) key: SweptKey,
    pub(crate) name: &'a str,
    pub(crate) cause: C,
}

impl<'a, C: Display> Display for OfGuest<'a, C> {
    fn fmt<W: fmt::Write>(&self, f: &mut fmt::Formatter<W>) -> fmt::Result {
        write!(f, "--{} {}: {}", self.key, self.name, self.cause)
    }
}
