//! What is said on standard error of a refused configuration.
ghost use Rattle.std.specs.Prelude.{◌≡◌};
ghost use Rattle.vm_programs.specs.runs.Statuses.{status_of};

use super::line::LINE;
use crate::runs;
use std::fmt;
use vm_sim::{ConfigError, RunError};

// A fault by its number, and that of a step by its place.
#[derive(Clone, Copy)]
struct Numbered(ConfigError);

impl fmt::Display for Numbered {
    fn fmt<W: fmt::Write>(&self, f: &mut fmt::Formatter<W>) -> fmt::Result {
        let number = self.0.number();
        match self.0 {
            ConfigError::Trace { guest, step, fault } => {
                let fault = fault as u8;
                write!(
                    f,
                    "config error {number} guest {guest} step {step} fault {fault}"
                )
            }
            _ => write!(f, "config error {number}"),
        }
    }
}

/// Says why the run stopped, and gives the status to end with.
pub fn complain(system: &impl Eprint, error: RunError) -> u8
    ensures { result ≡ status_of error }
{
    match error {
        RunError::Config(fault) => LINE.refuse(system, Numbered(fault)),
        _ => runs::complain(&LINE, system, error),
    }
}
