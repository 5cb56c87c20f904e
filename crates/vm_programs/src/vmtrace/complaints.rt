//! What is said on standard error of an import.
ghost use Rattle.std.specs.Prelude.{◌≡◌};
ghost use Rattle.vm_programs.specs.vmtrace.Statuses.{status_of};

use super::line::LINE;
use vm_import::{ImportError, Imported};

// Says which limit ended the import, if one did.
pub(crate) fn tell_limit(system: &impl Eprint, imported: Imported) {
    if let Some(limit) = imported.limit {
        let program = LINE.program;
        let intervals = imported.intervals;
        let _ = eprintln!(system;
            "{program}: ends after {intervals} intervals: no more than {limit}"
        );
    }
}

// Says why no guest was made, and gives the status to end with.
pub(crate) fn complain(system: &impl Eprint, error: ImportError) -> u8
    ensures { result ≡ status_of error }
{
    match error {
        ImportError::Line { .. } => LINE.refuse(system, error),
        ImportError::Untouched(imported) => {
            tell_limit(system, imported);
            LINE.refuse(system, error)
        }
        ImportError::Read => LINE.read_failed(system),
        ImportError::Write => LINE.write_failed(system),
        ImportError::Memory => LINE.no_memory(system),
    }
}
