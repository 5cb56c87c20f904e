//! What is said on standard error of a host log.
ghost use Rattle.std.specs.Prelude.{◌≡◌};
ghost use Rattle.vm_programs.specs.vmlog.Statuses.{status_of};

use super::line::LINE;
use crate::input::MOST_BYTES;
use vm_log::{PlanError, Planned};

// Says which limit ended the reading, if one did, and how many bad samples were passed over, if any were.
pub(crate) fn tell(system: &impl Eprint, planned: Planned) {
    let program = LINE.program;
    if let Some(limit) = planned.limit {
        let epochs = planned.epochs;
        let _ = eprintln!(system; "{program}: ends after {epochs} epochs: no more than {limit}");
    }
    let bad = planned.bad;
    if bad > 0 {
        let _ = eprintln!(system; "{program}: {bad} bad samples");
    }
}

// Says why there is no configuration, and gives the status to end with.
pub(crate) fn complain(system: &impl Eprint, error: PlanError) -> u8
    ensures { result ≡ status_of error }
{
    match error {
        PlanError::Policy(fault) => LINE.refuse(system, fault),
        PlanError::Read => LINE.read_failed(system),
        PlanError::TooLong => LINE.too_long(system, "the policy or a sample", MOST_BYTES),
        PlanError::Write => LINE.write_failed(system),
        PlanError::Memory => LINE.no_memory(system),
    }
}
