//! What is said on standard error of a log that is not steered by to its end.
ghost use Rattle.std.specs.Prelude.{◌≡◌};
ghost use Rattle.vm_programs.specs.vmsteer.Statuses.{status_of};

use super::line::LINE;
use crate::input::MOST_BYTES;
use vm_steer::SteerError;

// Says why, and gives the status to end with.
pub(crate) fn complain(system: &impl Eprint, error: SteerError) -> u8
    ensures { result ≡ status_of error }
{
    match error {
        SteerError::Policy(fault) => LINE.refuse(system, fault),
        SteerError::Read => LINE.read_failed(system),
        SteerError::TooLong => LINE.too_long(system, "the policy or a sample", MOST_BYTES),
        SteerError::Write => LINE.write_failed(system),
        SteerError::Memory => LINE.no_memory(system),
    }
}
