//! What is said on standard error of a run that stopped, and the exit status that goes with it.
ghost use Rattle.std.specs.Prelude.{◌≡◌};
ghost use Rattle.vm_programs.specs.runs.Statuses.{status_of};

use vm_sim::{RunError, explain};
use vm_words::CommandLine;

/// Says why a run stopped, and gives the status to end with. Of a refused configuration it says what is wrong, and not where.
pub fn complain(line: &CommandLine, system: &impl Eprint, error: RunError) -> u8
    ensures { result ≡ status_of error }
{
    match error {
        RunError::Config(fault) => line.refuse(system, fault),
        RunError::Workers => line.usage(system),
        RunError::Read => line.read_failed(system),
        RunError::Write => line.write_failed(system),
        RunError::Memory => line.no_memory(system),
    }
}

/// Says why a text was not run, and gives the status to end with. Of a refused configuration it says where its first fault stands,
/// or, where memory is refused for that, the fault alone.
pub fn complain_of_text(
    line: &CommandLine,
    system: &(impl Eprint + AllocGlobal),
    text: &[u8],
    error: RunError,
) -> u8
    ensures { result ≡ status_of error }
{
    let RunError::Config(_) = error else {
        return complain(line, system, error);
    };
    match explain(system.alloc(), text) {
        Ok(Some(fault)) => line.refuse(system, fault),
        _ => complain(line, system, error),
    }
}
