// What a line adds to a reading.
ghost use Rattle.std.specs.Prelude.{◌≡◌};
ghost use Rattle.vm_import.specs.BlockSteps.{step_of};

use crate::access::Access;

/// One step of a reading.
#[derive(Clone, Copy)]
pub(crate) enum Step {
    /// There is no line any more.
    Ended,
    /// A line was passed over.
    Passed,
    /// A line is an access.
    Found(Access),
}

// The step that a line is, of which this was found.
pub(crate) fn step_of(found: Option<Access>) -> Step
    ensures { result ≡ step_of found }
{
    match found {
        Some(access) => Step::Found(access),
        None => Step::Passed,
    }
}
