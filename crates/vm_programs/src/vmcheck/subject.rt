//! What the words ask for.
ghost use Rattle.std.specs.Prelude.{◌≡◌};
ghost use Rattle.vm_programs.specs.vmcheck.CommandLine.{subject_of};

use super::line::POLICY;
use vm_words::Request;

/// What is checked.
#[derive(Clone, Copy, Debug, PartialEq, Eq)]
pub enum Subject {
    /// A configuration.
    Configuration,
    /// A policy of `vmsteer`.
    Policy,
}

// What a request asks for.
pub(crate) fn subject_of(request: &Request<'_>) -> Subject
    ensures { result ≡ subject_of request.now }
{
    if request.has_flag(POLICY.name) {
        Subject::Policy
    } else {
        Subject::Configuration
    }
}
