//! What the words ask for.
ghost use Rattle.std.specs.Prelude.{◌≡◌};
ghost use Rattle.vm_programs.specs.vmsteer.CommandLine.{output_of};

use super::line::{CSV, SVG};
use vm_steer::Form;
use vm_words::Request;

/// What is written of a host log.
#[derive(Clone, Copy, Debug, PartialEq, Eq)]
pub enum Output {
    /// What was decided of each sample, in this form, as soon as the sample is there.
    Samples(Form),
    /// A drawing of all samples, once the log has ended.
    Drawing,
}

// What a request asks for.
pub(crate) fn output_of(request: &Request<'_>) -> Output
    ensures { result ≡ output_of request.now }
{
    if request.has_flag(SVG.name) {
        Output::Drawing
    } else if request.has_flag(CSV.name) {
        Output::Samples(Form::Table)
    } else {
        Output::Samples(Form::Orders)
    }
}
