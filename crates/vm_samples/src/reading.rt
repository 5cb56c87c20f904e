// From the lines of a sample to its domains.
ghost use Rattle.std.specs.Prelude.{◌≡◌};
ghost use Rattle.vm_samples.specs.SampleOf.{judged, sample_of, ReadsSample};
ghost use Rattle.vm_samples.specs.Steps.{error_at};

use crate::line::{LineError, take_line};
use crate::lines::line_end;
use crate::sample::{BadLine, BadSample, Domain, Sample, SampleError};
use std::alloc::Global;

const MAX_DOMAINS: usize = 256;

// What is wrong with the line of this number.
fn at_line(line: u64, error: LineError) -> SampleError
    ensures { result ≡ error_at line error }
{
    match error {
        LineError::Bad(what) => SampleError::Bad(BadSample { line, what }),
        LineError::Memory => SampleError::Memory,
    }
}

// The domains as a sample, in front of the line of this number, which isn't there.
fn judged(line: u64, domains: Vec<Domain>) -> Result<Sample, SampleError>
    ensures { ReadsSample result (judged line domains.items) }
{
    if domains.is_empty() {
        return Err(at_line(line, LineError::Bad(BadLine::NoDomain)));
    }
    if domains.len() > MAX_DOMAINS {
        return Err(at_line(line, LineError::Bad(BadLine::TooManyDomains)));
    }
    Ok(Sample { domains })
}

/// Reads what `virsh domstats --state --balloon --raw` writes of the domains of a host. Each line ends with LF; what stands behind
/// the last LF is no line.
///
/// A line is empty; or it is `Domain: 'NAME'`, with NAME to the last quote, which ends the line; or it begins with one or more
/// spaces, and has KEY up to the first `=`, and VALUE behind that. The lines of keys are of the domain in the last line of one.
/// These keys are read, and all others passed over: `state.state`, `balloon.current`, `balloon.maximum`, `balloon.usable`,
/// `balloon.unused`, `balloon.swap_in`. Their VALUE is 1 to 20 digits of a number below 2^64; of a key that comes twice in a domain
/// the last value holds.
///
/// The error is [`SampleError::Bad`] with the first line for which one of these applies: it is no such line, or one of a key in
/// front of the first domain ([`BadLine::NotALine`]), or the VALUE of a key that is read is another ([`BadLine::NotANumber`]); and,
/// with the number behind that of the last line, where there are more than 256 domains ([`BadLine::TooManyDomains`]) or none
/// ([`BadLine::NoDomain`]). [`SampleError::Memory`] may come in place of any answer. Memory is taken for 257 domains at most.
pub fn read_sample(alloc: Global, lines: &[u8]) -> Result<Sample, SampleError>
    ensures { ReadsSample result (sample_of lines.now) }
{
    let mut domains = Vec::new(alloc);
    let mut start = 0;
    let mut number: u64 = 1;
    while let Some(len) = line_end(&lines[start..]) {
        if let Err(error) = take_line(alloc, &mut domains, &lines[start..], len) {
            return Err(at_line(number, error));
        }
        start += len + 1;
        number += 1;
    }
    judged(number, domains)
}
