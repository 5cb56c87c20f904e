// What `virsh domstats` tells of the domains of a host at one moment.
ghost use Rattle.std.specs.Prelude.{◌≡◌};

use std::alloc::AllocError;
use std::error::Error;
use std::fmt;
use std::marker::Model;
use thiserror::Error as ThisError;

/// What `virsh domstats --state --balloon --raw` tells of one domain. A number is absent where the domain's statistics have none.
#[derive(Debug, Drop)]
pub struct Domain {
    /// The bytes between the quotes, whatever they are: a guest's name is one that [`is_name`](crate::is_name) takes.
    pub name: Vec<u8>,
    /// `state.state`; 1 is running.
    pub state: Option<u64>,
    /// `balloon.current`, the KiB that it holds.
    pub current: Option<u64>,
    /// `balloon.maximum`, the KiB that it may hold.
    pub maximum: Option<u64>,
    /// `balloon.usable`, the KiB that its guest could give without swapping.
    pub usable: Option<u64>,
    /// `balloon.unused`, the KiB that its guest has in no use at all.
    pub unused: Option<u64>,
    /// `balloon.swap_in`, the KiB that its guest has read from its swap so far.
    pub swap_in: Option<u64>,
}

impl Model for Domain {
    ghost use Rattle.vm_samples.specs.Samples.{DomainView};

    ghost Value = { DomainView };

    ghost view = { λ d. record { name = d.name.items; state = d.state; current = d.current; maximum = d.maximum; usable = d.usable; unused = d.unused; swap_in = d.swap_in } };
}

/// The domains of a sample, 1 to 256, in the order of its lines. Two may have one name. A clause reads them as a list.
#[derive(Debug, Drop)]
pub struct Sample {
    pub(crate) domains: Vec<Domain>,
}

impl Model for Sample {
    ghost use Rattle.std.specs.Prelude.{List};
    ghost use Rattle.vm_samples.specs.Samples.{DomainView, IsSample};

    ghost Value = { List DomainView };

    ghost view = { λ s. s.domains.items };

    ghost invariant = { λ s. IsSample s.domains.items };
}

impl Sample {
    ghost use Rattle.vm_samples.specs.Samples.{IsSample};

    /// The domains, in the order of the lines.
    pub fn domains(&self) -> &[Domain]
        ensures domains { result.now ≡ self.now }
        ensures few { IsSample self.now }
    {
        self.domains.as_slice()
    }
}

/// Why a sample is bad.
#[derive(Clone, Copy, Debug, PartialEq, Eq)]
pub enum BadLine {
    /// It is no line that `virsh domstats` writes, or one of a key in front of the first domain.
    NotALine,
    /// The value of a key that is read is not 1 to 20 digits of a number below 2^64.
    NotANumber,
    /// More than 256 domains, at the line behind the last one.
    TooManyDomains,
    /// No domain, at the line behind the last one.
    NoDomain,
}

impl fmt::Display for BadLine {
    ghost use Rattle.std.specs.Prelude.{Some};
    ghost use Rattle.vm_samples.specs.BadLines.{text_of_what};

    ghost output = { λ what. Some (text_of_what what) };

    fn fmt<W: fmt::Write>(&self, f: &mut fmt::Formatter<W>) -> fmt::Result {
        match self {
            BadLine::NotALine => write!(f, "not a line of domstats"),
            BadLine::NotANumber => write!(f, "not a number"),
            BadLine::TooManyDomains => write!(f, "more than 256 domains"),
            BadLine::NoDomain => write!(f, "no domain"),
        }
    }
}

/// The first line for which a sample is bad, and why. Lines are the sample's own, and count from 1.
#[derive(Clone, Copy, Debug, PartialEq, Eq)]
pub struct BadSample {
    pub line: u64,
    pub what: BadLine,
}

impl fmt::Display for BadSample {
    ghost use Rattle.std.specs.Prelude.{Some};
    ghost use Rattle.vm_samples.specs.BadLines.{text_of};

    ghost output = { λ bad. Some (text_of bad) };

    fn fmt<W: fmt::Write>(&self, f: &mut fmt::Formatter<W>) -> fmt::Result {
        let BadSample { line, what } = *self;
        write!(f, "line {line}: {what}")
    }
}

impl Error for BadSample {}

/// Why no sample was read.
#[derive(Clone, Copy, Debug, PartialEq, Eq, ThisError)]
pub enum SampleError {
    /// The sample is bad.
    #[error("{0}")]
    Bad(BadSample),
    /// Memory was refused.
    #[error("out of memory")]
    Memory,
}

impl From<AllocError> for SampleError {
    ghost use Rattle.vm_samples.specs.declared.sample.SampleError.TheVariants.{Memory};

    ghost from_gives = { λ _ error. error ≡ Memory };

    fn from(_error: AllocError) -> SampleError {
        SampleError::Memory
    }
}
