//! What a boundary tells.
ghost use Rattle.std.specs.Prelude.{◌≡◌, string_bytes};

use std::marker::Model;
use vm_guest::Stats;
use vm_plan::{Plan, State};
use vm_reclaim::{Blocked, Paging};

/// Why a line was refused. A refused line changes nothing.
#[derive(Clone, Copy, Debug, PartialEq, Eq)]
pub enum Refusal {
    /// No domain has the name.
    NoSuchDomain,
    /// The domain runs already.
    AlreadyRunning,
    /// The domain does not run.
    NotRunning,
    /// The line is no command.
    BadLine,
    /// The size or the number of the line can't be read, or is out of range.
    BadSize,
    /// The cap would be below the minimum.
    BelowMinimum,
    /// The cap would be above the size, or the minimum above the cap.
    AboveMaximum,
    /// The machine has too few frames for what would be promised (admission control: Waldspurger, OSDI 2002, section 6.2).
    NoMemory,
    /// It has too little swap for that.
    NoSwap,
}

/// What `virsh dommemstat` prints of a guest.
#[derive(Clone, Copy, Debug, PartialEq, Eq)]
pub struct DomainStatistics {
    /// The memory that the balloon leaves the guest, in KiB: its size less the device's `actual`, and 0 where that is above the size.
    pub actual: u64,
    /// The memory that the guest holds, in KiB.
    pub rss: u64,
    /// What the guest's driver told last: memory in bytes, which is printed in KiB.
    pub stats: Stats,
}

/// What became of a line.
#[derive(Clone, Copy, Debug, PartialEq, Eq)]
pub enum Outcome {
    /// It was obeyed.
    Done,
    /// It was not.
    Refused(Refusal),
    /// It was obeyed, and this is what it asked for.
    Shown(DomainStatistics),
}

/// The answer to a command line.
#[derive(Debug, Drop)]
pub struct Answer {
    line: String,
    revocations: Plan,
    outcome: Outcome,
}

impl Model for Answer {
    ghost use Rattle.std.specs.Prelude.{string_bytes};
    ghost use Rattle.vm_host.specs.Answers.{AnswerValue};

    ghost Value = { AnswerValue };

    ghost view = { λ a. record { line = string_bytes a.line; revocations = a.revocations; outcome = a.outcome } };
}

impl Answer {
    pub(crate) fn new(line: String, revocations: Plan, outcome: Outcome) -> Self
        ensures { result ≡ record { line = string_bytes line; revocations = revocations; outcome = outcome } }
    {
        Answer {
            line,
            revocations,
            outcome,
        }
    }

    /// The line as it was given.
    pub fn line(&self) -> &str
        ensures { result.now ≡ self.now.line }
    {
        self.line.as_str()
    }

    /// The positions of the guests whose targets fell to make room for it, one for each page, in order.
    pub fn revocations(&self) -> &Plan
        ensures { result.now ≡ self.now.revocations }
    {
        &self.revocations
    }

    /// What became of it.
    pub fn outcome(&self) -> Outcome
        ensures { result ≡ self.now.outcome }
    {
        self.outcome
    }
}

/// The answers to the lines of a boundary, in order. A clause reads them as a list.
#[derive(Debug, Drop)]
pub struct Answers {
    items: Vec<Answer>,
}

impl Model for Answers {
    ghost use Rattle.std.specs.Prelude.{List};
    ghost use Rattle.vm_host.specs.Answers.{AnswerValue};

    ghost Value = { List AnswerValue };

    ghost view = { λ a. a.items.items };
}

impl Answers {
    pub(crate) fn new(items: Vec<Answer>) -> Self
        ensures { result ≡ items.items }
    {
        Answers { items }
    }

    /// All of them, in order.
    pub fn as_slice(&self) -> &[Answer]
        ensures { result.now ≡ self.now }
    {
        self.items.as_slice()
    }
}

/// What a boundary did.
#[derive(Debug, Drop)]
pub struct Boundary {
    /// The answers to its lines.
    pub answers: Answers,
    /// The state that it leaves.
    pub state: State,
    /// How many frames were free when the state was found.
    pub free: u32,
    /// The positions of the guests whose targets fell by the boundary's own revocation, one for each page, in order.
    pub revoked: Plan,
    /// The guests that gave up frames by the boundary's paging, in order.
    pub paged: Paging,
    /// The positions of the guests whose targets rose, one for each page, in order.
    pub granted: Plan,
    /// The positions of the guests whose targets fell for guests that would pay more, one for each page, in order.
    pub rebalanced: Plan,
    /// The positions of the guests that are blocked, in order.
    pub blocked: Blocked,
}
