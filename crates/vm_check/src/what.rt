// What findings say.
ghost use Rattle.std.specs.Prelude.{◌≡◌, ◌*◌};
ghost use Rattle.vm_check.specs.Texts.{text_of_wrong, word_of};

use std::fmt;

/// A threshold of free frames (Waldspurger, "Memory Resource Management in VMware ESX Server", OSDI 2002, section 6.3).
#[derive(Clone, Copy, Debug, PartialEq, Eq)]
pub(crate) enum Level {
    High,
    Soft,
    Hard,
    Low,
}

impl Level {
    /// Its word.
    pub(crate) fn as_str(self) -> &'static str
        ensures { result.now ≡ word_of self }
    {
        match self {
            Level::High => "high",
            Level::Soft => "soft",
            Level::Hard => "hard",
            Level::Low => "low",
        }
    }
}

/// Why a command line is refused whenever it comes.
#[derive(Clone, Copy, Debug, PartialEq, Eq)]
pub(crate) enum Wrong {
    /// Its words have no form of a command.
    BadLine,
    /// Its size or its number of shares can't be read, or is out of range.
    BadSize,
    /// No guest has its name.
    NoSuchDomain,
}

impl Wrong {
    /// Its words, as a report has them.
    pub(crate) fn as_str(self) -> &'static str
        ensures { result.now ≡ text_of_wrong self }
    {
        match self {
            Wrong::BadLine => "bad line",
            Wrong::BadSize => "bad size",
            Wrong::NoSuchDomain => "no such domain",
        }
    }
}

// The most steps that run in so many epochs of so many.
fn most_steps(epochs: u32, quantum: u32) -> u64
    ensures { result ≡ epochs * quantum }
{
    u64::from(epochs) * u64::from(quantum)
}

/// What a finding says.
#[derive(Clone, Copy, Debug, PartialEq, Eq)]
pub(crate) enum What {
    /// A threshold is no frame of so many: however few are free, the host never falls below it.
    NoFrames {
        level: Level,
        frames: u32,
    },
    /// A guest that starts at epoch 0 isn't admitted: with it the minimums and overheads are so many frames, and there are fewer.
    FewFrames {
        promised: u32,
        frames: u32,
    },
    /// A guest that starts at epoch 0 isn't admitted: with it the reserves are so many pages of swap, and there are fewer.
    LittleSwap {
        promised: u32,
        pages: u32,
    },
    /// A minimum is above what the command of a number asks for.
    AboveCommand {
        min: u32,
        pages: u64,
        command: usize,
    },
    /// A guest doesn't start by itself, and no command starts it.
    NeverStarts,
    /// A trace has more steps than so many epochs of so many steps run.
    LongTrace {
        steps: usize,
        epochs: u32,
        quantum: u32,
    },
    /// The step of a number touches a page that was posted to the inflate queue, and that no step posts to the deflate queue.
    Inflated {
        step: usize,
        page: u32,
    },
    /// A command is for an epoch that the run of so many hasn't.
    NeverRuns {
        at: u32,
        epochs: u32,
    },
    /// A command line is refused whenever it comes.
    Refused(Wrong),
}

impl fmt::Display for What {
    ghost use Rattle.std.specs.Prelude.{Some};
    ghost use Rattle.vm_check.specs.Texts.{text_of_what};

    ghost output = { λ what. Some (text_of_what what) };

    fn fmt<W: fmt::Write>(&self, f: &mut fmt::Formatter<W>) -> fmt::Result {
        match *self {
            What::NoFrames { level, frames } => {
                let level = level.as_str();
                write!(f, "{level} is 0 of {frames} frames")
            }
            What::FewFrames { promised, frames } => {
                write!(
                    f,
                    "starts at epoch 0: minimums and overheads {promised} of {frames} frames"
                )
            }
            What::LittleSwap { promised, pages } => {
                write!(
                    f,
                    "starts at epoch 0: reserves {promised} of {pages} pages of swap"
                )
            }
            What::AboveCommand {
                min,
                pages,
                command,
            } => { write!(f, "{min}, above the {pages} pages of command {command}") }
            What::NeverStarts => write!(f, "never starts"),
            What::LongTrace {
                steps,
                epochs,
                quantum,
            } => {
                let most = most_steps(epochs, quantum);
                write!(
                    f,
                    "{steps} steps, and at most {most} run in {epochs} epochs of {quantum}"
                )
            }
            What::Inflated { step, page } => {
                write!(
                    f,
                    "step {step} touches page {page}, which is inflated and never deflated"
                )
            }
            What::NeverRuns { at, epochs } => write!(f, "{at}, and the run has {epochs} epochs"),
            What::Refused(wrong) => {
                let wrong = wrong.as_str();
                write!(f, "{wrong}")
            }
        }
    }
}
