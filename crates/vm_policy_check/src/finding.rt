// What is found in a policy.
use std::fmt;
use vm_keys::{OddKey, ToldKey};
use vm_samples::PolicyFault;

/// An object of a policy.
#[derive(Clone, Copy, Debug, PartialEq, Eq)]
pub enum Part {
    /// The root.
    Root,
    /// A guest, by its number. Guests are counted from 0, in the order of the text.
    Guest(usize),
}

/// What is wrong or surprising in a policy.
#[derive(Clone, Copy, Debug)]
pub enum Finding<'a> {
    /// The policy is refused, for this fault.
    Fault(PolicyFault),
    /// A key is passed over, or an earlier value of it is.
    Odd {
        part: Part,
        key: OddKey<'a, 'static>,
    },
    /// The minimums of the guests that are steered, each with the overhead of a domain, are together more than the memory, both in
    /// units of so many KiB.
    Crowded {
        kept: u64,
        memory: u32,
        unit: u32,
    },
    /// The guest may have less than it is left at least, by its number.
    Crossed {
        guest: usize,
    },
}

impl fmt::Display for Finding<'_> {
    ghost use Rattle.std.specs.Prelude.{Some};
    ghost use Rattle.vm_policy_check.specs.Findings.{found_of};
    ghost use Rattle.vm_policy_check.specs.Texts.{text_of};

    ghost output = { λ finding. Some (text_of (found_of finding)) };

    fn fmt<W: fmt::Write>(&self, f: &mut fmt::Formatter<W>) -> fmt::Result {
        match *self {
            Finding::Fault(fault) => write!(f, "{fault}"),
            Finding::Odd { part, key } => {
                let odd = OddIn { part, key };
                write!(f, "{odd}")
            }
            Finding::Crowded { kept, memory, unit } => write!(
                f,
                "key \"memory\": minimums and overheads {kept} of {memory} units of {unit} KiB"
            ),
            Finding::Crossed { guest } => write!(f, "guest {guest}, key \"max\": below its min"),
        }
    }
}

// An odd key with its place.
#[derive(Clone, Copy)]
struct OddIn<'a> {
    part: Part,
    key: OddKey<'a, 'static>,
}

impl fmt::Display for OddIn<'_> {
    ghost use Rattle.std.specs.Prelude.{Some};
    ghost use Rattle.vm_keys.specs.OddKeys.{odd_of};
    ghost use Rattle.vm_policy_check.specs.Texts.{odd_text};

    ghost output = { λ it. Some (odd_text it.part (odd_of it.key)) };

    fn fmt<W: fmt::Write>(&self, f: &mut fmt::Formatter<W>) -> fmt::Result {
        let odd = self.key;
        match self.part {
            Part::Root => {
                let told = ToldKey {
                    odd,
                    whose: "the root",
                };
                write!(f, "{told}")
            }
            Part::Guest(guest) => {
                let told = ToldKey {
                    odd,
                    whose: "a guest",
                };
                write!(f, "guest {guest}, {told}")
            }
        }
    }
}
