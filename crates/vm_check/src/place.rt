// Where findings stand.
use std::fmt;
use vm_config::{Key, Part, Place};

/// Where a finding stands. Guests and commands are counted from 0, in the order of the text.
#[derive(Clone, Copy, Debug, PartialEq, Eq)]
pub(crate) enum FindingPlace {
    /// A key of the root, of a guest or of a command.
    Key { part: Part, key: Key },
    /// A guest, by its number.
    Guest(usize),
}

impl fmt::Display for FindingPlace {
    ghost use Rattle.std.specs.Prelude.{Some};
    ghost use Rattle.vm_check.specs.Texts.{text_of_place};

    ghost output = { λ place. Some (text_of_place place) };

    fn fmt<W: fmt::Write>(&self, f: &mut fmt::Formatter<W>) -> fmt::Result {
        match *self {
            FindingPlace::Key { part, key } => {
                let place = Place::Key { part, key };
                write!(f, "{place}")
            }
            FindingPlace::Guest(guest) => write!(f, "guest {guest}"),
        }
    }
}
