// The places of a policy at which a fault may stand.
ghost use Rattle.std.specs.Prelude.{◌≡◌};
ghost use Rattle.vm_samples.specs.Places.{name_of};

use std::fmt;

/// A key of the root or of a guest, in the order in which the keys of each are looked at.
#[derive(Clone, Copy, Debug, PartialEq, Eq)]
pub enum Key {
    /// `version` of the root.
    Version,
    /// `memory` of the root.
    Memory,
    /// `unit` of the root.
    Unit,
    /// `overhead` of the root.
    Overhead,
    /// `rate` of the root.
    Rate,
    /// `rebalance` of the root.
    Rebalance,
    /// `tax` of the root.
    Tax,
    /// `percent` of the root.
    Percent,
    /// `headroom` of the root.
    Headroom,
    /// `cache` of the root.
    Cache,
    /// `most` of the root.
    Most,
    /// `patience` of the root.
    Patience,
    /// `guests` of the root.
    Guests,
    /// `name` of a guest.
    Name,
    /// `min` of a guest.
    Min,
    /// `max` of a guest.
    Max,
    /// `shares` of a guest.
    Shares,
    /// `steer` of a guest.
    Steer,
}

impl Key {
    /// The key, as it is written in a policy.
    pub fn name(self) -> &'static str
        ensures { result.now ≡ name_of self }
    {
        match self {
            Key::Version => "version",
            Key::Memory => "memory",
            Key::Unit => "unit",
            Key::Overhead => "overhead",
            Key::Rate => "rate",
            Key::Rebalance => "rebalance",
            Key::Tax => "tax",
            Key::Percent => "percent",
            Key::Headroom => "headroom",
            Key::Cache => "cache",
            Key::Most => "most",
            Key::Patience => "patience",
            Key::Guests => "guests",
            Key::Name => "name",
            Key::Min => "min",
            Key::Max => "max",
            Key::Shares => "shares",
            Key::Steer => "steer",
        }
    }
}

/// Where a fault of a policy stands.
#[derive(Clone, Copy, Debug, PartialEq, Eq)]
pub enum Place {
    /// The text as a whole, which is no JSON text, or no object.
    Text,
    /// A key of the root.
    Root(Key),
    /// A key of a guest. Guests are counted from 0, in the order of the text.
    Guest { guest: usize, key: Key },
}

impl fmt::Display for Place {
    ghost use Rattle.std.specs.Prelude.{Some};
    ghost use Rattle.vm_samples.specs.FaultTexts.{text_of_place};

    ghost output = { λ place. Some (text_of_place place) };

    fn fmt<W: fmt::Write>(&self, f: &mut fmt::Formatter<W>) -> fmt::Result {
        match *self {
            Place::Text => write!(f, "the text"),
            Place::Root(key) => {
                let key = key.name();
                write!(f, "key \"{key}\"")
            }
            Place::Guest { guest, key } => {
                let key = key.name();
                write!(f, "guest {guest}, key \"{key}\"")
            }
        }
    }
}
