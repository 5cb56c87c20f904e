// The places of a configuration at which a fault may stand.
ghost use Rattle.std.specs.Prelude.{◌≡◌};
ghost use Rattle.vm_config.specs.Places.{name_of};

use std::fmt;

/// A key of the root, of a guest or of a command, in the order in which the keys of each are looked at.
#[derive(Clone, Copy, Debug, PartialEq, Eq)]
pub enum Key {
    /// `version` of the root.
    Version,
    /// `frames` of the root.
    Frames,
    /// `swap` of the root.
    Swap,
    /// `overhead` of the root.
    Overhead,
    /// `tax` of the root.
    Tax,
    /// `percent` of the root.
    Percent,
    /// `page_rate` of the root.
    PageRate,
    /// `rebalance` of the root, in version 3.
    Rebalance,
    /// `page` of the root, in version 3.
    Page,
    /// `quantum` of the root.
    Quantum,
    /// `epochs` of the root.
    Epochs,
    /// `guests` of the root.
    Guests,
    /// `commands` of the root.
    Commands,
    /// `name` of a guest.
    Name,
    /// `size` of a guest.
    Size,
    /// `min` of a guest.
    Min,
    /// `shares` of a guest.
    Shares,
    /// `samples` of a guest.
    Samples,
    /// `period` of a guest.
    Period,
    /// `rate` of a guest.
    Rate,
    /// `seed` of a guest.
    Seed,
    /// `stream` of a guest.
    Stream,
    /// `autostart` of a guest.
    Autostart,
    /// `tell` of a guest, from version 2 on.
    Tell,
    /// `driver` of a guest, in version 3.
    Driver,
    /// `trace` of a guest.
    Trace,
    /// `at` of a command.
    At,
    /// `line` of a command.
    Line,
}

impl Key {
    /// The key, as it is written in a configuration.
    pub fn name(self) -> &'static str
        ensures { result.now ≡ name_of self }
    {
        match self {
            Key::Version => "version",
            Key::Frames => "frames",
            Key::Swap => "swap",
            Key::Overhead => "overhead",
            Key::Tax => "tax",
            Key::Percent => "percent",
            Key::PageRate => "page_rate",
            Key::Rebalance => "rebalance",
            Key::Page => "page",
            Key::Quantum => "quantum",
            Key::Epochs => "epochs",
            Key::Guests => "guests",
            Key::Commands => "commands",
            Key::Name => "name",
            Key::Size => "size",
            Key::Min => "min",
            Key::Shares => "shares",
            Key::Samples => "samples",
            Key::Period => "period",
            Key::Rate => "rate",
            Key::Seed => "seed",
            Key::Stream => "stream",
            Key::Autostart => "autostart",
            Key::Tell => "tell",
            Key::Driver => "driver",
            Key::Trace => "trace",
            Key::At => "at",
            Key::Line => "line",
        }
    }
}

/// An object of a configuration. Guests and commands are counted from 0, in the order of the text.
#[derive(Clone, Copy, Debug, PartialEq, Eq)]
pub enum Part {
    /// The root.
    Root,
    /// A guest, by its number.
    Guest(usize),
    /// A command, by its number.
    Command(usize),
}

/// Where a fault stands.
#[derive(Clone, Copy, Debug, PartialEq, Eq)]
pub enum Place {
    /// The text as a whole, which is no JSON text, or no object.
    Text,
    /// A key of an object, whose value is refused, or which is absent.
    Key { part: Part, key: Key },
}

impl fmt::Display for Place {
    ghost use Rattle.std.specs.Prelude.{Some};
    ghost use Rattle.vm_config.specs.FaultTexts.{text_of};

    ghost output = { λ place. Some (text_of place) };

    fn fmt<W: fmt::Write>(&self, f: &mut fmt::Formatter<W>) -> fmt::Result {
        match *self {
            Place::Text => write!(f, "the text"),
            Place::Key { part, key } => {
                let key = key.name();
                match part {
                    Part::Root => write!(f, "key \"{key}\""),
                    Part::Guest(guest) => write!(f, "guest {guest}, key \"{key}\""),
                    Part::Command(command) => write!(f, "command {command}, key \"{key}\""),
                }
            }
        }
    }
}
