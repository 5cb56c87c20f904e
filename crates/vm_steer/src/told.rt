// What is told of a sample.
use crate::fate::Fate;
use std::marker::Model;
use vm_plan::State;

/// A domain of a sample, and what comes of it.
#[derive(Debug, Drop)]
pub struct Entry {
    /// Its name, whatever its bytes are.
    pub name: Vec<u8>,
    /// What comes of it.
    pub fate: Fate,
}

impl Model for Entry {
    ghost use Rattle.vm_steer.specs.Entries.{EntryView};

    ghost Value = { EntryView };

    ghost view = { λ e. record { name = e.name.items; fate = e.fate } };
}

/// What is told of a sample, and remembered of it for the next one.
#[derive(Debug, Drop)]
pub struct Told {
    /// The state of the host.
    pub state: State,
    /// The units that were free before anything was decided.
    pub free: u32,
    /// The domains in the order of their names, byte by byte, those of one name in the sample's.
    pub domains: Vec<Entry>,
}

impl Model for Told {
    ghost use Rattle.vm_steer.specs.Entries.{ToldView};

    ghost Value = { ToldView };

    ghost view = { λ t. record { state = t.state; free = t.free; domains = t.domains.items } };
}
