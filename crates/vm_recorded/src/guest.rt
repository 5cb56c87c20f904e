//! A recorded guest.
use crate::used::Use;
use std::marker::Model;

/// A recorded guest. Memory is in units of the policy. Which of its numbers a text may have is `IsGuest` of `specs/Hosts`.
#[derive(Debug, Drop)]
pub struct RecordedGuest {
    /// The bytes of its name.
    pub name: Vec<u8>,
    /// The most that it had.
    pub size: u32,
    /// What it is left at least.
    pub min: u32,
    /// What it has at most.
    pub cap: u32,
    /// Its shares (Waldspurger, "Memory Resource Management in VMware ESX Server", OSDI 2002, section 5.1).
    pub shares: u32,
    /// The first epoch in which it was there, from 0.
    pub first: u32,
    /// What it used in each epoch from that one to its last.
    pub uses: Vec<Use>,
}

impl Model for RecordedGuest {
    ghost use Rattle.vm_recorded.specs.Hosts.{GuestView};

    ghost Value = { GuestView };

    ghost view = { λ g. record { name = g.name.items; size = g.size; min = g.min; cap = g.cap; shares = g.shares; first = g.first; uses = g.uses.items } };
}
