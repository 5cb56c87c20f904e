//! A recorded host.
use crate::guest::RecordedGuest;
use std::marker::Model;
use vm_samples::Policy;

/// A recorded host, of which a configuration text is made.
#[derive(Debug, Drop)]
pub struct RecordedHost<'a> {
    /// The policy that its numbers are of.
    pub policy: &'a Policy,
    /// The units that all guests together may hold.
    pub frames: u32,
    /// How many epochs there are.
    pub epochs: u32,
    /// The guests, in the order of the text.
    pub guests: &'a [RecordedGuest],
}

impl<'a> Model for RecordedHost<'a> {
    ghost use Rattle.vm_recorded.specs.Hosts.{HostView};

    ghost Value = { HostView };

    ghost view = { λ h. record { policy = h.policy.now; frames = h.frames; epochs = h.epochs; guests = h.guests.now } };
}
