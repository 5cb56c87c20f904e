//! A value for one guest.

/// A value for the guest at a place, counted from 0 in the order of the configuration.
#[derive(Clone, Copy, Debug, PartialEq, Eq)]
pub struct GuestValue {
    pub place: usize,
    pub value: u32,
}
