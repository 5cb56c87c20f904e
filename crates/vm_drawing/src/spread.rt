//! How far values at one place are apart.

/// From a least value to a greatest one.
#[derive(Clone, Copy, Debug, PartialEq, Eq)]
pub struct Spread {
    /// The least value.
    pub least: u64,
    /// The greatest value.
    pub greatest: u64,
}
