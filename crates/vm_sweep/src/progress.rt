//! How far a sweep is.

/// Is told how far a sweep is.
pub trait Progress {
    /// So many of all runs are told.
    fn report(&self, told: usize, all: usize);
}
