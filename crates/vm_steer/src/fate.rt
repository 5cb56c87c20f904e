// What comes of a domain in a sample.
use crate::remembered::Remembered;
use crate::why::Why;

/// A domain that is left alone.
#[derive(Clone, Copy, Debug)]
pub struct LeftDomain {
    /// The units that it holds, rounded up and at most 2^54; 0 where that isn't told.
    pub held: u64,
    /// Why it is left alone.
    pub why: Why,
    /// What is remembered of it, if it was steered before and in no sample since was absent.
    pub remembered: Option<Remembered>,
}

/// A domain that is steered. Memory is in units but for the order.
#[derive(Clone, Copy, Debug)]
pub struct SteeredDomain {
    /// Its target after all decisions, what it holds without promises, and what else is remembered of it.
    pub remembered: Remembered,
    /// Its size, all that it may have: 1 to 262144.
    pub size: u32,
    /// What it uses.
    pub used: u32,
    /// Its active fraction, of 65536.
    pub active: u32,
    /// Its shares of memory.
    pub shares: u32,
    /// What it is left at least.
    pub min: u32,
    /// What it has at most.
    pub cap: u32,
    /// What it wanted beyond its target before the decisions.
    pub demand: u32,
    /// How often it is in the revocation list.
    pub revoked: u32,
    /// .. in the grant list.
    pub granted: u32,
    /// .. in the rebalancing list.
    pub rebalanced: u32,
    /// The KiB of its `setmem`, if it is ordered.
    pub order: Option<u64>,
}

/// What comes of a domain.
#[derive(Clone, Copy, Debug)]
pub enum Fate {
    /// It is left alone.
    Left(LeftDomain),
    /// It is steered.
    Steered(SteeredDomain),
}
