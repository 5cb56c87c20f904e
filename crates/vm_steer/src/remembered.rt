// What is remembered of a domain.
use std::marker::Model;

/// What is remembered of a domain from sample to sample. Its type keeps that the averages are parts.
#[derive(Clone, Copy, Debug)]
pub struct Remembered {
    /// The units that it is meant to hold.
    pub target: u32,
    /// The slow average of what it uses of what it holds, of 65536.
    pub slow: u32,
    /// The fast one.
    pub fast: u32,
    /// KiB that its guest read from swap.
    pub swap_in: u64,
    /// The units that it held.
    pub held: u32,
    /// In how many samples, one after the other, its balloon didn't follow.
    pub still: u32,
}

impl Model for Remembered {
    ghost use Rattle.vm_steer.specs.Remembered.{AreParts, RememberedView};

    ghost Value = { RememberedView };

    ghost view = { λ m. record { target = m.target; slow = m.slow; fast = m.fast; swap_in = m.swap_in; held = m.held; still = m.still } };

    ghost invariant = { λ m. AreParts (record { target = m.target; slow = m.slow; fast = m.fast; swap_in = m.swap_in; held = m.held; still = m.still }) };

    ghost inverse = { λ v. record { target = v.target; slow = v.slow; fast = v.fast; swap_in = v.swap_in; held = v.held; still = v.still } };
}
