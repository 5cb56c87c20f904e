// What a list's numbers are, and which of them it may have.
use crate::showing::ShownValue;
use std::fmt;

/// What a list's numbers count.
#[derive(Clone, Copy, Debug, PartialEq, Eq)]
pub enum Unit {
    /// Whole numbers, each of which is its own value.
    Whole,
    /// Percent, of which a value counts hundredths: 75 has the value 7500, and 0.25 the value 25.
    Hundredths,
}

/// The values that a list may have, in its unit: those from `least` to `greatest`.
#[derive(Clone, Copy, Debug, PartialEq, Eq)]
pub struct Limits {
    pub unit: Unit,
    pub least: u32,
    pub greatest: u32,
}

impl fmt::Display for Limits {
    ghost use Rattle.std.specs.Prelude.{Some};
    ghost use Rattle.vm_lists.specs.Shown.{shown_limits};

    ghost output = { λ limits. Some (shown_limits limits) };

    fn fmt<W: fmt::Write>(&self, f: &mut fmt::Formatter<W>) -> fmt::Result {
        let least = ShownValue::new(self.unit, self.least);
        let greatest = ShownValue::new(self.unit, self.greatest);
        write!(f, "{least} to {greatest}")
    }
}
