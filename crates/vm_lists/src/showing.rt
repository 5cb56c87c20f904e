// How a value is written.
ghost use Rattle.std.specs.Prelude.{◌≡◌, ◌≤◌, ◌++◌, ◌∷◌, [], OnOk, string_bytes, Ok};
ghost use Rattle.vm_lists.specs.declared.bounds.Limits.{Limits};
ghost use Rattle.vm_lists.specs.Lists.{list_of};
ghost use Rattle.vm_lists.specs.Shown.{shown};

use crate::bounds::Unit;
use std::alloc::AllocError;
use std::fmt;

/// A value as a list has it: a whole number in decimal digits, and hundredths as percent, without zeros at its end.
#[derive(Clone, Copy, Debug, PartialEq, Eq)]
pub struct ShownValue {
    pub unit: Unit,
    pub value: u32,
}

impl ShownValue {
    pub fn new(unit: Unit, value: u32) -> Self
        ensures unit { result.unit ≡ unit }
        ensures value { result.value ≡ value }
    {
        ShownValue { unit, value }
    }
}

impl fmt::Display for ShownValue {
    ghost use Rattle.std.specs.Prelude.{Some};
    ghost use Rattle.vm_lists.specs.Shown.{shown};

    ghost output = { λ of. Some (shown of.unit of.value) };

    #[tactic(auto, unfolding(crate::specs::Shown::shown))]
    fn fmt<W: fmt::Write>(&self, f: &mut fmt::Formatter<W>) -> fmt::Result {
        let value = self.value;
        if self.unit == Unit::Whole {
            return write!(f, "{value}");
        }
        let percent = value / 100;
        let tenths = value / 10 % 10;
        let hundredths = value % 10;
        if hundredths != 0 {
            write!(f, "{percent}.{tenths}{hundredths}")
        } else if tenths != 0 {
            write!(f, "{percent}.{tenths}")
        } else {
            write!(f, "{percent}")
        }
    }
}

/// Writes a value behind a text.
pub fn push_value(text: &mut String, unit: Unit, value: u32) -> Result<(), AllocError>
    ensures written { OnOk result (string_bytes text.new ≡ string_bytes text.old ++ shown unit value) }

    // A list of what is written is a list of that value.
    ensures reads_back { (limits : Limits) → limits.unit ≡ unit → limits.least ≤ value → value ≤ limits.greatest → list_of limits (shown unit value) ≡ Ok (value ∷ []) }
{
    let shown = ShownValue::new(unit, value);
    write!(text, "{shown}")
}
