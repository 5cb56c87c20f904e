//! What a guest used in an epoch.
ghost use Rattle.std.specs.Prelude.{◌≡◌, ◌≤◌, None, Some};

use std::marker::Model;

/// What a guest used in an epoch, in units, or nothing where no sample told. A clause reads it as an option.
#[derive(Clone, Copy, Debug, PartialEq, Eq)]
pub struct Use {
    // One more than what it used, or 0.
    code: u32,
}

impl Model for Use {
    ghost use Rattle.std.specs.Prelude.{ℕ, Option};

    ghost Value = { Option ℕ };

    ghost use Rattle.vm_recorded.specs.Uses.{code_of, use_of, use_of-back};

    ghost view = { use_of };

    ghost inverse = { code_of };

    ghost inverse_ok = { use_of-back };
}

impl Use {
    /// No sample told.
    pub fn none() -> Self
        ensures { result ≡ None }
    {
        Use { code: 0 }
    }

    /// So many units; a guest has at most 262144.
    pub fn of(units: u32) -> Self
        requires { units ≤ 262144 }
        ensures { result ≡ Some units }
    {
        Use { code: units + 1 }
    }

    /// The units, if a sample told.
    pub fn get(self) -> Option<u32>
        ensures { result ≡ self }
    {
        if self.code == 0 {
            None
        } else {
            Some(self.code - 1)
        }
    }
}
