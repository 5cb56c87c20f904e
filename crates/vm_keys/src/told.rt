// What is told of an odd key.
use crate::odd::OddKey;
use crate::shown::ShownKey;
use std::fmt;

/// An odd key of an object that is called so, as `a guest`, in words on one line: `key "share": no key of a guest, nearest is "shares"`,
/// or `key "size": stands twice`.
#[derive(Clone, Copy, Debug)]
pub struct ToldKey<'a, 'k, 'w> {
    /// The key.
    pub odd: OddKey<'a, 'k>,
    /// What the object is called.
    pub whose: &'w str,
}

impl fmt::Display for ToldKey<'_, '_, '_> {
    ghost use Rattle.std.specs.Prelude.{Some};
    ghost use Rattle.vm_keys.specs.OddKeys.{odd_of};
    ghost use Rattle.vm_keys.specs.Told.{told};

    ghost output = { λ it. Some (told it.whose.now (odd_of it.odd)) };

    fn fmt<W: fmt::Write>(&self, f: &mut fmt::Formatter<W>) -> fmt::Result {
        let whose = self.whose;
        match self.odd {
            OddKey::Unknown { key, nearest } => {
                let key = ShownKey { key };
                let near = ToldNearest { nearest };
                write!(f, "key {key}: no key of {whose}{near}")
            }
            OddKey::Twice { key } => {
                let key = ShownKey { key };
                write!(f, "key {key}: stands twice")
            }
        }
    }
}

// The nearest key, if there is one.
#[derive(Clone, Copy)]
struct ToldNearest<'k> {
    nearest: Option<&'k str>,
}

impl fmt::Display for ToldNearest<'_> {
    ghost use Rattle.std.specs.Prelude.{Some, option_map};
    ghost use Rattle.vm_keys.specs.Told.{told_nearest};

    ghost output = { λ it. Some (told_nearest (option_map (λ k. k.now) it.nearest)) };

    fn fmt<W: fmt::Write>(&self, f: &mut fmt::Formatter<W>) -> fmt::Result {
        match self.nearest {
            Some(key) => {
                let near = ShownKey { key };
                write!(f, ", nearest is {near}")
            }
            None => Ok(()),
        }
    }
}
