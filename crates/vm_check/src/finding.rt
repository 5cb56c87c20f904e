// What is found, and where.
use crate::place::FindingPlace;
use crate::what::What;
use std::fmt;

/// What is wrong or surprising at a place of a configuration. It prints as `PLACE: WHAT`.
#[derive(Clone, Copy, Debug, PartialEq, Eq)]
pub(crate) struct Finding {
    /// Where it is.
    pub(crate) place: FindingPlace,
    /// What it is.
    pub(crate) what: What,
}

impl fmt::Display for Finding {
    ghost use Rattle.std.specs.Prelude.{Some};
    ghost use Rattle.vm_check.specs.Texts.{text_of};

    ghost output = { λ finding. Some (text_of finding) };

    fn fmt<W: fmt::Write>(&self, f: &mut fmt::Formatter<W>) -> fmt::Result {
        let place = self.place;
        let what = self.what;
        write!(f, "{place}: {what}")
    }
}
