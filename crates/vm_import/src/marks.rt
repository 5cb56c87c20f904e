// How the touches of an interval cover the pages.
ghost use Rattle.std.specs.Prelude.{◌≡◌, ℕ, ◌<◌, ◌≤◌, ◌==◌, All, OnOk, length, vec_len, slice_set, if◌then◌else◌};
ghost use Rattle.std.specs.List.{list_any};
ghost use Rattle.vm_import.specs.Marks.{mark_covers, mark_by, mark_at};
ghost use Rattle.vm_import.specs.declared.marks.Mark.TheVariants.{Untouched};

use crate::touch::RankedTouch;
use std::alloc::AllocError;

// How a page was touched in an interval.
#[derive(Clone, Copy, PartialEq, Eq)]
pub(crate) enum Mark {
    Untouched,
    Read,
    Written,
}

impl Mark {
    // How a page is marked by a touch that nothing covers.
    pub(crate) fn by(writes: bool) -> Mark
        ensures { result ≡ mark_by writes }
    {
        if writes { Mark::Written } else { Mark::Read }
    }

    // Whether a touch of the page is covered.
    pub(crate) fn covers(self, writes: bool) -> bool
        ensures { result ≡ mark_covers self writes }
    {
        match self {
            Mark::Untouched => false,
            Mark::Read => !writes,
            Mark::Written => true,
        }
    }
}

// Makes room for the mark of one more page than there are.
pub(crate) fn make_room(marks: &mut Vec<Mark>, pages: usize) -> Result<(), AllocError>
    requires { pages ≤ vec_len marks.old }
    ensures room { OnOk result (pages < vec_len marks.new) }
    ensures stays { vec_len marks.old ≤ vec_len marks.new }
    ensures marks { (rank : ℕ) → mark_at marks.new.items rank ≡ mark_at marks.old.items rank }
{
    if marks.len() == pages {
        marks.push(Mark::Untouched)?;
    }
    Ok(())
}

// Takes the marks of the pages of these touches away.
pub(crate) fn clear_marks(marks: &mut [Mark], touches: &[RankedTouch])
    requires { All (λ t. t.rank < length marks.old) touches.now }
    ensures { (rank : ℕ) → mark_at marks.new rank ≡ (if list_any (λ t. t.rank == rank) touches.now then Untouched else mark_at marks.old rank) }
{
    for touch in touches {
        marks[touch.rank as usize] = Mark::Untouched;
    }
}
