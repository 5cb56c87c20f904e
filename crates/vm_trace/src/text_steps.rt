// The steps that a text stands for.
ghost use Rattle.std.specs.Prelude.{◌≡◌, ◌∷◌, List};
ghost use Rattle.std.specs.List.{list_all};
ghost use Rattle.vm_trace.specs.Sized.{is_within};
ghost use Rattle.vm_trace.specs.TextSteps.{HasRow, list_of};
ghost use Rattle.vm_trace.specs.declared.step.Action.{Action};

use crate::step::{Action, is_within};

// So many pages, from one on.
#[derive(Clone, Copy)]
pub(crate) struct Row {
    pub(crate) page: u32,
    pub(crate) count: u32,
}

// One step, or one on each page of a row, in rising order.
#[derive(Clone, Copy)]
pub(crate) enum TextSteps {
    One(Action),
    Touches(Row),
    Frees(Row),
}

// Whether all pages of the steps are below the size.
pub(crate) fn are_within(steps: &TextSteps, size: u32) -> bool
    requires { HasRow 262144 steps.now }
    ensures { result ≡ list_all (is_within size) (list_of steps.now) }
{
    match steps {
        TextSteps::One(action) => is_within(action, size),
        TextSteps::Touches(row) => row.page + row.count <= size,
        TextSteps::Frees(row) => row.page + row.count <= size,
    }
}

// The first of the steps.
pub(crate) fn first_of(steps: TextSteps) -> Action
    requires { HasRow 262144 steps }
    ensures { (action : Action) (rest : List Action) → list_of steps ≡ action ∷ rest → result ≡ action }
{
    match steps {
        TextSteps::One(action) => action,
        TextSteps::Touches(row) => Action::Touch { page: row.page },
        TextSteps::Frees(row) => Action::Free { page: row.page },
    }
}
