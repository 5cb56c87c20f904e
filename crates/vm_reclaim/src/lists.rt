//! What a boundary takes from its guests and gives them, in lists.
ghost use Rattle.std.specs.Prelude.{◌≡◌};

use std::marker::Model;
use vm_plan::Plan;

/// How many frames a guest gave up.
#[derive(Clone, Copy, Debug, PartialEq, Eq)]
pub struct Paged {
    /// The position of the guest.
    pub position: u32,
    /// How many frames it gave up.
    pub count: u32,
}

/// The guests that gave up frames, in order. A clause reads them as a list.
#[derive(Debug, Drop)]
pub struct Paging {
    items: Vec<Paged>,
}

impl Model for Paging {
    ghost use Rattle.std.specs.Prelude.{List};
    ghost use Rattle.vm_reclaim.specs.declared.lists.Paged.{Paged};

    ghost Value = { List Paged };

    ghost view = { λ p. p.items.items };
}

impl Paging {
    pub(crate) fn new(items: Vec<Paged>) -> Self
        ensures { result ≡ items.items }
    {
        Paging { items }
    }

    /// All of them, in order.
    pub fn as_slice(&self) -> &[Paged]
        ensures { result.now ≡ self.now }
    {
        self.items.as_slice()
    }
}

/// The positions of guests that are blocked, in order. A clause reads them as a list.
#[derive(Debug, Drop)]
pub struct Blocked {
    items: Vec<u32>,
}

impl Model for Blocked {
    ghost use Rattle.std.specs.Prelude.{ℕ, List};

    ghost Value = { List ℕ };

    ghost view = { λ b. b.items.items };
}

impl Blocked {
    pub(crate) fn new(items: Vec<u32>) -> Self
        ensures { result ≡ items.items }
    {
        Blocked { items }
    }

    /// All of them, in order.
    pub fn as_slice(&self) -> &[u32]
        ensures { result.now ≡ self.now }
    {
        self.items.as_slice()
    }
}

/// What a boundary takes from its guests and gives them.
#[derive(Debug, Drop)]
pub struct BoundaryPlan {
    /// The positions of the guests whose targets fall, one for each page, in order.
    pub revoked: Plan,
    /// The guests that give up frames above their targets, in order.
    pub paged: Paging,
    /// The positions of the guests whose targets rise, one for each page, in order.
    pub granted: Plan,
    /// The positions of the guests whose targets fall for guests that would pay more, one for each page, in order.
    pub rebalanced: Plan,
    /// The positions of the guests that are blocked then, in order.
    pub blocked: Blocked,
}
