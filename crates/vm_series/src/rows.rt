// The rows of a run.
ghost use Rattle.std.specs.Prelude.{◌≡◌, ◌≤◌, length, map, is_some, IfOk, None, slice_get, unwrap_or, string_bytes};
ghost use Rattle.std.specs.List.{list_any};
ghost use Rattle.vm_host.specs.World.{World};
ghost use Rattle.vm_sim.specs.Report.{positions};
ghost use Rattle.vm_series.specs.Rows.{evicted_of, row_of_host, view_at};

use std::alloc::{AllocError, Global};
use std::marker::Model;
use vm_host::{GuestView, Host, State};

/// What is seen of a host after an epoch.
#[derive(Debug, Drop)]
pub struct EpochRow {
    epoch: u32,
    state: State,
    free: u32,
    views: Vec<Option<GuestView>>,
}

impl Model for EpochRow {
    ghost use Rattle.std.specs.Prelude.{◌≤◌, length};
    ghost use Rattle.vm_series.specs.Rows.{Row};

    ghost Value = { Row };

    ghost view = { λ r. record { epoch = r.epoch; state = r.state; free = r.free; views = r.views.items } };

    ghost invariant = { λ r. length r.views.items ≤ 256 };
}

// The pages that touches of a guest sent to swap in its epoch, for want of a frame. One that was blocked touched none.
pub(crate) fn evicted_of(view: &GuestView) -> u64
    ensures { result ≡ evicted_of view.now }
{
    if view.blocked { 0 } else { view.demand }
}

// What the host shows of the guests, by position.
fn views_of(alloc: Global, host: &Host) -> Result<Vec<Option<GuestView>>, AllocError>
    ensures views { IfOk result (λ views. views.items ≡ map (view_at host.now) (positions host.now)) }
    ensures few { IfOk result (λ views. length views.items ≤ 256) }
{
    let mut views = Vec::with_capacity(alloc, host.len())?;
    for position in 0..host.len() {
        views.push(host.view(position))?;
    }
    Ok(views)
}

impl EpochRow {
    // What is seen of a host after an epoch.
    pub(crate) fn of_host(alloc: Global, epoch: u32, host: &Host) -> Result<Self, AllocError>
        ensures { IfOk result (λ row. row ≡ row_of_host epoch host.now) }
    {
        Ok(EpochRow {
            epoch,
            state: host.state(),
            free: host.free(),
            views: views_of(alloc, host)?,
        })
    }

    /// The number of the epoch, from 0.
    pub fn epoch(&self) -> u32
        ensures { result ≡ self.now.epoch }
    {
        self.epoch
    }

    /// How much memory is free after it, in four degrees (Waldspurger, OSDI 2002, section 6.3).
    pub fn state(&self) -> State
        ensures { result ≡ self.now.state }
    {
        self.state
    }

    /// The frames that are free after it.
    pub fn free(&self) -> u32
        ensures { result ≡ self.now.free }
    {
        self.free
    }

    /// What is shown of the guests, by position, of at most 256: nothing where none runs.
    pub fn views(&self) -> &[Option<GuestView>]
        ensures views { result.now ≡ self.now.views }
        ensures few { length result.now ≤ 256 }
    {
        self.views.as_slice()
    }

    /// What is shown of the guest at a position, if one runs there.
    pub fn view(&self, position: usize) -> Option<GuestView>
        ensures { result ≡ unwrap_or (slice_get self.now.views position) None }
    {
        self.views.get(position).copied().unwrap_or(None)
    }

    /// Whether any guest runs.
    pub fn has_guests(&self) -> bool
        ensures { result ≡ list_any is_some self.now.views }
    {
        self.views.iter().any(|view| view.is_some())
    }
}

/// The rows of a run, one for each epoch.
#[derive(Debug, Drop)]
pub struct Series {
    frames: u32,
    page: u32,
    names: Vec<String>,
    rows: Vec<EpochRow>,
}

impl Model for Series {
    ghost use Rattle.std.specs.Prelude.{map, string_bytes};
    ghost use Rattle.vm_series.specs.Rows.{Rows};

    ghost Value = { Rows };

    ghost view = { λ s. record { frames = s.frames; page = s.page; names = map string_bytes s.names.items; rows = s.rows.items } };
}

impl Series {
    pub(crate) fn new(frames: u32, page: u32, names: Vec<String>, rows: Vec<EpochRow>) -> Self
        ensures { result ≡ record { frames = frames; page = page; names = map string_bytes names.items; rows = rows.items } }
    {
        Series {
            frames,
            page,
            names,
            rows,
        }
    }

    /// How many frames the machine has.
    pub fn frames(&self) -> u32
        ensures { result ≡ self.now.frames }
    {
        self.frames
    }

    /// How many KiB a page stands for.
    pub fn page(&self) -> u32
        ensures { result ≡ self.now.page }
    {
        self.page
    }

    /// The names of the domains, by position.
    pub fn names(&self) -> &[String]
        ensures { map string_bytes result.now ≡ self.now.names }
    {
        self.names.as_slice()
    }

    /// The rows, one for each epoch, in order.
    pub fn rows(&self) -> &[EpochRow]
        ensures { result.now ≡ self.now.rows }
    {
        self.rows.as_slice()
    }
}
