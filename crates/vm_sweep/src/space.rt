//! The memory of a round.
ghost use Rattle.std.specs.Prelude.{◌≡◌, ◌≤◌, [], All, IfOk, vec_len, vec_capacity};
ghost use Rattle.vm_sweep.specs.Lanes.{IsRoomFor};

use crate::lane::{LaneOf, Made};
use crate::offer::Offer;
use crate::task::Task;
use std::alloc::{AllocError, Global};

/// All the memory that a round needs, before any job is put up.
pub(crate) struct Space<J: Task> {
    pub(crate) offers: Vec<Offer<J>>,
    pub(crate) rooms: Vec<Vec<Made<J::Done>>>,
    pub(crate) places: Vec<Option<J::Done>>,
    pub(crate) results: Vec<J::Done>,
    pub(crate) lanes: Vec<LaneOf<J>>,
}

impl<J: Task + Drop> Space<J> {
    /// Memory for so many jobs in so many lanes. Each lane has room for the results of all jobs.
    pub(crate) fn new(alloc: Global, jobs: usize, lanes: usize) -> Result<Space<J>, AllocError>
        ensures offers { IfOk result (λ s. (s.offers.items ≡ []) × (jobs ≤ vec_capacity s.offers)) }
        ensures rooms { IfOk result (λ s. (vec_len s.rooms ≡ lanes) × All (IsRoomFor jobs) s.rooms.items) }
        ensures places { IfOk result (λ s. vec_len s.places ≡ jobs) }
        ensures results { IfOk result (λ s. (s.results.items ≡ []) × (jobs ≤ vec_capacity s.results)) }
        ensures lanes { IfOk result (λ s. (s.lanes.items ≡ []) × (lanes ≤ vec_capacity s.lanes)) }
    {
        Ok(Space {
            offers: Vec::with_capacity(alloc, jobs)?,
            rooms: rooms(alloc, jobs, lanes)?,
            places: empty_places(alloc, jobs)?,
            results: Vec::with_capacity(alloc, jobs)?,
            lanes: Vec::with_capacity(alloc, lanes)?,
        })
    }
}

// For each lane an empty list with room for the results of all jobs.
fn rooms<D: Drop>(alloc: Global, jobs: usize, lanes: usize) -> Result<Vec<Vec<Made<D>>>, AllocError>
    ensures len { IfOk result (λ rooms. vec_len rooms ≡ lanes) }
    ensures each { IfOk result (λ rooms. All (IsRoomFor jobs) rooms.items) }
{
    let mut rooms = Vec::with_capacity(alloc, lanes)?;
    for _ in 0..lanes {
        let room = Vec::with_capacity(alloc, jobs)?;
        rooms.push_reserved(room);
    }
    Ok(rooms)
}

// A place for each job.
fn empty_places<D: Drop>(alloc: Global, jobs: usize) -> Result<Vec<Option<D>>, AllocError>
    ensures { IfOk result (λ places. vec_len places ≡ jobs) }
{
    let mut places = Vec::with_capacity(alloc, jobs)?;
    for _ in 0..jobs {
        places.push_reserved(None);
    }
    Ok(places)
}
