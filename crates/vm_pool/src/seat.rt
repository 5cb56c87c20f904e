// The memory in which a guest is, whether it runs or not.
//
// A guest has some 1300 bytes. It stays in its seat, so that a round moves a box and not the guest, and a slot is small. A pool takes the
// seats of all its guests as it is made, so that a start takes no memory.
ghost use Rattle.std.specs.Prelude.{◌≡◌, IfOk, vec_len};
ghost use Rattle.std.specs.Borrow.{Lends, sem};
ghost use Rattle.vm_guest.specs.contracts.guest.Guest.{the_row as guest_row};
ghost use Rattle.vm_pool.specs.contracts.seat.Seated.{the_row};

use std::alloc::{AllocError, Global};
use std::marker::Model;
use vm_guest::{Guest, GuestSpec};

// What is in a seat.
enum Place {
    Free,
    // A stopped guest's specification.
    Idling(GuestSpec),
    Taken(Guest),
}

// A seat in which nothing is.
pub(crate) struct Seat {
    place: Box<Place>,
}

impl Model for Seat {
    ghost use Rattle.std.specs.Prelude.{⊤};
    ghost use Rattle.vm_pool.specs.Seats.{IsFree};

    ghost Value = { ⊤ };

    ghost view = { λ _. tt };

    ghost invariant = { λ s. IsFree s.place.value };
}

impl Drop for Seat {
    fn drop(self) {
        let Seat { place } = self;
        match Box::into_inner(place) {
            Place::Free => {}
            Place::Idling(_) => unreachable!(),
            Place::Taken(_guest) => unreachable!(),
        }
    }
}

impl Seat {
    // A seat, of memory that may be refused.
    fn new(alloc: Global) -> Result<Seat, AllocError> {
        match Box::new(alloc, Place::Free) {
            Ok(place) => Ok(Seat { place }),
            Err(refused) => match refused.value {
                Place::Free => Err(AllocError),
                Place::Idling(_) => unreachable!(),
                Place::Taken(_guest) => unreachable!(),
            },
        }
    }

    // The seat with a stopped guest.
    pub(crate) fn with_spec(self, spec: GuestSpec) -> Idle
        ensures { result ≡ spec }
    {
        let Seat { mut place } = self;
        match Box::replace(&mut place, Place::Idling(spec)) {
            Place::Free => Idle { place },
            Place::Idling(_) => unreachable!(),
            Place::Taken(_guest) => unreachable!(),
        }
    }

    // The seat with a running guest.
    pub(crate) fn with_guest(self, guest: Guest) -> Seated
        ensures { result ≡ guest }
    {
        let Seat { mut place } = self;
        match Box::replace(&mut place, Place::Taken(guest)) {
            Place::Free => Seated { place },
            Place::Idling(_) => unreachable!(),
            Place::Taken(_guest) => unreachable!(),
        }
    }
}

// So many seats, of memory that may be refused.
pub(crate) fn free_seats(alloc: Global, count: usize) -> Result<Vec<Seat>, AllocError>
    ensures { IfOk result (λ seats. vec_len seats ≡ count) }
{
    let mut seats = Vec::with_capacity(alloc, count)?;
    for _ in 0..count {
        seats.push_reserved(Seat::new(alloc)?);
    }
    Ok(seats)
}

// A stopped guest in its seat.
pub(crate) struct Idle {
    place: Box<Place>,
}

impl Model for Idle {
    ghost use Rattle.vm_guest.specs.Config.{GuestConfig};

    ghost Value = { GuestConfig };

    ghost use Rattle.vm_pool.specs.Seats.{config_there, IsIdling};

    ghost view = { λ s. config_there s.place.value };

    ghost invariant = { λ s. IsIdling s.place.value };
}

impl Idle {
    // How the guest is set up.
    pub(crate) fn spec(&self) -> &GuestSpec
        ensures { result.now ≡ self.now }
    {
        match self.place.as_ref() {
            Place::Idling(spec) => spec,
            Place::Free | Place::Taken(_) => unreachable!(),
        }
    }

    // The specification leaves the seat.
    pub(crate) fn leave(self) -> (GuestSpec, Seat)
        ensures { result.0 ≡ self }
    {
        let Idle { mut place } = self;
        match Box::replace(&mut place, Place::Free) {
            Place::Idling(spec) => (spec, Seat { place }),
            Place::Free => unreachable!(),
            Place::Taken(_guest) => unreachable!(),
        }
    }
}

// A running guest in its seat.
pub(crate) struct Seated {
    place: Box<Place>,
}

impl Model for Seated {
    ghost use Rattle.std.specs.Coded.{codes};
    ghost use Rattle.vm_guest.specs.Frames.{numbers_code};
    ghost use Rattle.vm_guest.specs.State.{GuestState};

    ghost Value = { GuestState };

    ghost coded = { Prim.hlevel (codes, numbers_code) };

    ghost use Rattle.vm_pool.specs.Seats.{guest_there, IsTaken};

    ghost view = { λ s. guest_there s.place.value };

    ghost invariant = { λ s. IsTaken s.place.value };
}

impl Seated {
    // The guest.
    pub(crate) fn guest(&self) -> &Guest
        ensures { result.now ≡ self.now }
    {
        match self.place.as_ref() {
            Place::Taken(guest) => guest,
            Place::Free | Place::Idling(_) => unreachable!(),
        }
    }

    // The guest, to be changed in its seat.
    pub(crate) fn guest_mut(&mut self) -> &mut Guest
        ensures* writes_back { sem 𝓛 (Lends the_row guest_row self.entry result (λ w. w)) }
        ensures value { result.now ≡ self.old }
    {
        match self.place.as_mut() {
            Place::Taken(guest) => guest,
            Place::Free | Place::Idling(_) => unreachable!(),
        }
    }

    // The guest leaves its seat.
    pub(crate) fn leave(self) -> (Guest, Seat)
        ensures { result.0 ≡ self }
    {
        let Seated { mut place } = self;
        match Box::replace(&mut place, Place::Free) {
            Place::Taken(guest) => (guest, Seat { place }),
            Place::Free => unreachable!(),
            Place::Idling(_) => unreachable!(),
        }
    }
}
