// The rooms that stopped guests left, for others to start in.
ghost use Rattle.std.specs.Prelude.{◌≡◌, ◌⊎◌, ◌++◌, [], ◌∷◌, All, IfNone, IfOk, IfSome, IsSomeAnd, slice_get};
ghost use Rattle.vm_guest.specs.Room.{room_for, Serves};

use std::alloc::{AllocError, Global};
use std::marker::Model;
use vm_guest::{GuestRoom, GuestSpec};

/// The rooms that stopped guests left, for others to start in: those of one pool, or of one pool after another.
///
/// Contracts see it as the list of them. Which rooms a pool keeps is in no contract of the pool, since a guest that starts in one of
/// them is as in a new one.
#[derive(Drop)]
pub struct Shelf {
    rooms: Vec<GuestRoom>,
}

impl Model for Shelf {
    ghost use Rattle.std.specs.Prelude.{List};
    ghost use Rattle.vm_guest.specs.Room.{RoomView};

    ghost Value = { List RoomView };

    ghost view = { λ shelf. shelf.rooms.items };
}

impl Shelf {
    /// No room yet. It takes no memory.
    pub fn new(alloc: Global) -> Shelf
        ensures { result ≡ [] }
    {
        Shelf {
            rooms: Vec::new(alloc),
        }
    }

    // There is room for so many more on the shelf. An error says that memory was refused.
    pub(crate) fn reserve(&mut self, more: usize) -> Result<(), AllocError>
        ensures { self.new ≡ self.old }
    {
        self.rooms.reserve(more)
    }

    // Keeps a room, in the room that is there for it. There always is, since a shelf has room for one of each guest of a pool: else the
    // room would be let go.
    pub(crate) fn keep(&mut self, room: GuestRoom)
        ensures { (self.new ≡ self.old ++ room ∷ []) ⊎ (self.new ≡ self.old) }
    {
        if self.rooms.len() < self.rooms.capacity() {
            self.rooms.push_reserved(room);
        }
    }

    // The room for a guest with this specification: one of the shelf that serves it, and else a new one, for which one of the shelf is
    // let go. Where memory is refused for the slots of one that serves, it stays on the shelf.
    pub(crate) fn take(&mut self, alloc: Global, spec: &GuestSpec) -> Result<GuestRoom, AllocError>
        ensures { IfOk result (λ room. room ≡ room_for spec.now) }
    {
        match place_serving(&self.rooms, spec) {
            Some(place) => {
                self.rooms[place].fit(spec)?;
                Ok(self.rooms.swap_remove(place))
            }
            None => {
                drop(self.rooms.pop());
                GuestRoom::new(alloc, spec)
            }
        }
    }
}

// The last place on the shelf with a room that serves a guest with this specification.
fn place_serving(shelf: &[GuestRoom], spec: &GuestSpec) -> Option<usize>
    ensures serves { IfSome result (λ place. IsSomeAnd (slice_get shelf.now place) (λ room. Serves room spec.now)) }
    ensures none { IfNone result (All (λ room. Serves room spec.now → ⊥) shelf.now) }
{
    shelf.iter().rposition(|room| room.serves(spec))
}
