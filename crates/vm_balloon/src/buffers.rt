ghost use Rattle.std.specs.Prelude.{◌≡◌, ◌+◌, ◌<◌, ◌≤◌, ◌++◌, ◌∷◌, [], IfOk, OnErr, length, take, vec_capacity, vec_len};

use crate::buffer::Buffer;
use std::alloc::{AllocError, Global};
use std::marker::Model;

/// The buffers that are posted, in order, in room that was made for them.
///
/// What was posted before is written over in its place, so a post takes time for its own bytes alone.
#[derive(Drop)]
pub(crate) struct Buffers {
    places: Vec<Buffer>,
    // How many of the places have a posted buffer, from the first on.
    posted: usize,
}

impl Model for Buffers {
    ghost use Rattle.vm_balloon.specs.Posted.{PostedBuffers};

    ghost Value = { PostedBuffers };

    ghost use Rattle.vm_balloon.specs.BuffersFields.{buffers_of, IsBuffers};

    ghost view = { buffers_of };

    ghost invariant = { IsBuffers };
}

impl Buffers {
    /// Room for so many buffers, none of which is posted. Memory is wanted only for some.
    pub(crate) fn new(alloc: Global, room: usize) -> Result<Self, AllocError>
        ensures buffers { IfOk result (λ buffers. buffers ≡ record { room = room; list = [] }) }
        ensures memory { OnErr result (0 < room) }
    {
        Ok(Buffers {
            places: Vec::with_capacity(alloc, room)?,
            posted: 0,
        })
    }

    /// Posts a buffer.
    pub(crate) fn push(&mut self, bytes: &[u8])
        requires short { length bytes.now ≤ 1024 }
        requires room { length self.old.list < self.old.room }
        ensures { self.new ≡ record self.old { list = self.old.list ++ bytes.now ∷ [] } }
    {
        put(&mut self.places, self.posted, bytes);
        self.posted += 1;
    }

    /// Takes all buffers out, in constant time.
    pub(crate) fn clear(&mut self)
        ensures { self.new ≡ record self.old { list = [] } }
    {
        self.posted = 0;
    }

    /// The buffers, in order of posting.
    pub(crate) fn as_slice(&self) -> &[Buffer]
        ensures { result.now ≡ self.now.list }
    {
        &self.places[..self.posted]
    }

    /// How many buffers are posted.
    pub(crate) fn len(&self) -> usize
        ensures { result ≡ length self.now.list }
    {
        self.posted
    }
}

// Writes a buffer to a place, or to a new one behind the others.
fn put(places: &mut Vec<Buffer>, place: usize, bytes: &[u8])
    requires short { length bytes.now ≤ 1024 }
    requires there { place ≤ vec_len places.old }
    requires room { place < vec_capacity places.old }
    ensures written { take (place + 1) places.new.items ≡ take place places.old.items ++ bytes.now ∷ [] }
    ensures there { place + 1 ≤ vec_len places.new }
    ensures room { vec_capacity places.new ≡ vec_capacity places.old }
{
    if place < places.len() {
        places[place].write(bytes);
    } else {
        places.push_reserved(Buffer::of(bytes));
    }
}
