// The memory of frames that are not made yet.
ghost use Rattle.std.specs.Prelude.{◌≡◌, ◌+◌, ◌*◌, ◌^◌, ◌<◌, IfOk, IfSome, IfNone, All, vec_capacity, vec_len};
ghost use denote.RawPtr.{◌+ₚ◌};
ghost use Rattle.vm_frames.specs.Ownership.{IsPlaced};

use crate::block::{Block, Loan, Room, Tether};
use crate::frame::PAGE_BYTES;
use std::alloc::{AllocError, Global};
use std::sync::Arc;

// How far into a block that the C library maps the frames begin, so that each lies on one page of the processor's. With another
// amount all else holds, and a frame that is written touches two.
const LEAD_BYTES: usize = PAGE_BYTES - 16;

// The pages that are left of a block.
#[derive(Drop)]
pub(crate) struct Memory {
    // An owner of the block for each page: made beforehand, since one more may be refused.
    owners: Vec<Arc<Block<Global>, Global>>,
    first: *mut u8,
    // How many pages are out, which are those before the rest.
    pub(crate) made: u32,
    rest: Loan,
    ghost there: { IsPlaced first },
    ghost last: { All (λ o. (o.value.life ≡ rest.life) × (o.value.first ≡ first)) owners.items },
    ghost owned: { vec_len owners ≡ rest.count },
    ghost begins: { rest.ptr ≡ first +ₚ (made * 4096) },
    ghost fits: { made + rest.count < 2 ^ 32 },
}

impl Memory {
    ghost use Rattle.vm_frames.specs.Rooms.{IsEmpty, IsPageOf};

    // Memory for so many frames, of which nothing is touched yet.
    pub(crate) fn new(alloc: Global, frames: u32) -> Result<Memory, AllocError>
        ensures made { IfOk result (λ m. m.made ≡ 0) }
        ensures all { IfOk result (λ m. m.rest.count ≡ frames) }
    {
        let count = frames as usize;
        let mut room = Vec::with_capacity(alloc, (count + 1) * PAGE_BYTES)?;
        let first = unsafe { room.as_mut_ptr().byte_add(LEAD_BYTES) };
        let (block, rest) = Block::lend(room, LEAD_BYTES, count, first);
        let owners = owners(alloc, Arc::new(alloc, block)?, count)?;
        Ok(Memory {
            owners,
            first,
            made: 0,
            rest,
        })
    }

    // The next page, which is empty, what keeps it, and the memory that is left.
    pub(crate) fn next(self) -> Option<(Room, Tether<Global>, Memory)>
        ensures none { IfNone result (self.rest.count ≡ 0) }
        ensures empty { IfSome result (λ p. IsEmpty p.0 p.1.page) }
        ensures place { IfSome result (λ p. IsPageOf p.1 self.made) }
        ensures made { IfSome result (λ p. p.2.made ≡ self.made + 1) }
        ensures left { IfSome result (λ p. p.2.rest.count + 1 ≡ self.rest.count) }
    {
        let Memory {
            mut owners,
            first,
            made,
            rest,
        } = self;
        let owner = owners.pop()?;
        let (room, tether, rest) = Tether::open(owner, rest);
        let left = Memory {
            owners,
            first,
            made: made + 1,
            rest,
        };
        Some((room, tether, left))
    }
}

// Where a page is, before which there are so many others in its block.
pub(crate) fn page_at(first: *mut u8, before: u32) -> *mut u8
    requires { IsPlaced first }
    ensures { result ≡ first +ₚ (before * 4096) }
{
    unsafe { first.byte_add(before as usize * PAGE_BYTES) }
}

// So many owners of a block.
fn owners(
    alloc: Global,
    block: Arc<Block<Global>, Global>,
    count: usize,
) -> Result<Vec<Arc<Block<Global>, Global>>, AllocError>
    ensures each { IfOk result (λ v. All (λ o. o.value ≡ block.value) v.items) }
    ensures all { IfOk result (λ v. vec_len v ≡ count) }
{
    let mut owners = Vec::with_capacity(alloc, count)?;
    while owners.len() < count {
        owners.push_reserved(block.clone()?);
    }
    Ok(owners)
}
