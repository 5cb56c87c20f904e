// One block of memory for many pages, each of which has an owner of its own. What takes no memory here is ghost state.
ghost use Rattle.std.specs.Prelude.{◌≡◌, ℕ, ◌-◌, ◌<◌, List, [], ◌∷◌, Option, Some, None};
ghost use Rattle.std.specs.Vec.{vec_ptr};
ghost use base.Fml.{ftrue, fex, fwand, flft};
ghost use denote.RawPtr.{Ptr, coded_ptr, room_for, block_of, count_of, ◌+ₚ◌};
ghost use denote.Sharing.{one};
ghost use Rattle.vm_frames.specs.Ownership.{Extent, extent_code, Hold, hold_code, IsPlaced, page_type, pages_type, loans, block_owns, room_owns, room_shares};

use crate::frame::PAGE_BYTES;
use std::alloc::Allocator;
use std::marker::{Model, Move, Owns, SharesFields};
use std::sync::Arc;

// Room for a page at `ptr`, which nothing else can reach, and the page that was written there.
pub(crate) struct Room {
    ghost ptr: { Ptr },
    ghost page: { Option (List ℕ) },
}

impl Model for Room {
    ghost also_owns = { λ r. room_owns r.ptr r.page };

    ghost also_shares = { λ r _. room_shares r.ptr r.page };
}

unsafe impl Send for Room {}

unsafe impl Sync for Room {}

// A vector without that part of its room which is out as pages.
pub(crate) struct Shell<A: Allocator> {
    vec: Vec<u8, A>,
}

impl<A: Allocator> Owns for Shell<A> {
    ghost Value = { Extent };

    ghost coded = { extent_code };

    ghost shr_at = { λ _ _ _. ftrue };
}

impl<A: Allocator> Move for Shell<A> {
    ghost own_val = { λ e vs. fex Inside (λ v. fwand (room_for (pages_type e.count) e.ptr) (Fields.own_val v vs)) };
}

// Such a vector, whose pages are lent until the lifetime `life` ends. `first` is what whoever lent them said of the first one. A
// `&` to it shows `first`, and that `life` lasts.
pub(crate) struct Block<A: Allocator> {
    first: *mut u8,
    shell: Shell<A>,
    ghost life: { ℕ },
    ghost placed: { IsPlaced shell.ptr },
}

impl<A: Allocator> Model for Block<A> {
    ghost also_owns = { λ b. block_owns b.life b.shell };

    ghost also_shares = { λ b _. one (λ q. flft (b.life ∷ []) q) };
}

// The loan of `count` pages from `ptr` on.
#[derive(Drop)]
pub(crate) struct Loan {
    ghost life: { ℕ },
    ghost ptr: { Ptr },
    ghost count: { ℕ },
    ghost placed: { IsPlaced ptr },
}

impl Model for Loan {
    ghost also_owns = { λ l. loans l.life page_type l.count (block_of l.ptr) (count_of l.ptr) };
}

// An owner of a block one page of which is out as a `Room`. The block can't go until that is back. A `&` to it shows the block.
pub(crate) struct Tether<A: Allocator> {
    block: Arc<Block<A>, A>,
}

impl<A: Allocator> Owns for Tether<A> {
    ghost use denote.RawPtr.{block_of, count_of};
    ghost use Rattle.vm_frames.specs.Ownership.{Hold, hold_code};
    ghost use Rattle.vm_frames.specs.Tethers.{tether_shares};

    ghost Value = { Hold };

    ghost coded = { hold_code };

    ghost shr_at = { λ h p κ. tether_shares A.row A.Allocator (λ x. Fields.shr_at (record { block = x }) (block_of p) (count_of p) κ) h };
}

impl<A: Allocator> Move for Tether<A> {
    ghost use Rattle.vm_frames.specs.Tethers.{tether_owns};

    ghost own_val = { λ h vs. tether_owns A.row A.Allocator (λ x us. Fields.own_val (record { block = x }) us) h vs };
}

impl<A: Allocator> SharesFields for Tether<A> {
    ghost use Rattle.vm_frames.specs.Tethers.{IsTied};

    ghost known = { λ h i. IsTied h i.block.value.first };
}

// A `&` to it shows nothing.
unsafe impl<A: Allocator + Send> Send for Shell<A> {}

unsafe impl<A: Allocator> Sync for Shell<A> {}

// A `&` to it shows only a pointer, and that a lifetime lasts.
unsafe impl<A: Allocator + Send> Send for Block<A> {}

unsafe impl<A: Allocator> Sync for Block<A> {}

unsafe impl<A: Allocator + Send + Sync> Send for Tether<A> {}

unsafe impl<A: Allocator + Send + Sync> Sync for Tether<A> {}

impl<A: Allocator> Block<A> {
    ghost use Rattle.vm_frames.specs.Loaned.{HasPages, IsLoan};

    // Lends `count` pages, which begin `lead` bytes into the vector's room.
    pub(crate) fn lend(
        vec: Vec<u8, A>,
        lead: usize,
        count: usize,
        first: *mut u8,
    ) -> (Block<A>, Loan)
        requires { HasPages vec lead count }
        ensures first { result.0.first ≡ first }
        ensures loan { IsLoan result.1 result.0.life (vec_ptr vec +ₚ lead) count }
    {
        let shell = Shell { vec };
        (Block { first, shell }, Loan {})
    }

    fn first(&self) -> *mut u8
        ensures { result ≡ self.now.first }
    {
        self.first
    }

    // Ends the loan.
    pub(crate) fn regain(self) -> Vec<u8, A> {
        let Block { first: _, shell } = self;
        let Shell { vec } = shell;
        vec
    }
}

impl<A: Allocator> Drop for Block<A> {
    fn drop(self) {
        drop(self.regain());
    }
}

impl<A: Allocator> Tether<A> {
    ghost use Rattle.vm_frames.specs.Loaned.{IsLoan};

    // The first page of the loan, its owner, and the other pages.
    pub(crate) fn open(block: Arc<Block<A>, A>, loan: Loan) -> (Room, Tether<A>, Loan)
        requires lender { loan.life ≡ block.value.life }
        requires some { 0 < loan.count }
        ensures room { result.0 ≡ record { ptr = loan.ptr; page = None } }
        ensures owner { result.1 ≡ record { page = loan.ptr; first = block.value.first } }
        ensures rest { IsLoan result.2 loan.life (loan.ptr +ₚ PAGE_BYTES) (loan.count - 1) }
    {
        let Loan {} = loan;
        (Room {}, Tether { block }, Loan {})
    }

    // Where the block's first page is.
    pub(crate) fn first(&self) -> *mut u8
        ensures { result ≡ self.now.first }
    {
        self.block().first()
    }

    fn block(&self) -> &Arc<Block<A>, A>
        ensures { result.now.value.first ≡ self.now.first }
    {
        &self.block
    }

    // Gives the page back to its block.
    pub(crate) fn close(self, room: Room) -> Arc<Block<A>, A>
        requires { room ≡ record { ptr = self.page; page = None } }
    {
        let Room {} = room;
        let Tether { block } = self;
        block
    }
}

impl Room {
    ghost use Rattle.std.specs.Borrow.{sem};
    ghost use Rattle.vm_frames.specs.Frame.{bytes_of};
    ghost use Rattle.vm_frames.specs.Rooms.{IsEmpty, IsWritten, LendsPage};

    // Writes the page for the first time.
    pub(crate) fn fill(&mut self, ptr: *mut u8, page: [u8; PAGE_BYTES])
        requires { IsEmpty self.old ptr }
        ensures { self.new ≡ record self.old { page = Some page } }
    {
        unsafe { (ptr as *mut [u8; PAGE_BYTES]).write(page) };
    }

    // Forgets the page, which touches nothing.
    pub(crate) fn clear(&mut self)
        ensures { self.new ≡ record self.old { page = None } }
    {}

    pub(crate) fn page(&self, ptr: *mut u8) -> &[u8; PAGE_BYTES]
        requires { IsWritten self.now ptr }
        ensures { result.now ≡ bytes_of self.now.page }
    {
        unsafe { &*(ptr as *const [u8; PAGE_BYTES]) }
    }

    pub(crate) fn page_mut(&mut self, ptr: *mut u8) -> &mut [u8; PAGE_BYTES]
        requires { IsWritten self.old ptr }
        ensures* writes_back { sem 𝓛 (LendsPage self.entry result) }
        ensures value { result.now ≡ bytes_of self.old.page }
    {
        unsafe { &mut *(ptr as *mut [u8; PAGE_BYTES]) }
    }
}
