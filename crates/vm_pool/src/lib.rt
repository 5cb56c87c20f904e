//! A machine with its guests, by position: which frames are free, which a guest holds, and which are set aside for a running guest's
//! own tables (overhead memory: Waldspurger, "Memory Resource Management in VMware ESX Server", OSDI 2002, section 6.2).
//!
//! A [`Pool`] does each move of a frame, and runs the epochs of its guests on threads. It knows no names, commands or policy: a caller
//! says who starts, stops, gives up and gets frames.
//!
//! A clause sees a pool as a `PoolView` (`specs/Pool.antt`): the number of frames, the overhead of a guest, the configurations, the
//! record of each running guest by position, and the number of free frames. No frame is in it. `specs/Changes.antt` says what each call
//! makes of it. Frames that are free, held and set aside always add up to the machine ([`Pool::free`], and [`law_conserves`] by the
//! definitions of the calls alone).
//!
//! Between any two calls a frame is out of the machine exactly where it is held once, by one guest or among those set aside, and a
//! guest has its target. Frames' numbers are in no clause: this is the invariant of the type [`Pool`] (`specs/PoolFields.antt`,
//! `IsPool`), which each call is proved to keep. The clause of [`Pool::close`] is of what comes back, and not of frames, since no pool
//! is left to speak of: it ends in `vm_frames::Machine::close`, which may be called only with every frame back, and this is proved of it.
//!
//! That threads run at once is tested and not proved.
//!
//! **Proved**: each call is its definition over the data of a pool (`specs/Changes.antt`). `revoke` and `grant` of so many frames
//! are so many of one frame, and ask that each can be done in its turn (`specs/CanMove.antt`). `epoch` is the epoch of each
//! running guest, for every gate and 1 to 64 workers (`done`); each running guest's number passes the gate once, and those of
//! each thread rise (`passed`). Memory is wanted only where a guest runs (`memory`, `lowered`); where it is refused, `set_min`
//! and `epoch` leave all as it was (`unchanged`), and `new` hands the specifications back (`back`). `new` takes a box for each
//! guest to run in, which stays as long as the pool, so that an epoch on threads moves no guest. Beside the boxes, `take_room` and
//! `room_to_start` take the memory of a guest beforehand, so that `start` takes none; no other call does. A room that a stopped
//! guest left is as a new one (`room`), also in a pool after the one that it ran in: `with_shelf` is `new`, and `close_keeping` is
//! `close`, whatever rooms lie on the [`Shelf`] that goes from one to the other. `view` shows a good record, the guest's target among
//! its frames (`good`), and an active fraction of at most the whole (`active`); `peek` copies exactly where a guest runs at the position
//! and the page is below its size.
//!
//! **Only tested**: that calls succeed where memory is there; that two workers run two guests at once. **Not claimed**: on how many
//! threads an epoch runs (`threads_worth` is exact, and private); that a gate whose `never_waits` says yes doesn't wait; progress,
//! order between threads, speed. For callers: `proofs/EachLemmas`, `ConservesLemmas`, `GuestAtLemmas`, `GrantLemmas`,
//! `RevokeLemmas`.
#![tactic(auto)]

mod aside;
mod granting;
mod law;
mod minimum;
mod pool;
mod round;
mod seat;
mod shelf;
mod slot;
mod turn;

pub use law::law_conserves;
pub use pool::Pool;
pub use shelf::Shelf;
pub use vm_board::{Gate, Open, Ran};
pub use vm_guest::{GuestSpec, GuestView, PageRead, Stats};
