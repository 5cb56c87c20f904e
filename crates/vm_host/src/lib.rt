//! A host: its machine, its domains, and the guests that run on it.
//!
//! A [`Host`] is made of a [`MachineSpec`] and of the [`Domains`] that it may run, as libvirt's `virsh` calls them. Time goes in
//! epochs. [`Host::boundary`] comes before each: it serves the balloon devices (OASIS VIRTIO 1.2, section 5.5.6), obeys command
//! [`Lines`], and divides the machine's frames among the guests by shares, idleness and demand (Waldspurger, "Memory Resource
//! Management in VMware ESX Server", OSDI 2002). [`Host::epoch`] then lets each running guest run, on at most as many threads as
//! the caller asks for. A boundary may follow another one, and an epoch needs one.
//!
//! **Admission** (section 6.2). The books hold what the running guests were promised: to each its minimum of frames and its
//! overhead, and swap for the rest of its memory. A command is admitted exactly where the machine covers its promises with it,
//! and an admitted guest always gets its minimum: room is made for it at once. A refused command changes nothing.
//!
//! **Whose memory is taken** (sections 5.1 and 5.2). Each revocation takes a page from a guest above its minimum whose adjusted
//! ratio of shares to pages is least, where pages that a guest leaves idle count for more. While memory is plenty, pages that a
//! guest doesn't use move to those that would pay more for them, as many at a boundary as the machine allows (section 6.3).
//!
//! **How much is free** (section 6.3). Four states, from `High` to `Low`, say how hard memory is reclaimed: by targets that
//! fall, by paging, and in `Low` by blocking guests above their targets.
//!
//! Where memory for the host itself is refused in a boundary, the host has failed. It is then as some of the lines left it, from the
//! first one on, none of which is obeyed in part (`FailsAfterSome`). It can still be read and closed, shows no guest memory, and its
//! frames still add up. Where memory is refused in an epoch, nothing changes.
//!
//! A clause sees a host as a `World` (`specs/World.antt`): its machine, the names of its domains, the pool of its frames and
//! guests, state and phase. No frame is in it, so that the definitions of `past_boundary` (`specs/Boundary.antt`) and `after_epoch`
//! are about plain data. After each call frames that are free, held and in overhead add up (`Conserves`), each running guest's
//! record is good, and the revocations and the rebalancing of a boundary were fair (`specs/Fairness.antt`).
//!
//! **Proved**: [`Host::boundary`] is `past_boundary` on the world, answers what `boundary_of` says and leaves a host that is ready
//! for an epoch (`done`, `told`, `ready`). The six commands are decided in the order of their refusals, by the books
//! (`decision_on_line`). `Failed` comes exactly on a failed host, which stays as it is. `Memory` comes only where there is a domain
//! or a line (`wanted`), and keeps the machine and the domains (`kept`). After each boundary, a failed one too, frames add up
//! (`conserves`); after `Ok` each record is good (`good`), each revocation was fair (`fair`) and each page that moved from guest to
//! guest was given fairly (`rebalanced`). [`Host::epoch`] is `after_epoch` for every gate and 1 to 64 workers, and changes nothing
//! on an error (`done`, `unchanged`); each running guest's number passes the gate once, those of each thread rising (`passed`).
//! `epoch_alone` is the same on the caller's thread. Readers show the world; `peek` copies a page exactly where a running guest has
//! the name, the page is below its size and the host has not failed. `close` takes any host and gives the domains back; that every
//! frame goes back is the proof of its body, and no clause. `with_shelf` is `new`, and `close_keeping` is `close`, whatever rooms of
//! guests go from one host to the next.
//!
//! **Only tested**: that calls succeed where memory is there, without domains too; that two workers run two guests at once; worked
//! examples. **Not claimed**: speed. For callers: `proofs/FirstLemmas`, `KeptLemmas`, `PolicyLemmas`.
#![tactic(auto)]

mod boundary;
mod decide;
mod host;
mod law;
mod lines;
mod obey;
mod parts;
mod phase;
mod stages;

pub use boundary::{Answer, Answers, Boundary, DomainStatistics, Outcome, Refusal};
pub use host::{Host, HostError};
pub use law::law_boundary;
pub use lines::Lines;
pub use phase::Phase;
pub use vm_domains::{Domains, MachineSpec, Percents};
pub use vm_plan::{Plan, State};
pub use vm_pool::{Gate, GuestSpec, GuestView, Open, PageRead, Ran, Shelf, Stats};
pub use vm_reclaim::{Blocked, Paged, Paging};
