// What every change of a pool keeps.
ghost use Rattle.std.specs.Prelude.{◌≡◌, ℕ, ◌-◌, ◌++◌, ◌∷◌, ◌<◌, ◌≤◌, Bool, IfSome, IsSome, List, [], None, Some, fold, length, slice_get, slice_set};
ghost use Rattle.vm_admission.specs.Accounts.{with_guest, with_minimum, without_guest};
ghost use Rattle.vm_domains.specs.Machine.{MachineConfig};
ghost use Rattle.vm_guest.specs.Boundary.{revoked, serviced, surplus, with_cap, with_shares};
ghost use Rattle.vm_guest.specs.Config.{GuestConfig};
ghost use Rattle.vm_guest.specs.Good.{HasNothingPosted, IsGood};
ghost use Rattle.vm_guest.specs.Happenings.{Started, epoch_happenings, service_happenings, IsWrittenBy};
ghost use Rattle.vm_guest.specs.Record.{GuestRecord, reserve};
ghost use Rattle.vm_pool.specs.Changes.{after_epoch, all_changed, changed, frames_to_grant, frames_to_start, granted_at, lacking, released_at, started_at, stopped_at, surplus_of, taken_at, with_min_at, with_orders, with_released, with_spares_back, AreReleasable};
ghost use Rattle.vm_pool.specs.CanMove.{CanGrant, CanRevoke};
ghost use Rattle.vm_pool.specs.Pool.{PoolView, guest_at, Conserves, EachGuest};
ghost use Rattle.vm_sound.specs.Books.{accounts_of};
ghost use Rattle.vm_sound.specs.Moves.{CanTake, HasFrameAt};
ghost use Rattle.vm_sound.specs.Sound.{IsSoundPool};
ghost use Rattle.vm_sound.specs.Written.{History, happenings_at, with_happenings, AreAll};

/// A pool stays sound by each call.
pub fn law_sound()
    ensures serviced { (p : PoolView) → IsSoundPool p → IsSoundPool (all_changed serviced p) }
    ensures spares { (p : PoolView) → IsSoundPool p → IsSoundPool (with_spares_back p) }
    ensures orders { (blocks : Bool) (p : PoolView) → IsSoundPool p → IsSoundPool (with_orders blocks p) }
    ensures epoch { (p : PoolView) → EachGuest HasNothingPosted p → IsSoundPool p → IsSoundPool (after_epoch p) }
    ensures released { (counts : List ℕ) (p : PoolView) → AreReleasable counts p.guests → IsSoundPool p → IsSoundPool (with_released counts p) }
    ensures released_at { (count : ℕ) (p : PoolView) (k : ℕ) → IfSome (guest_at p k) (λ g. count ≤ surplus g) → IsSoundPool p
        → IsSoundPool (released_at count p k) }
    ensures revoked { (p : PoolView) (k : ℕ) → IfSome (guest_at p k) (λ g. g.allotment.min < g.allotment.target) → IsSoundPool p
        → IsSoundPool (changed revoked p k) }
    ensures taken { (p : PoolView) (k : ℕ) → IfSome (guest_at p k) (λ g. g.allotment.min < g.allotment.target) → IsSoundPool p
        → IsSoundPool (taken_at p k) }
    ensures granted { (p : PoolView) (k : ℕ) → IfSome (guest_at p k) (λ g. 0 < g.allotment.demand)
        → IfSome (guest_at p k) (λ g. g.allotment.target < g.allotment.cap) → IsSoundPool p → IsSoundPool (granted_at p k) }
    ensures with_cap { (cap : ℕ) (p : PoolView) (k : ℕ) → IfSome (guest_at p k) (λ g. g.allotment.min ≤ cap)
        → IfSome (guest_at p k) (λ g. cap ≤ g.config.size) → IsSoundPool p → IsSoundPool (changed (λ g. with_cap g cap) p k) }
    ensures with_shares { (shares : ℕ) (p : PoolView) (k : ℕ) → 1 ≤ shares → shares ≤ 1000000 → IsSoundPool p
        → IsSoundPool (changed (λ g. with_shares g shares) p k) }
    ensures with_min { (least : ℕ) (p : PoolView) (k : ℕ) → 1 ≤ least → IfSome (guest_at p k) (λ g. least ≤ g.allotment.cap) → IsSoundPool p
        → IsSoundPool (with_min_at least p k) }
    ensures stopped { (p : PoolView) (k : ℕ) → IsSoundPool p → IsSoundPool (stopped_at p k) }
    ensures started { (p : PoolView) (k : ℕ) → IsSoundPool p → IsSoundPool (started_at p k) }
    ensures all_revoked { (moves : List ℕ) (p : PoolView) → CanRevoke p moves → IsSoundPool p → IsSoundPool (fold (changed revoked) p moves) }
    ensures all_taken { (moves : List ℕ) (p : PoolView) → CanTake p moves → IsSoundPool p → IsSoundPool (fold taken_at p moves) }
    ensures all_granted { (moves : List ℕ) (p : PoolView) → CanGrant p moves → IsSoundPool p → IsSoundPool (fold granted_at p moves) }
{}

/// Frames that are free, held and set aside add up after each call.
pub fn law_frames()
    ensures serviced { (p : PoolView) → Conserves p → Conserves (all_changed serviced p) }
    ensures spares { (p : PoolView) → Conserves p → Conserves (with_spares_back p) }
    ensures orders { (blocks : Bool) (p : PoolView) → Conserves p → Conserves (with_orders blocks p) }
    ensures epoch { (p : PoolView) → Conserves p → Conserves (after_epoch p) }
    ensures released { (counts : List ℕ) (p : PoolView) → AreReleasable counts p.guests → length counts ≡ length p.guests → Conserves p
        → Conserves (with_released counts p) }
    ensures released_at { (count : ℕ) (p : PoolView) (k : ℕ) → count ≤ surplus_of (guest_at p k) → Conserves p → Conserves (released_at count p k) }
    ensures revoked { (p : PoolView) (k : ℕ) → Conserves p → Conserves (changed revoked p k) }
    ensures taken { (p : PoolView) (k : ℕ) → HasFrameAt p k → Conserves p → Conserves (taken_at p k) }
    ensures granted { (p : PoolView) (k : ℕ) → frames_to_grant (guest_at p k) ≤ p.free → Conserves p → Conserves (granted_at p k) }
    ensures with_cap { (cap : ℕ) (p : PoolView) (k : ℕ) → Conserves p → Conserves (changed (λ g. with_cap g cap) p k) }
    ensures with_shares { (shares : ℕ) (p : PoolView) (k : ℕ) → Conserves p → Conserves (changed (λ g. with_shares g shares) p k) }
    ensures with_min { (least : ℕ) (p : PoolView) (k : ℕ) → lacking least (guest_at p k) ≤ p.free → Conserves p → Conserves (with_min_at least p k) }
    ensures stopped { (p : PoolView) (k : ℕ) → IsSome (guest_at p k) → Conserves p → Conserves (stopped_at p k) }
    ensures started { (p : PoolView) (k : ℕ) → k < length p.guests → guest_at p k ≡ None
        → frames_to_start p.overhead (slice_get p.configs k) ≤ p.free → Conserves p → Conserves (started_at p k) }
    ensures all_revoked { (moves : List ℕ) (p : PoolView) → Conserves p → Conserves (fold (changed revoked) p moves) }
    ensures all_taken { (moves : List ℕ) (p : PoolView) → CanTake p moves → Conserves p → Conserves (fold taken_at p moves) }
    ensures all_granted { (moves : List ℕ) (p : PoolView) → CanGrant p moves → Conserves p → Conserves (fold granted_at p moves) }
{}

/// A guest that was served has nothing posted after each call but an epoch.
pub fn law_served()
    ensures serviced { (p : PoolView) → EachGuest HasNothingPosted (all_changed serviced p) }
    ensures spares { (p : PoolView) → EachGuest HasNothingPosted p → EachGuest HasNothingPosted (with_spares_back p) }
    ensures orders { (blocks : Bool) (p : PoolView) → EachGuest HasNothingPosted p → EachGuest HasNothingPosted (with_orders blocks p) }
    ensures released { (counts : List ℕ) (p : PoolView) → EachGuest HasNothingPosted p → EachGuest HasNothingPosted (with_released counts p) }
    ensures released_at { (count : ℕ) (p : PoolView) (k : ℕ) → EachGuest HasNothingPosted p → EachGuest HasNothingPosted (released_at count p k) }
    ensures revoked { (p : PoolView) (k : ℕ) → EachGuest HasNothingPosted p → EachGuest HasNothingPosted (changed revoked p k) }
    ensures taken { (p : PoolView) (k : ℕ) → EachGuest HasNothingPosted p → EachGuest HasNothingPosted (taken_at p k) }
    ensures granted { (p : PoolView) (k : ℕ) → EachGuest HasNothingPosted p → EachGuest HasNothingPosted (granted_at p k) }
    ensures with_cap { (cap : ℕ) (p : PoolView) (k : ℕ) → EachGuest HasNothingPosted p
        → EachGuest HasNothingPosted (changed (λ g. with_cap g cap) p k) }
    ensures with_shares { (shares : ℕ) (p : PoolView) (k : ℕ) → EachGuest HasNothingPosted p
        → EachGuest HasNothingPosted (changed (λ g. with_shares g shares) p k) }
    ensures with_min { (least : ℕ) (p : PoolView) (k : ℕ) → EachGuest HasNothingPosted p → EachGuest HasNothingPosted (with_min_at least p k) }
    ensures stopped { (p : PoolView) (k : ℕ) → EachGuest HasNothingPosted p → EachGuest HasNothingPosted (stopped_at p k) }
    ensures started { (p : PoolView) (k : ℕ) → EachGuest HasNothingPosted p → EachGuest HasNothingPosted (started_at p k) }
    ensures all_revoked { (moves : List ℕ) (p : PoolView) → EachGuest HasNothingPosted p → EachGuest HasNothingPosted (fold (changed revoked) p moves) }
    ensures all_taken { (moves : List ℕ) (p : PoolView) → EachGuest HasNothingPosted p → EachGuest HasNothingPosted (fold taken_at p moves) }
    ensures all_granted { (moves : List ℕ) (p : PoolView) → EachGuest HasNothingPosted p → EachGuest HasNothingPosted (fold granted_at p moves) }
{}

/// Only a start, a stop and another minimum change the books.
pub fn law_books()
    ensures serviced { (machine : MachineConfig) (p : PoolView) → accounts_of machine (all_changed serviced p).guests ≡ accounts_of machine p.guests }
    ensures spares { (machine : MachineConfig) (p : PoolView) → accounts_of machine (with_spares_back p).guests ≡ accounts_of machine p.guests }
    ensures orders { (machine : MachineConfig) (blocks : Bool) (p : PoolView) → accounts_of machine (with_orders blocks p).guests ≡ accounts_of machine p.guests }
    ensures epoch { (machine : MachineConfig) (p : PoolView) → accounts_of machine (after_epoch p).guests ≡ accounts_of machine p.guests }
    ensures released { (machine : MachineConfig) (counts : List ℕ) (p : PoolView) → accounts_of machine (with_released counts p).guests ≡ accounts_of machine p.guests }
    ensures released_at { (machine : MachineConfig) (count : ℕ) (p : PoolView) (k : ℕ) → accounts_of machine (released_at count p k).guests ≡ accounts_of machine p.guests }
    ensures revoked { (machine : MachineConfig) (p : PoolView) (k : ℕ) → accounts_of machine (changed revoked p k).guests ≡ accounts_of machine p.guests }
    ensures taken { (machine : MachineConfig) (p : PoolView) (k : ℕ) → accounts_of machine (taken_at p k).guests ≡ accounts_of machine p.guests }
    ensures granted { (machine : MachineConfig) (p : PoolView) (k : ℕ) → accounts_of machine (granted_at p k).guests ≡ accounts_of machine p.guests }
    ensures with_cap { (machine : MachineConfig) (cap : ℕ) (p : PoolView) (k : ℕ) → accounts_of machine (changed (λ g. with_cap g cap) p k).guests ≡ accounts_of machine p.guests }
    ensures with_shares { (machine : MachineConfig) (shares : ℕ) (p : PoolView) (k : ℕ) → accounts_of machine (changed (λ g. with_shares g shares) p k).guests ≡ accounts_of machine p.guests }
    ensures all_revoked { (machine : MachineConfig) (moves : List ℕ) (p : PoolView) → accounts_of machine (fold (changed revoked) p moves).guests ≡ accounts_of machine p.guests }
    ensures all_taken { (machine : MachineConfig) (moves : List ℕ) (p : PoolView) → accounts_of machine (fold taken_at p moves).guests ≡ accounts_of machine p.guests }
    ensures all_granted { (machine : MachineConfig) (moves : List ℕ) (p : PoolView) → accounts_of machine (fold granted_at p moves).guests ≡ accounts_of machine p.guests }
    ensures started { (machine : MachineConfig) (p : PoolView) (k : ℕ) (config : GuestConfig) → k < length p.guests → guest_at p k ≡ None
        → slice_get p.configs k ≡ Some config
        → accounts_of machine (started_at p k).guests ≡ with_guest (accounts_of machine p.guests) config.min (config.size - config.min) }
    ensures stopped { (machine : MachineConfig) (p : PoolView) (k : ℕ) (g : GuestRecord) → guest_at p k ≡ Some g
        → accounts_of machine (stopped_at p k).guests ≡ without_guest (accounts_of machine p.guests) g.allotment.min (reserve g) }
    ensures with_min { (machine : MachineConfig) (least : ℕ) (p : PoolView) (k : ℕ) (g : GuestRecord) → guest_at p k ≡ Some g
        → g.allotment.least_min ≤ g.config.size → accounts_of machine (with_min_at least p k).guests
        ≡ with_minimum (accounts_of machine p.guests) g.allotment.min least (g.allotment.least_min - least) }
{}

/// The memory of each guest is that of the last writes after each call.
pub fn law_told()
    ensures spares { (p : PoolView) (h : History) → AreAll IsWrittenBy p.guests h → AreAll IsWrittenBy (with_spares_back p).guests h }
    ensures orders { (blocks : Bool) (p : PoolView) (h : History) → AreAll IsWrittenBy p.guests h → AreAll IsWrittenBy (with_orders blocks p).guests h }
    ensures released { (counts : List ℕ) (p : PoolView) (h : History) → AreAll IsWrittenBy p.guests h → AreAll IsWrittenBy (with_released counts p).guests h }
    ensures released_at { (count : ℕ) (p : PoolView) (k : ℕ) (h : History) → AreAll IsWrittenBy p.guests h → AreAll IsWrittenBy (released_at count p k).guests h }
    ensures revoked { (p : PoolView) (k : ℕ) (h : History) → AreAll IsWrittenBy p.guests h → AreAll IsWrittenBy (changed revoked p k).guests h }
    ensures taken { (p : PoolView) (k : ℕ) (h : History) → AreAll IsWrittenBy p.guests h → AreAll IsWrittenBy (taken_at p k).guests h }
    ensures granted { (p : PoolView) (k : ℕ) (h : History) → AreAll IsWrittenBy p.guests h → AreAll IsWrittenBy (granted_at p k).guests h }
    ensures with_cap { (cap : ℕ) (p : PoolView) (k : ℕ) (h : History) → AreAll IsWrittenBy p.guests h → AreAll IsWrittenBy (changed (λ g. with_cap g cap) p k).guests h }
    ensures with_shares { (shares : ℕ) (p : PoolView) (k : ℕ) (h : History) → AreAll IsWrittenBy p.guests h → AreAll IsWrittenBy (changed (λ g. with_shares g shares) p k).guests h }
    ensures with_min { (least : ℕ) (p : PoolView) (k : ℕ) (h : History) → AreAll IsWrittenBy p.guests h → AreAll IsWrittenBy (with_min_at least p k).guests h }
    ensures stopped { (p : PoolView) (k : ℕ) (h : History) → AreAll IsWrittenBy p.guests h → AreAll IsWrittenBy (stopped_at p k).guests h }
    ensures all_revoked { (moves : List ℕ) (p : PoolView) (h : History) → AreAll IsWrittenBy p.guests h → AreAll IsWrittenBy (fold (changed revoked) p moves).guests h }
    ensures all_taken { (moves : List ℕ) (p : PoolView) (h : History) → AreAll IsWrittenBy p.guests h → AreAll IsWrittenBy (fold taken_at p moves).guests h }
    ensures all_granted { (moves : List ℕ) (p : PoolView) (h : History) → AreAll IsWrittenBy p.guests h → AreAll IsWrittenBy (fold granted_at p moves).guests h }
    ensures serviced { (p : PoolView) (h : History) → EachGuest IsGood p → AreAll IsWrittenBy p.guests h
        → AreAll IsWrittenBy (all_changed serviced p).guests (with_happenings service_happenings p.guests h) }
    ensures started { (p : PoolView) (k : ℕ) (h : History) → guest_at p k ≡ None → AreAll IsWrittenBy p.guests h
        → AreAll IsWrittenBy (started_at p k).guests (slice_set h k (happenings_at h k ++ Started ∷ [])) }
    ensures epoch { (p : PoolView) (h : History) → EachGuest IsGood p → EachGuest HasNothingPosted p → AreAll IsWrittenBy p.guests h
        → AreAll IsWrittenBy (after_epoch p).guests (with_happenings epoch_happenings p.guests h) }
{}
