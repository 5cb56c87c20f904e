// What is true of a pool after each call, by the definition of the call alone.
ghost use Rattle.std.specs.Prelude.{◌≡◌, ℕ, ◌<◌, ◌≤◌, Bool, IsSome, List, None, length, slice_get};
ghost use Rattle.vm_guest.specs.Boundary.{ordered, revoked, serviced, with_cap, with_shares};
ghost use Rattle.vm_guest.specs.Config.{GuestConfig};
ghost use Rattle.vm_pool.specs.Changes.{after_epoch, all_changed, changed, frames_to_grant, frames_to_start, granted_at, lacking, released_at, started_at, stopped_at, surplus_of, with_min_at, with_orders, with_released, with_spares_back, AreReleasable};
ghost use Rattle.vm_pool.specs.Pool.{PoolView, first_pool, guest_at, Conserves};

/// Frames that are free, held and set aside add up to the machine at first, and still do after each call that was allowed.
pub fn law_conserves()
    ensures first { (frames overhead : ℕ) (configs : List GuestConfig) → Conserves (first_pool frames overhead configs) }
    ensures started { (p : PoolView) (i : ℕ) → i < length p.guests → guest_at p i ≡ None
        → frames_to_start p.overhead (slice_get p.configs i) ≤ p.free → Conserves p → Conserves (started_at p i) }
    ensures stopped { (p : PoolView) (i : ℕ) → IsSome (guest_at p i) → Conserves p → Conserves (stopped_at p i) }
    ensures serviced { (p : PoolView) → Conserves p → Conserves (all_changed serviced p) }
    ensures with_spares_back { (p : PoolView) → Conserves p → Conserves (with_spares_back p) }
    ensures released { (count : ℕ) (p : PoolView) (i : ℕ) → count ≤ surplus_of (guest_at p i) → Conserves p
        → Conserves (released_at count p i) }
    ensures released_all { (counts : List ℕ) (p : PoolView) → length counts ≡ length p.guests → AreReleasable counts p.guests → Conserves p
        → Conserves (with_released counts p) }
    ensures revoked { (p : PoolView) (i : ℕ) → Conserves p → Conserves (changed revoked p i) }
    ensures granted { (p : PoolView) (i : ℕ) → frames_to_grant (guest_at p i) ≤ p.free → Conserves p → Conserves (granted_at p i) }
    ensures with_cap { (cap : ℕ) (p : PoolView) (i : ℕ) → Conserves p → Conserves (changed (λ g. with_cap g cap) p i) }
    ensures with_min { (least : ℕ) (p : PoolView) (i : ℕ) → lacking least (guest_at p i) ≤ p.free → Conserves p
        → Conserves (with_min_at least p i) }
    ensures with_shares { (shares : ℕ) (p : PoolView) (i : ℕ) → Conserves p → Conserves (changed (λ g. with_shares g shares) p i) }
    ensures ordered { (blocked : Bool) (p : PoolView) (i : ℕ) → Conserves p → Conserves (changed (λ g. ordered g blocked) p i) }
    ensures ordered_all { (blocks : Bool) (p : PoolView) → Conserves p → Conserves (with_orders blocks p) }
    ensures epoch { (p : PoolView) → Conserves p → Conserves (after_epoch p) }
{}
