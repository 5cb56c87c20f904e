//! What is true of making room, by the definitions alone.
ghost use Rattle.std.specs.Prelude.{ℕ};
ghost use Rattle.vm_pool.specs.Pool.{PoolView, Conserves};
ghost use Rattle.vm_reclaim.specs.Enough.{CoversMinimum, CoversStart};
ghost use Rattle.vm_reclaim.specs.Making.{HasRoomToRaise, HasRoomToStart};
ghost use Rattle.vm_sound.specs.Sound.{IsSoundPool};
ghost use Rattle.vm_tax.specs.Ratio.{Tax};

/// What admission covers can be had: where the frames of a machine cover what its guests are promised, there is room for a guest to
/// start, and for a minimum.
pub fn law_room()
    ensures start { (tax : Tax) (pool : PoolView) (position : ℕ) → IsSoundPool pool → Conserves pool
        → CoversStart pool position → HasRoomToStart tax pool position }
    ensures minimum { (tax : Tax) (pool : PoolView) (position least : ℕ) → IsSoundPool pool → Conserves pool
        → CoversMinimum pool position least → HasRoomToRaise tax pool position least }
{}
