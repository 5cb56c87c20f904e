// What is true of every boundary, by its definition alone.
ghost use Rattle.std.specs.Prelude.{ℕ, List};
ghost use Rattle.vm_host.specs.Boundary.{past_boundary};
ghost use Rattle.vm_host.specs.Fairness.{IsFairBoundary, IsFairRebalancing};
ghost use Rattle.vm_host.specs.Sound.{IsSoundWorld};
ghost use Rattle.vm_host.specs.World.{World};
ghost use Rattle.vm_reclaim.specs.Policy.{policy_of};

/// A boundary leaves a sound host sound, whatever its lines, and each of its revocations is fair, and so is each page that it moves from
/// guest to guest.
pub fn law_boundary()
    ensures sound { (w : World) (lines : List (List ℕ)) → IsSoundWorld w → IsSoundWorld (past_boundary w lines) }
    ensures fair { (w : World) (lines : List (List ℕ)) → IsSoundWorld w → IsFairBoundary (policy_of w.machine) w lines }
    ensures rebalanced { (w : World) (lines : List (List ℕ)) → IsSoundWorld w → IsFairRebalancing (policy_of w.machine) w lines }
{}
