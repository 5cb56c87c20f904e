//! What is true of the runs and the picture of every sweep, by the definitions alone.
ghost use Rattle.std.specs.Prelude.{◌≡◌, ◌<◌, List, ℕ, All, IsPermutation};
ghost use Rattle.std.specs.List.{range_with_len};
ghost use Rattle.std.specs.List.Sorted.{IsNonDecreasing};
ghost use Rattle.std.specs.Option.{option_map};
ghost use Rattle.vm_config.specs.declared.config.Config.{Config};
ghost use Rattle.vm_drawing.specs.Stacked.{AreStacked};
ghost use Rattle.vm_sweep.specs.Combinations.{ValueLists, combinations, on_machines, spread, variants};
ghost use Rattle.vm_sweep.specs.Medians.{in_order};
ghost use Rattle.vm_sweep.specs.declared.variant.Looped.TheVariants.{Seed};
ghost use Rattle.vm_sweep.specs.declared.points.SweptPoint.{SweptPoint};
ghost use Rattle.vm_sweep.specs.OnAxis.{FramesRise, IsOnAxis};
ghost use Rattle.vm_sweep.specs.SweepDrawing.{frame_axis, sweep_drawing};
ghost use Rattle.vm_sweep.specs.SweptRuns.{places_of};

/// In the picture of a sweep no chart reaches into the room of another one, and no value leaves its chart upwards.
pub fn law_stacked_sweep()
    ensures { (lists : ValueLists) (page : ℕ) (names : List (List ℕ)) (points : List SweptPoint)
        → let drawing = sweep_drawing lists page names points in AreStacked drawing.along drawing.axis 70 drawing.charts }
{}

/// No value leaves its chart to the left or to the right, where no machine has fewer frames than one before it.
pub fn law_on_axis()
    ensures { (points : List SweptPoint) (curves curve : ℕ) → FramesRise points → curve < curves
        → All (IsOnAxis (frame_axis points)) (places_of points curves curve) }
{}

/// The runs of a sweep are its combinations on each machine, the first machine first, each with each seed.
pub fn law_runs_of_combinations()
    ensures { (lists : ValueLists) (config : Config) → variants lists config
        ≡ spread Seed (option_map (range_with_len 0) lists.seeds) (on_machines lists.frames (combinations lists config)) }
{}

/// Numbers in order are the same numbers, and none is below one before it.
pub fn law_in_order()
    ensures same { (numbers : List ℕ) → IsPermutation numbers (in_order numbers) }
    ensures order { (numbers : List ℕ) → IsNonDecreasing (in_order numbers) }
{}
