//! What is true of every picture, by the definitions alone.
ghost use Rattle.std.specs.Prelude.{◌*◌, ◌^◌, ◌≤◌, ℕ, List};
ghost use Rattle.vm_drawing.specs.declared.scale.Axis.{Axis};
ghost use Rattle.vm_drawing.specs.Drawing.{Chart};
ghost use Rattle.vm_drawing.specs.Round.{IsLeastRound};
ghost use Rattle.vm_drawing.specs.Scale.{round_up};
ghost use Rattle.vm_drawing.specs.Stacked.{AreStacked, Each, HasWords};

/// No chart of a picture reaches into the room of another one, and no value leaves its chart, where a chart with words has one for
/// each of its values.
pub fn law_stacked()
    ensures { (along : List ℕ) (axis : Axis) (y : ℕ) (charts : List Chart) → Each HasWords charts → AreStacked along axis y charts }
{}

/// The step of a scale is the least round number that is great enough: a power of ten, or twice or five times as much.
pub fn law_round()
    ensures { (value : ℕ) → value ≤ 5 * 10 ^ 18 → IsLeastRound value (round_up value) }
{}
