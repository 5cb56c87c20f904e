//! What is true of the picture of every series, by the definitions alone.
ghost use Rattle.vm_series.specs.Rows.{Rows};
ghost use Rattle.vm_series.specs.Series.{drawing_of};
ghost use Rattle.vm_drawing.specs.Stacked.{AreStacked};

/// In the picture of a series no chart reaches into the room of another one, and no value leaves its chart.
pub fn law_series()
    ensures { (s : Rows) → AreStacked (drawing_of s).along (drawing_of s).axis 70 (drawing_of s).charts }
{}
