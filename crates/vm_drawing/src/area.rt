// The rectangle in which a chart has its curves.
ghost use Rattle.std.specs.Prelude.{◌≡◌, ◌*◌, ◌<◌, ◌≤◌, ◌^◌};
ghost use Rattle.vm_drawing.specs.Picture.{across, down};

use crate::scale::{Axis, Pixels, Scale};

pub(crate) const LEFT: Pixels = 90;

// Where a chart is. Its left edge is that of all charts.
#[derive(Clone, Copy)]
pub(crate) struct Area {
    // how far down the line of the value 0 is
    pub(crate) base: Pixels,
    pub(crate) scale: Scale,
    pub(crate) axis: Axis,
}

impl Area {
    // How far right a place is.
    pub(crate) fn across(self, place: u128) -> Pixels
        requires { place < 2 ^ 70 }
        ensures value { result ≡ across self place }
        ensures bound { result < 2 ^ 81 }
    {
        LEFT + self.axis.x_of(place)
    }

    // How far down a value is.
    pub(crate) fn down(self, value: u128) -> Pixels
        requires few { self.scale.parts ≤ 100 }
        requires value { value < 2 ^ 80 }
        ensures value { result ≡ down self value }
        ensures within { result ≤ self.base }
    {
        self.base.saturating_sub(self.scale.y_of(value))
    }
}
