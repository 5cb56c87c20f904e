// The values of a curve.
ghost use Rattle.std.specs.Prelude.{◌≡◌, max};
ghost use Rattle.vm_drawing.specs.Drawing.{ends_among};
ghost use Rattle.vm_drawing.specs.Values.{greatest};

use crate::spread::Spread;

// The greatest value, or 0.
pub(crate) fn greatest(values: &[Option<u64>]) -> u64
    ensures { result ≡ greatest values.now }
{
    let mut most: u64 = 0;
    for value in values {
        most = most.max(value.unwrap_or(0));
    }
    most
}

// The greatest value of these spreads, or 0.
pub(crate) fn greatest_end(spreads: &[Option<Spread>]) -> u64
    ensures { result ≡ greatest (ends_among spreads.now) }
{
    let mut most: u64 = 0;
    for spread in spreads {
        let Some(spread) = spread else { continue };
        most = most.max(spread.least).max(spread.greatest);
    }
    most
}
