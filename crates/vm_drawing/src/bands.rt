// The text of the band behind a curve.
ghost use Rattle.std.specs.Prelude.{◌≡◌, ◌<◌, ◌≤◌, ◌++◌, OnOk, length};
ghost use Rattle.vm_drawing.specs.Bands.{back_text, corner, edge_at, outline_text, pen_text, spread_at, spread_before, turn_text};
ghost use Rattle.vm_drawing.specs.Shapes.{band_text};

use crate::area::Area;
use crate::drawing::Curve;
use crate::spread::Spread;
use crate::texts::{colour, place_among, put, put_attribute, put_escaped, put_number, put_pair};
use std::alloc::AllocError;

fn spread_at(spreads: &[Option<Spread>], i: usize) -> Option<Spread>
    ensures { result ≡ spread_at spreads.now i }
{
    spreads.get(i).copied().unwrap_or(None)
}

fn spread_before(spreads: &[Option<Spread>], i: usize) -> Option<Spread>
    ensures { result ≡ spread_before spreads.now i }
{
    if i == 0 {
        None
    } else {
        spread_at(spreads, i - 1)
    }
}

fn put_corner(
    text: &mut Vec<u8>,
    area: Area,
    curve: &Curve,
    i: usize,
    value: u64,
) -> Result<(), AllocError>
    requires { area.scale.parts ≤ 100 }
    ensures { OnOk result (text.new.items ≡ text.old.items ++ corner area curve.now i value) }
{
    let place = place_among(area.axis.first, curve.places(), i);
    let x = area.axis.x_of(place);
    put_pair(text, x, area.scale.y_of(u128::from(value)))
}

// ---- back along the least values

fn put_back(
    text: &mut Vec<u8>,
    area: Area,
    curve: &Curve,
    spreads: &[Option<Spread>],
    end: usize,
) -> Result<(), AllocError>
    requires { area.scale.parts ≤ 100 }
    ensures { OnOk result (text.new.items ≡ text.old.items ++ back_text area curve.now spreads.now end) }
{
    for i in (0..end).rev() {
        let Some(spread) = spread_at(spreads, i) else {
            return Ok(());
        };
        put(text, "L")?;
        put_corner(text, area, curve, i, spread.least)?;
    }
    Ok(())
}

// ---- along the greatest values

fn pen_text(before: Option<Spread>) -> &'static str
    ensures { result.now ≡ pen_text before }
{
    match before {
        Some(_) => "L",
        None => "M",
    }
}

// Where a gap is, or the end, the band turns back and is closed.
fn put_turn(
    text: &mut Vec<u8>,
    area: Area,
    curve: &Curve,
    spreads: &[Option<Spread>],
    i: usize,
) -> Result<(), AllocError>
    requires { area.scale.parts ≤ 100 }
    ensures { OnOk result (text.new.items ≡ text.old.items
        ++ turn_text area curve.now spreads.now i (spread_at spreads.now i)) }
{
    if spread_at(spreads, i).is_some() {
        return Ok(());
    }
    put_back(text, area, curve, spreads, i)?;
    put(text, "Z")
}

fn put_edge_at(
    text: &mut Vec<u8>,
    area: Area,
    curve: &Curve,
    spreads: &[Option<Spread>],
    i: usize,
) -> Result<(), AllocError>
    requires within { i < length spreads.now }
    requires few { area.scale.parts ≤ 100 }
    ensures { OnOk result (text.new.items ≡ text.old.items ++ edge_at area curve.now spreads.now i) }
{
    let Some(spread) = spread_at(spreads, i) else {
        return Ok(());
    };
    put(text, pen_text(spread_before(spreads, i)))?;
    put_corner(text, area, curve, i, spread.greatest)?;
    put_turn(text, area, curve, spreads, i + 1)
}

// ---- bands

#[tactic(auto, unfolding(crate::specs::Bands::outline_text))]
fn put_outline(
    text: &mut Vec<u8>,
    area: Area,
    curve: &Curve,
    spreads: &[Option<Spread>],
) -> Result<(), AllocError>
    requires { area.scale.parts ≤ 100 }
    ensures { OnOk result (text.new.items ≡ text.old.items ++ outline_text area curve.now spreads.now) }
{
    for i in 0..spreads.len() {
        put_edge_at(text, area, curve, spreads, i)?;
    }
    Ok(())
}

pub(crate) fn put_band(
    text: &mut Vec<u8>,
    area: Area,
    curve: &Curve,
    spreads: &[Option<Spread>],
) -> Result<(), AllocError>
    requires { area.scale.parts ≤ 100 }
    ensures { OnOk result (text.new.items ≡ text.old.items ++ band_text area curve.now spreads.now) }
{
    put(text, "<path class=\"band\" transform=\"translate(90,")?;
    put_number(text, area.base)?;
    put(text, ") scale(1,-1)\"")?;
    put_attribute(text, "fill", colour(curve.number()))?;
    put(text, " fill-opacity=\"0.2\" d=\"")?;
    put_outline(text, area, curve, spreads)?;
    put(text, "\"><title>")?;
    put_escaped(text, curve.name())?;
    put(text, "</title></path>\n")
}
