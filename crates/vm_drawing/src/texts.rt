// The text of each shape of a picture.
ghost use Rattle.std.specs.Prelude.{◌≡◌, ◌+◌, ◌*◌, ◌<◌, ◌≤◌, ◌^◌, ◌++◌, Some, codes, length, option_map, OnOk};
ghost use Rattle.std.specs.Fmt.{decimal};
ghost use Rattle.vm_drawing.specs.Curves.{goes_on, level_text, line_text, pair, path_text, point_text, rise_text, run_text, value_before, value_text};
ghost use Rattle.vm_drawing.specs.Drawing.{place_among, value_at};
ghost use Rattle.vm_drawing.specs.Scale.{x_of, y_of};
ghost use Rattle.vm_drawing.specs.Shapes.{attribute, circle_text, class_of, colour, curve_text, dashes, entry_text, escaped, escaped_byte, head_text, hue, level_line, mark_text, number_text, open_text, sample_text, stroke_text, styles_text, tick_text, upright_text, words_text};

use crate::area::Area;
use crate::drawing::Curve;
use crate::scale::Pixels;
use itoa::Buffer;
use std::alloc::AllocError;

const STYLES: &str =
    ".curve,.sample{fill:none;stroke-width:2}.grid{stroke:#999;stroke-width:.5}.tick{stroke:#000}\
.mark{fill:#fff}.end{text-anchor:end}.middle{text-anchor:middle}.heading{font-size:20px}\
.title{font-size:16px;font-weight:bold}.number{font-size:10px;text-anchor:middle}";

// How words are set.
#[derive(Clone, Copy)]
pub(crate) enum Style {
    Heading,
    Plain,
    Title,
    // they end at their place
    End,
    // their middle is at their place
    Middle,
}

// ---- characters, attributes, places

pub(crate) fn put(text: &mut Vec<u8>, piece: &str) -> Result<(), AllocError>
    ensures { OnOk result (text.new.items ≡ text.old.items ++ piece.now) }
{
    text.extend_from_slice(piece.as_bytes())
}

pub(crate) fn put_number(text: &mut Vec<u8>, number: u128) -> Result<(), AllocError>
    ensures { OnOk result (text.new.items ≡ text.old.items ++ decimal number) }
{
    let mut buffer = Buffer::new();
    put(text, buffer.format(number))
}

// A byte that has a meaning in XML, or none, is written so that it stands for itself or for a space.
fn put_byte(text: &mut Vec<u8>, byte: u8) -> Result<(), AllocError>
    ensures { OnOk result (text.new.items ≡ text.old.items ++ escaped_byte byte) }
{
    match byte {
        b'<' => put(text, "&lt;"),
        b'>' => put(text, "&gt;"),
        b'&' => put(text, "&amp;"),
        b'"' => put(text, "&quot;"),
        0..=31 => put(text, " "),
        _ => {
            text.push(byte)?;
            Ok(())
        }
    }
}

pub(crate) fn put_escaped(text: &mut Vec<u8>, words: &str) -> Result<(), AllocError>
    ensures { OnOk result (text.new.items ≡ text.old.items ++ escaped words.now) }
{
    let bytes = words.as_bytes();
    for byte in bytes {
        put_byte(text, *byte)?;
    }
    Ok(())
}

#[tactic(auto, unfolding(crate::specs::Shapes::attribute))]
pub(crate) fn put_attribute(text: &mut Vec<u8>, name: &str, value: &str) -> Result<(), AllocError>
    ensures { OnOk result (text.new.items ≡ text.old.items ++ attribute name.now value.now) }
{
    put(text, " ")?;
    put(text, name)?;
    put(text, "=\"")?;
    put(text, value)?;
    put(text, "\"")
}

fn put_length(text: &mut Vec<u8>, name: &str, length: Pixels) -> Result<(), AllocError>
    ensures { OnOk result (text.new.items ≡ text.old.items ++ attribute name.now (decimal length)) }
{
    let mut buffer = Buffer::new();
    put_attribute(text, name, buffer.format(length))
}

#[tactic(auto, unfolding(crate::specs::Curves::pair))]
pub(crate) fn put_pair(text: &mut Vec<u8>, x: Pixels, y: Pixels) -> Result<(), AllocError>
    ensures { OnOk result (text.new.items ≡ text.old.items ++ pair x y) }
{
    put_number(text, x)?;
    put(text, ",")?;
    put_number(text, y)
}

// ---- words

fn class_of(style: Style) -> &'static str
    ensures { result.now ≡ class_of style }
{
    match style {
        Style::Heading => "heading",
        Style::Plain => "plain",
        Style::Title => "title",
        Style::End => "end",
        Style::Middle => "middle",
    }
}

#[tactic(auto, unfolding(crate::specs::Shapes::words_text))]
pub(crate) fn put_words(
    text: &mut Vec<u8>,
    style: Style,
    x: Pixels,
    y: Pixels,
    words: &str,
) -> Result<(), AllocError>
    ensures { OnOk result (text.new.items ≡ text.old.items ++ words_text style x y words.now) }
{
    put(text, "<text")?;
    put_attribute(text, "class", class_of(style))?;
    put_length(text, "x", x)?;
    put_length(text, "y", y)?;
    put(text, ">")?;
    put_escaped(text, words)?;
    put(text, "</text>\n")
}

#[tactic(auto, unfolding(crate::specs::Shapes::upright_text))]
pub(crate) fn put_upright(text: &mut Vec<u8>, y: Pixels, words: &str) -> Result<(), AllocError>
    ensures { OnOk result (text.new.items ≡ text.old.items ++ upright_text y words.now) }
{
    put(text, "<text class=\"middle\" transform=\"translate(28,")?;
    put_number(text, y)?;
    put(text, ") rotate(-90)\">")?;
    put_escaped(text, words)?;
    put(text, "</text>\n")
}

#[tactic(auto, unfolding(crate::specs::Shapes::open_text))]
pub(crate) fn put_open(text: &mut Vec<u8>, title: &str) -> Result<(), AllocError>
    ensures { OnOk result (text.new.items ≡ text.old.items ++ open_text title.now) }
{
    put(text, "<g><title>")?;
    put_escaped(text, title)?;
    put(text, "</title>\n")
}

// ---- lines

#[tactic(auto, unfolding(crate::specs::Shapes::level_line))]
pub(crate) fn put_level(text: &mut Vec<u8>, y: Pixels) -> Result<(), AllocError>
    ensures { OnOk result (text.new.items ≡ text.old.items ++ level_line y) }
{
    put(text, "<path class=\"grid\" d=\"M90,")?;
    put_number(text, y)?;
    put(text, "H970\"/>\n")
}

#[tactic(auto, unfolding(crate::specs::Shapes::tick_text))]
pub(crate) fn put_tick(text: &mut Vec<u8>, x: Pixels, y: Pixels) -> Result<(), AllocError>
    ensures { OnOk result (text.new.items ≡ text.old.items ++ tick_text x y) }
{
    put(text, "<path class=\"tick\" d=\"M")?;
    put_pair(text, x, y)?;
    put(text, "v6\"/>\n")
}

// ---- how a curve is told from others

#[tactic(auto, unfolding(crate::specs::Shapes::dashes))]
fn dashes(number: u64) -> &'static str
    ensures { result.now ≡ dashes number }
{
    match number % 8 {
        0 => "none",
        1 => "9 4",
        2 => "2 3",
        3 => "14 4 2 4",
        4 => "5 3 1 3 1 3",
        5 => "20 6",
        6 => "1 5",
        _ => "8 3 8 3 2 3",
    }
}

#[tactic(auto, unfolding(crate::specs::Shapes::hue))]
fn hue(number: u64) -> &'static str
    ensures { result.now ≡ hue number }
{
    match number {
        0 => "#000000",
        1 => "#E69F00",
        2 => "#56B4E9",
        3 => "#009E73",
        4 => "#B3A000",
        5 => "#0072B2",
        6 => "#D55E00",
        _ => "#CC79A7",
    }
}

pub(crate) fn colour(number: u64) -> &'static str
    ensures { result.now ≡ colour number }
{
    let turn = (u128::from(number) + u128::from(number / 8)) % 8;
    hue(turn as u64)
}

#[tactic(auto, unfolding(crate::specs::Shapes::stroke_text))]
fn put_stroke(text: &mut Vec<u8>, number: u64) -> Result<(), AllocError>
    ensures { OnOk result (text.new.items ≡ text.old.items ++ stroke_text number) }
{
    put_attribute(text, "stroke", colour(number))?;
    put_attribute(text, "stroke-dasharray", dashes(number))
}

// ---- level curves

pub(crate) fn value_at(values: &[Option<u64>], i: usize) -> Option<u64>
    ensures { result ≡ value_at values.now i }
{
    values.get(i).copied().unwrap_or(None)
}

fn value_before(values: &[Option<u64>], i: usize) -> Option<u64>
    ensures { result ≡ value_before values.now i }
{
    if i == 0 {
        None
    } else {
        value_at(values, i - 1)
    }
}

fn goes_on(neighbour: Option<u64>, value: u64) -> bool
    ensures { result ≡ goes_on neighbour value }
{
    match neighbour {
        Some(neighbour) => neighbour == value,
        None => false,
    }
}

// The place that is so many whole ones behind the first.
fn place_behind(area: Area, i: usize) -> u128
    ensures value { result ≡ area.axis.first + i }
    ensures bound { result < 2 ^ 66 }
{
    u128::from(area.axis.first) + i as u128
}

fn put_rise(
    text: &mut Vec<u8>,
    area: Area,
    before: Option<u64>,
    i: usize,
    value: u64,
) -> Result<(), AllocError>
    requires { area.scale.parts ≤ 100 }
    ensures { OnOk result (text.new.items ≡ text.old.items
        ++ rise_text before value (x_of area.axis (area.axis.first + i)) (y_of area.scale value)) }
{
    let Some(last) = before else {
        put(text, "M")?;
        let x = area.axis.x_of(place_behind(area, i));
        return put_pair(text, x, area.scale.y_of(u128::from(value)));
    };
    if last == value {
        return Ok(());
    }
    put(text, "V")?;
    put_number(text, area.scale.y_of(u128::from(value)))
}

fn put_run(
    text: &mut Vec<u8>,
    area: Area,
    after: Option<u64>,
    end: usize,
    value: u64,
) -> Result<(), AllocError>
    ensures { OnOk result (text.new.items ≡ text.old.items
        ++ run_text after value (x_of area.axis (area.axis.first + end))) }
{
    if goes_on(after, value) {
        return Ok(());
    }
    put(text, "H")?;
    put_number(text, area.axis.x_of(place_behind(area, end)))
}

fn put_level_value(
    text: &mut Vec<u8>,
    area: Area,
    values: &[Option<u64>],
    i: usize,
) -> Result<(), AllocError>
    requires within { i < length values.now }
    requires few { area.scale.parts ≤ 100 }
    ensures { OnOk result (text.new.items ≡ text.old.items ++ level_text area values.now i (value_at values.now i)) }
{
    let Some(value) = value_at(values, i) else {
        return Ok(());
    };
    put_rise(text, area, value_before(values, i), i, value)?;
    put_run(text, area, value_at(values, i + 1), i + 1, value)
}

// ---- straight curves

// The place of a value.
pub(crate) fn place_among(first: u64, places: Option<&[u64]>, i: usize) -> u128
    ensures value { result ≡ place_among first (option_map (λ places. places.now) places.entry) i }
    ensures bound { result < 2 ^ 66 }
{
    match places {
        Some(places) => u128::from(places.get(i).copied().unwrap_or(0)),
        None => u128::from(first) + i as u128,
    }
}

fn line_text(before: Option<u64>) -> &'static str
    ensures { result.now ≡ line_text before }
{
    match before {
        Some(_) => "L",
        None => "M",
    }
}

fn put_point(
    text: &mut Vec<u8>,
    area: Area,
    values: &[Option<u64>],
    places: &[u64],
    i: usize,
) -> Result<(), AllocError>
    requires { area.scale.parts ≤ 100 }
    ensures { OnOk result (text.new.items ≡ text.old.items
        ++ point_text area values.now places.now i (value_at values.now i)) }
{
    let Some(value) = value_at(values, i) else {
        return Ok(());
    };
    put(text, line_text(value_before(values, i)))?;
    let x = area.axis.x_of(place_among(0, Some(places), i));
    put_pair(text, x, area.scale.y_of(u128::from(value)))
}

// ---- curves

fn put_value(
    text: &mut Vec<u8>,
    area: Area,
    values: &[Option<u64>],
    places: Option<&[u64]>,
    i: usize,
) -> Result<(), AllocError>
    requires within { i < length values.now }
    requires few { area.scale.parts ≤ 100 }
    ensures { OnOk result (text.new.items ≡ text.old.items
        ++ value_text area values.now (option_map (λ places. places.now) places.entry) i) }
{
    match places {
        Some(places) => put_point(text, area, values, places, i),
        None => put_level_value(text, area, values, i),
    }
}

#[tactic(auto, unfolding(crate::specs::Curves::path_text))]
fn put_path(text: &mut Vec<u8>, area: Area, curve: &Curve) -> Result<(), AllocError>
    requires { area.scale.parts ≤ 100 }
    ensures { OnOk result (text.new.items ≡ text.old.items ++ path_text area curve.now) }
{
    let (values, places) = (curve.values(), curve.places());
    for i in 0..values.len() {
        put_value(text, area, values, places, i)?;
    }
    Ok(())
}

pub(crate) fn put_curve(text: &mut Vec<u8>, area: Area, curve: &Curve) -> Result<(), AllocError>
    requires { area.scale.parts ≤ 100 }
    ensures { OnOk result (text.new.items ≡ text.old.items ++ curve_text area curve.now) }
{
    put(text, "<path class=\"curve\" transform=\"translate(90,")?;
    put_number(text, area.base)?;
    put(text, ") scale(1,-1)\"")?;
    put_stroke(text, curve.number())?;
    put(text, " d=\"")?;
    put_path(text, area, curve)?;
    put(text, "\"><title>")?;
    put_escaped(text, curve.name())?;
    put(text, "</title></path>\n")
}

// ---- marks and legends

#[tactic(auto, unfolding(crate::specs::Shapes::circle_text))]
fn put_circle(text: &mut Vec<u8>, x: Pixels, y: Pixels, number: u64) -> Result<(), AllocError>
    ensures { OnOk result (text.new.items ≡ text.old.items ++ circle_text x y number) }
{
    put(text, "<circle class=\"mark\"")?;
    put_attribute(text, "stroke", colour(number))?;
    put_length(text, "cx", x)?;
    put_length(text, "cy", y)?;
    put(text, " r=\"8\"/>")
}

fn put_curve_number(text: &mut Vec<u8>, x: Pixels, y: Pixels, number: u64) -> Result<(), AllocError>
    ensures { OnOk result (text.new.items ≡ text.old.items ++ number_text x y number) }
{
    put(text, "<text class=\"number\"")?;
    put_length(text, "x", x)?;
    put_length(text, "y", y)?;
    put(text, " dy=\"4\">")?;
    put_number(text, u128::from(number) + 1)?;
    put(text, "</text>\n")
}

pub(crate) fn put_mark(
    text: &mut Vec<u8>,
    x: Pixels,
    y: Pixels,
    number: u64,
) -> Result<(), AllocError>
    ensures { OnOk result (text.new.items ≡ text.old.items ++ mark_text x y number) }
{
    put_circle(text, x, y, number)?;
    put_curve_number(text, x, y, number)
}

#[tactic(auto, unfolding(crate::specs::Shapes::sample_text))]
fn put_sample(text: &mut Vec<u8>, number: u64) -> Result<(), AllocError>
    ensures { OnOk result (text.new.items ≡ text.old.items ++ sample_text number) }
{
    put(text, "<path class=\"sample\"")?;
    put_stroke(text, number)?;
    put(text, " d=\"M0,0H60\"/>")?;
    put_mark(text, 30, 0, number)
}

#[tactic(auto, unfolding(crate::specs::Shapes::entry_text))]
pub(crate) fn put_entry(
    text: &mut Vec<u8>,
    x: Pixels,
    y: Pixels,
    number: u64,
    name: &str,
) -> Result<(), AllocError>
    ensures { OnOk result (text.new.items ≡ text.old.items ++ entry_text x y number name.now) }
{
    put(text, "<g transform=\"translate(")?;
    put_pair(text, x, y)?;
    put(text, ")\">")?;
    put_sample(text, number)?;
    put(text, "<text x=\"68\" y=\"4\">")?;
    put_escaped(text, name)?;
    put(text, "</text></g>\n")
}

// ---- the whole

pub(crate) fn put_head(text: &mut Vec<u8>, title: &str, height: Pixels) -> Result<(), AllocError>
    ensures { OnOk result (text.new.items ≡ text.old.items ++ head_text title.now height) }
{
    put(
        text,
        "<svg xmlns=\"http://www.w3.org/2000/svg\" role=\"img\" width=\"1010\"",
    )?;
    put_length(text, "height", height)?;
    put(text, " viewBox=\"0 0 1010 ")?;
    put_number(text, height)?;
    put(
        text,
        "\" font-family=\"sans-serif\" font-size=\"13\">\n<title>",
    )?;
    put_escaped(text, title)?;
    put(text, "</title>\n<style>")?;
    put(text, STYLES)?;
    put(
        text,
        "</style>\n<rect width=\"100%\" height=\"100%\" fill=\"#fff\"/>\n",
    )
}
