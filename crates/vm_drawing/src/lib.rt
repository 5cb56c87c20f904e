//! Charts over one axis, as one SVG (Scalable Vector Graphics 1.1).
//!
//! [`draw`] draws a [`Drawing`]: charts below each other, with curves that are level between whole places, or straight from each value to
//! the next, and bands behind straight ones. Its clause fixes the text to its last byte: it is `svg_of` of `specs/Picture.antt`, where each word, line, curve and mark
//! has its place.
//!
//! **Proved**, for every drawing: the text is `svg_of`, to its last byte ([`draw`]). A curve is level in an epoch, or straight from
//! each value to the next; a straight one may have a band behind it, from a least to a greatest value at each place
//! (`specs/Bands.antt`). In names `<`, `>`, `&` and `"` become entities, and control characters spaces (`escaped`). The step of a
//! scale, and of the ticks of an axis, is the least round number that is great enough, a power of ten or twice or five times one,
//! for values up to 5 * 10^18 ([`law_round`]: `IsLeastRound`). No chart reaches into another's room, and no value of a curve or a
//! band leaves its chart up or down, where a chart with words has one for each of its values ([`law_stacked`]). Of words that stand
//! upright that is said of their middle; of what stands side by side nothing is.
//!
//! **Only tested**: that the calls succeed where memory is there; that the definition draws what is meant, by curves, scales,
//! marks, legends and one band that were worked out by hand; `tools/redraw` draws by a reading of its own. **Not claimed**: speed.
#![tactic(auto)]

mod area;
mod bands;
mod counts;
mod drawing;
mod law;
mod page;
mod picture;
mod scale;
mod spread;
mod texts;
mod values;

pub use counts::counted;
pub use drawing::{Chart, Curve, Drawing};
pub use law::{law_round, law_stacked};
pub use page::page_words;
pub use picture::draw;
pub use scale::Axis;
pub use spread::Spread;
