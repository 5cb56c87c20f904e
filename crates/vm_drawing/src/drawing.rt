//! What is drawn: charts over one axis, and the curves in them.
ghost use Rattle.std.specs.Prelude.{◌≡◌, ◌≤◌, length, map, option_map, string_bytes};
ghost use Rattle.vm_drawing.specs.Drawing.{banded_curve, level_curve, straight_curve};

use crate::scale::Axis;
use crate::spread::Spread;
use std::marker::Model;

// ---- curves

/// A curve of a chart: a name, a number that is shown from 1, its values, each with its place on the axis, and maybe a band behind it.
#[derive(Drop)]
pub struct Curve {
    number: u64,
    name: String,
    values: Vec<Option<u64>>,
    places: Option<Vec<u64>>,
    band: Option<Vec<Option<Spread>>>,
}

impl Model for Curve {
    ghost use Rattle.std.specs.Prelude.{option_map, string_bytes};
    ghost use Rattle.vm_drawing.specs.Drawing.{Curve};

    ghost Value = { Curve };

    ghost view = { λ c. record {
      number = c.number;
      name = string_bytes c.name;
      values = c.values.items;
      places = option_map (λ v. v.items) c.places;
      band = option_map (λ v. v.items) c.band;
    } };
}

impl Curve {
    /// A curve that is level from each whole place to the next, from the first place of the axis on. It has a gap where there is no
    /// value.
    pub fn level(number: u64, name: String, values: Vec<Option<u64>>) -> Self
        ensures { result ≡ level_curve number (string_bytes name) values.items }
    {
        Curve {
            number,
            name,
            values,
            places: None,
            band: None,
        }
    }

    /// A curve of straight lines from each value to the next, with a gap where there is no value. Each value stands at the place of
    /// the same index.
    pub fn straight(number: u64, name: String, values: Vec<Option<u64>>, places: Vec<u64>) -> Self
        ensures { result ≡ straight_curve number (string_bytes name) values.items places.items }
    {
        Curve {
            number,
            name,
            values,
            places: Some(places),
            band: None,
        }
    }

    /// A curve as of [`Curve::straight`] with a band behind it, in its colour and a fifth as strong: the area from the least to the
    /// greatest of `spreads`, at the places of the same indexes, with straight edges and a gap where there is no spread.
    pub fn banded(
        number: u64,
        name: String,
        values: Vec<Option<u64>>,
        places: Vec<u64>,
        spreads: Vec<Option<Spread>>,
    ) -> Self
        ensures { result ≡ banded_curve number (string_bytes name) values.items places.items spreads.items }
    {
        Curve {
            number,
            name,
            values,
            places: Some(places),
            band: Some(spreads),
        }
    }

    pub(crate) fn number(&self) -> u64
        ensures { result ≡ self.now.number }
    {
        self.number
    }

    pub(crate) fn name(&self) -> &str
        ensures { result.now ≡ self.now.name }
    {
        self.name.as_str()
    }

    pub(crate) fn values(&self) -> &[Option<u64>]
        ensures { result.now ≡ self.now.values }
    {
        self.values.as_slice()
    }

    pub(crate) fn places(&self) -> Option<&[u64]>
        ensures { option_map (λ places. places.now) result ≡ self.now.places }
    {
        self.places.as_ref().map(|places| places.as_slice())
    }

    pub(crate) fn band(&self) -> Option<&[Option<Spread>]>
        ensures { option_map (λ spreads. spreads.now) result ≡ self.now.band }
    {
        self.band.as_ref().map(|spreads| spreads.as_slice())
    }
}

// ---- charts

/// A chart: its title, what its values count, and its curves.
#[derive(Drop)]
pub struct Chart {
    title: String,
    unit: String,
    words: Vec<String>,
    curves: Vec<Curve>,
    is_keyed: bool,
}

impl Model for Chart {
    ghost use Rattle.std.specs.Prelude.{◌≤◌, length, map, string_bytes};
    ghost use Rattle.vm_drawing.specs.Drawing.{Chart};

    ghost Value = { Chart };

    ghost view = { λ c. record {
      title = string_bytes c.title;
      unit = string_bytes c.unit;
      words = map string_bytes c.words.items;
      curves = c.curves.items;
      is_keyed = c.is_keyed;
    } };

    ghost invariant = { λ c. length c.words.items ≤ 100 };
}

impl Chart {
    /// A chart of these curves. Its values are numbers where there are no `words`, and else they are shown as these, from 0 up.
    /// Where it `is_keyed`, its curves have marks with their numbers, and a legend.
    pub fn new(
        title: String,
        unit: String,
        words: Vec<String>,
        curves: Vec<Curve>,
        is_keyed: bool,
    ) -> Self
        requires few { length words.items ≤ 100 }
        ensures { result ≡ record {
          title = string_bytes title;
          unit = string_bytes unit;
          words = map string_bytes words.items;
          curves = curves.items;
          is_keyed = is_keyed;
        } }
    {
        Chart {
            title,
            unit,
            words,
            curves,
            is_keyed,
        }
    }

    pub(crate) fn title(&self) -> &str
        ensures { result.now ≡ self.now.title }
    {
        self.title.as_str()
    }

    pub(crate) fn unit(&self) -> &str
        ensures { result.now ≡ self.now.unit }
    {
        self.unit.as_str()
    }

    pub(crate) fn words(&self) -> &[String]
        ensures value { map string_bytes result.now ≡ self.now.words }
        ensures few { length result.now ≤ 100 }
    {
        self.words.as_slice()
    }

    pub(crate) fn curves(&self) -> &[Curve]
        ensures { result.now ≡ self.now.curves }
    {
        self.curves.as_slice()
    }

    pub(crate) fn is_keyed(&self) -> bool
        ensures { result ≡ self.now.is_keyed }
    {
        self.is_keyed
    }
}

// ---- drawings

/// Charts below each other, over one axis.
#[derive(Drop)]
pub struct Drawing {
    title: String,
    note: String,
    along: String,
    axis: Axis,
    charts: Vec<Chart>,
}

impl Model for Drawing {
    ghost use Rattle.std.specs.Prelude.{◌≤◌, length, string_bytes};
    ghost use Rattle.vm_drawing.specs.Drawing.{Drawing};

    ghost Value = { Drawing };

    ghost view = { λ d. record {
      title = string_bytes d.title;
      note = string_bytes d.note;
      along = string_bytes d.along;
      axis = d.axis;
      charts = d.charts.items;
    } };

    ghost invariant = { λ d. length d.charts.items ≤ 1000 };
}

impl Drawing {
    /// A drawing of these charts, with its title and what else is said of it. `along` is what the places of the axis are.
    pub fn new(title: String, note: String, along: String, axis: Axis, charts: Vec<Chart>) -> Self
        requires few { length charts.items ≤ 1000 }
        ensures { result ≡ record {
          title = string_bytes title;
          note = string_bytes note;
          along = string_bytes along;
          axis = axis;
          charts = charts.items;
        } }
    {
        Drawing {
            title,
            note,
            along,
            axis,
            charts,
        }
    }

    pub(crate) fn title(&self) -> &str
        ensures { result.now ≡ self.now.title }
    {
        self.title.as_str()
    }

    pub(crate) fn note(&self) -> &str
        ensures { result.now ≡ self.now.note }
    {
        self.note.as_str()
    }

    pub(crate) fn along(&self) -> &str
        ensures { result.now ≡ self.now.along }
    {
        self.along.as_str()
    }

    pub(crate) fn axis(&self) -> Axis
        ensures { result ≡ self.now.axis }
    {
        self.axis
    }

    pub(crate) fn charts(&self) -> &[Chart]
        ensures value { result.now ≡ self.now.charts }
        ensures few { length result.now ≤ 1000 }
    {
        self.charts.as_slice()
    }
}
