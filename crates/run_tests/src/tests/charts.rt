// Charts whose curves are straight: their places are worked out by hand.
use std::process::Abort;
use vm_drawing::{Axis, Chart, Curve, Drawing, Spread, draw};

// Asserts that a piece stands in a drawing.
pub(super) fn assert_shows(rt: &impl Abort, svg: &String, piece: &str) {
    assert!(rt; svg.as_str().contains(piece), "{piece}");
}

// Asserts how often a piece stands in a drawing.
pub(super) fn assert_count(rt: &impl Abort, svg: &String, piece: &str, wanted: usize) {
    assert_eq!(rt; svg.as_str().matches(piece).count(), wanted, "{piece}");
}

// A curve with a gap, of values at the places 10, 15, 20 and 30.
fn straight_curve(rt: &(impl Abort + AllocGlobal)) -> Curve {
    let values = Vec::from_slice(rt.alloc(), &[Some(4), Some(0), None, Some(8)]).expect(
        rt, "memory",
    );
    let places = Vec::from_slice(rt.alloc(), &[10, 15, 20, 30]).expect(rt, "memory");
    Curve::straight(0, words(rt, "tax 0"), values, places)
}

fn words(rt: &(impl Abort + AllocGlobal), text: &str) -> String {
    String::from_str(rt.alloc(), text).expect(rt, "memory")
}

// A curve with the same gap in it and in its band, of values at the places 10, 14, 20, 24 and 30.
fn banded_curve(rt: &(impl Abort + AllocGlobal)) -> Curve {
    let values = [Some(2), Some(4), None, Some(1), Some(3)];
    let places = [10, 14, 20, 24, 30];
    let spreads = [
        spread(1, 6),
        spread(3, 10),
        None,
        spread(0, 2),
        spread(2, 5),
    ];
    let values = Vec::from_slice(rt.alloc(), &values).expect(rt, "memory");
    let places = Vec::from_slice(rt.alloc(), &places).expect(rt, "memory");
    let spreads = Vec::from_slice(rt.alloc(), &spreads).expect(rt, "memory");
    Curve::banded(1, words(rt, "tax 75"), values, places, spreads)
}

fn spread(least: u64, greatest: u64) -> Option<Spread> {
    Some(Spread { least, greatest })
}

// A drawing of one chart.
fn drawing_of(rt: &(impl Abort + AllocGlobal), curves: Vec<Curve>) -> Drawing {
    let levels = Vec::new(rt.alloc());
    let chart = Chart::new(words(rt, "Pages"), words(rt, "pages"), levels, curves, true);
    let mut charts = Vec::new(rt.alloc());
    charts.push(chart).expect(rt, "memory");
    let axis = Axis {
        first: 10,
        last: 30,
        is_open: false,
    };
    let note = words(rt, "of machines");
    Drawing::new(
        words(rt, "A sweep"),
        note,
        words(rt, "frames"),
        axis,
        charts,
    )
}

fn drawn(rt: &(impl Abort + AllocGlobal), curves: Vec<Curve>) -> String {
    let drawing = drawing_of(rt, curves);
    let text = draw(rt.alloc(), &drawing).expect(rt, "memory");
    String::from_utf8(text).expect(rt, "a text")
}

// The scale ends at 8, and the axis has a tick at its end too; the marks stand at the values.
#[test]
fn straight_curves_join_their_values(rt: HostRuntime) {
    let curves = Vec::from_array(rt.alloc(), [straight_curve(&rt)]).expect(&rt, "memory");
    let svg = drawn(&rt, curves);
    let pieces = [
        "width=\"1010\" height=\"382\"",
        " d=\"M0,100L220,0M880,200\"><title>tax 0</title>",
        "<path class=\"tick\" d=\"M970,304v6\"/>\n<text class=\"middle\" x=\"970\" y=\"324\">30</text>",
        "cx=\"310\" cy=\"304\" r=\"8\"/>",
        "cx=\"970\" cy=\"104\" r=\"8\"/>",
        ">frames</text>",
    ];
    for piece in pieces {
        assert_shows(&rt, &svg, piece);
    }
    assert_count(&rt, &svg, "class=\"tick\"", 11);
}

// The scale ends at 10, which only the band reaches. The band stands before both curves: in each of its two parts it goes right along the
// greatest values and left along the least.
#[test]
fn bands_lie_behind_all_curves(rt: HostRuntime) {
    let curves = [straight_curve(&rt), banded_curve(&rt)];
    let curves = Vec::from_array(rt.alloc(), curves).expect(&rt, "memory");
    let svg = drawn(&rt, curves);
    let paths =
        "<path class=\"band\" transform=\"translate(90,304) scale(1,-1)\" fill=\"#E69F00\" fill-opacity=\"0.2\" \
d=\"M0,120L176,200L176,60L0,20ZM616,40L880,100L880,40L616,0Z\"><title>tax 75</title></path>
<path class=\"curve\" transform=\"translate(90,304) scale(1,-1)\" stroke=\"#000000\" stroke-dasharray=\"none\" \
d=\"M0,80L220,0M880,160\"><title>tax 0</title></path>
<path class=\"curve\" transform=\"translate(90,304) scale(1,-1)\" stroke=\"#E69F00\" stroke-dasharray=\"9 4\" \
d=\"M0,40L176,80M616,20L880,60\"><title>tax 75</title></path>
";
    assert_shows(&rt, &svg, paths);
    assert_shows(
        &rt,
        &svg,
        "<path class=\"grid\" d=\"M90,104H970\"/>\n<text class=\"end\" x=\"82\" y=\"108\">10</text>",
    );
    assert_count(&rt, &svg, "class=\"band\"", 1);
}
