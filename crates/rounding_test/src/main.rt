// What the functions of `rounding` give at ties, at the ends of their domains, and at zeros, infinities and NaN. Each
// line of the output has the answers of one function to the calls below, in their order. A double is written as the 16
// hexadecimal digits of its bits.
#![tactic(auto)]

use printing::values::*;
use printing::{double, integer, newline, truth, word};
use std::cmp::Ordering;

fn round(v: f64) {
    integer(rounding::round_away(v));
}

fn convert(n: i64) {
    double(rounding::to_double(n));
}

fn finite(x: f64) {
    truth(rounding::is_finite(x));
}

fn magnitude(x: f64) {
    double(rounding::magnitude(x));
}

fn larger(x: f64, y: f64) {
    double(rounding::max(x, y));
}

fn precedes(x: f64, y: f64) {
    truth(rounding::precedes(x, y));
}

fn compare(x: f64, y: f64) {
    match rounding::total_cmp(x, y) {
        Ordering::Less => word(b" less"),
        Ordering::Equal => word(b" equal"),
        Ordering::Greater => word(b" greater"),
    }
}

fn roundings() {
    // cutting gives 0 at 0.5, floor(v + 0.5) gives 1 below it and 0 at -0.5, half to even gives 2 at 2.5
    word(b"round_away:");
    round(0.25);
    round(0.49999999999999994);
    round(0.5);
    round(0.75);
    round(1.4999999999999998);
    round(1.5);
    round(2.5);
    round(3.5);
    round(-0.25);
    round(-0.49999999999999994);
    round(-0.5);
    round(-0.75);
    round(-1.4999999999999998);
    round(-1.5);
    round(-2.5);
    round(-3.5);
    // the last halves are below 2^52; above it v + 0.5 is rounded to even. 4503599627370497.5 is no double: it is
    // read as 4503599627370498
    word(b"\nround_away:");
    round(2251799813685248.5);
    round(4503599627370494.5);
    round(4503599627370495.5);
    round(4503599627370497.0);
    round(4503599627370497.5);
    round(9007199254740991.0);
    round(9007199254740994.0);
    round(4611686018427388928.0);
    round(-2251799813685248.5);
    round(-4503599627370494.5);
    round(-4503599627370495.5);
    round(-4503599627370497.0);
    round(-4503599627370497.5);
    round(-9007199254740991.0);
    round(-9007199254740994.0);
    round(-4611686018427388928.0);
    // the ends of i64, past them, and what is no number or next to 0
    word(b"\nround_away:");
    round(9223372036854774784.0);
    round(9223372036854775808.0);
    round(9223372036854777856.0);
    round(LARGEST);
    round(infinity());
    round(-9223372036854774784.0);
    round(-9223372036854775808.0);
    round(-9223372036854777856.0);
    round(-LARGEST);
    round(-infinity());
    round(nan());
    round(0.0);
    round(-0.0);
    round(SMALLEST);
    round(-SMALLEST);
    newline();
}

fn conversions() {
    word(b"to_double:");
    convert(0);
    convert(1);
    convert(-1);
    convert(9007199254740991);
    convert(9007199254740992);
    convert(-9007199254740991);
    convert(-9007199254740992);
    convert(4611686018427387904);
    convert(-4611686018427387904);
    // past 2^53: ties to the even double, up and down, and next to ties
    word(b"\nto_double:");
    convert(9007199254740993);
    convert(9007199254740995);
    convert(18014398509481986);
    convert(18014398509481987);
    convert(18014398509481990);
    convert(4611686018427388416);
    convert(4611686018427388417);
    convert(4611686018427389439);
    convert(4611686018427389440);
    convert(9223372036854775295);
    convert(9223372036854775296);
    convert(-9007199254740993);
    convert(-9007199254740995);
    convert(-18014398509481986);
    convert(-18014398509481987);
    convert(-18014398509481990);
    convert(-4611686018427388416);
    convert(-4611686018427388417);
    convert(-4611686018427389439);
    convert(-4611686018427389440);
    convert(-9223372036854775295);
    convert(-9223372036854775296);
    convert(i64::MAX);
    convert(i64::MIN);
    newline();
}

fn finite_and_magnitude() {
    word(b"is_finite:");
    finite(0.0);
    finite(-0.0);
    finite(1.5);
    finite(-1.5);
    finite(LARGEST);
    finite(-LARGEST);
    finite(SMALLEST);
    finite(-SMALLEST);
    finite(infinity());
    finite(-infinity());
    finite(nan());
    word(b"\nmagnitude:");
    magnitude(0.0);
    magnitude(-0.0);
    magnitude(1.5);
    magnitude(-1.5);
    magnitude(LARGEST);
    magnitude(-LARGEST);
    magnitude(SMALLEST);
    magnitude(-SMALLEST);
    magnitude(infinity());
    magnitude(-infinity());
    magnitude(nan());
    newline();
}

fn larger_ones() {
    word(b"max:");
    larger(1.5, 2.5);
    larger(2.5, 1.5);
    larger(-1.5, -2.5);
    larger(0.0, -0.0);
    larger(-0.0, 0.0);
    larger(SMALLEST, 0.0);
    larger(LARGEST, infinity());
    larger(-infinity(), -LARGEST);
    larger(nan(), 1.5);
    larger(1.5, nan());
    larger(nan(), -infinity());
    larger(nan(), nan());
    newline();
}

fn precedences() {
    word(b"precedes:");
    precedes(1.5, 2.5);
    precedes(2.5, 1.5);
    precedes(1.5, 1.5);
    precedes(-1.5, 1.5);
    precedes(0.0, -0.0);
    precedes(-0.0, 0.0);
    precedes(0.0, 0.0);
    precedes(-0.0, -0.0);
    precedes(SMALLEST, 0.0);
    precedes(-SMALLEST, -0.0);
    precedes(LARGEST, infinity());
    precedes(-infinity(), -LARGEST);
    precedes(-infinity(), infinity());
    precedes(infinity(), infinity());
    precedes(nan(), 1.5);
    precedes(1.5, nan());
    precedes(infinity(), nan());
    precedes(nan(), -infinity());
    precedes(nan(), nan());
    newline();
}

fn comparisons() {
    word(b"total_cmp:");
    compare(1.5, 2.5);
    compare(2.5, 1.5);
    compare(1.5, 1.5);
    compare(-1.5, 1.5);
    compare(0.0, -0.0);
    compare(-0.0, 0.0);
    compare(0.0, 0.0);
    compare(-0.0, -0.0);
    compare(SMALLEST, 0.0);
    compare(-SMALLEST, -0.0);
    compare(LARGEST, infinity());
    compare(-infinity(), -LARGEST);
    compare(-infinity(), infinity());
    compare(infinity(), infinity());
    compare(nan(), 1.5);
    compare(1.5, nan());
    compare(infinity(), nan());
    compare(nan(), -infinity());
    compare(nan(), nan());
    newline();
}

fn main() {
    roundings();
    conversions();
    finite_and_magnitude();
    larger_ones();
    precedences();
    comparisons();
}
