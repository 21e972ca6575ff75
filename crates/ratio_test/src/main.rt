// The verdict on a list by the distances, the radius and the factors alone, and the check of the settings. Each line of the
// output has a case's name and the verdict, or the refusal's number with its index in brackets. Where a case parts the
// specification from another reading, its comment names that. Some cases are of distances that no list has: the verdict is
// that of the definition there too.
//
// The expected output was worked out apart from the code, the products as exact fractions that are rounded once. The
// original has no such call.
#![tactic(auto)]

use printing::values::{LARGEST, SMALLEST, infinity, nan};
use printing::{newline, verdict, word};
use ratio::settings::settings_check;
use ratio::{Ratio, ratio_of};
use refusals::Refusal;

fn say_ratio(said: Ratio) {
    match said {
        Ratio::Holds => word(b" holds"),
        Ratio::Fails => word(b" fails"),
        Ratio::Open => word(b" open"),
        Ratio::None => word(b" none"),
    }
}

fn say(name: &[u8], answer: Result<Ratio, Refusal>) {
    word(name);
    match answer {
        Ok(said) => say_ratio(said),
        Err(e) => verdict(Err(e)),
    }
    newline();
}

fn alone(name: &[u8], d1: f64, radius: f64) {
    let distances = [d1];
    say(name, ratio_of(&distances, radius, 3, 1));
}

fn two(name: &[u8], d1: f64, d2: f64, radius: f64) {
    let distances = [d1, d2];
    say(name, ratio_of(&distances, radius, 3, 1));
}

// Two distances by these factors; the radius is a NaN, which must not be read.
fn by(name: &[u8], p: u64, q: u64, d1: f64, d2: f64) {
    let distances = [d1, d2];
    say(name, ratio_of(&distances, nan(), p, q));
}

// A lone point that always holds; a test that is strict, or without the 3, or of d1 in place of the radius.
fn lone_points() {
    alone(b"B:", 0.25, 0.25);
    alone(b"at three times d1:", 0.25, 0.75);
    alone(b"below it:", 0.25, 0.7499999999999999);
    alone(b"above it:", 0.25, 0.7500000000000001);
    alone(b"far above:", 0.25, LARGEST);
}

// The product is rounded once: 3·d1 is exactly half-way between two doubles and rounds down at 3FF0000000000003, so an exact
// product is above the radius. A quotient, radius/d1 or radius/3, says open at 3FF8000000000006 and holds at 3FF0000000000001.
fn rounded_once() {
    alone(b"rounded:", 1.0000000000000007, 3.0000000000000018);
    alone(b"next below:", 1.0000000000000007, 3.0000000000000013);
    alone(b"product:", 1.5000000000000013, 4.5000000000000036);
    alone(b"quotient:", 1.0000000000000002, 3.0000000000000004);
    alone(b"smallest:", SMALLEST, 1.5e-323);
    alone(b"smallest, below:", SMALLEST, 1e-323);
}

// 3·d1 is infinite: nothing reaches it, not even what is infinite itself.
fn overflow() {
    alone(b"largest without:", 5.992310449541052e307, LARGEST);
    alone(b"overflow:", 5.992310449541053e307, LARGEST);
    two(b"overflow, two:", LARGEST, LARGEST, LARGEST);
    alone(b"infinite radius:", LARGEST, infinity());
    two(b"both infinite:", infinity(), infinity(), 1.0);
}

// 0 ≥ 3·0, whatever comes after.
fn zeros() {
    alone(b"zero:", 0.0, 0.0);
    alone(b"minus zero:", 0.0, -0.0);
    two(b"two zeros:", 0.0, 0.0, 0.0);
    two(b"zero first:", 0.0, SMALLEST, 0.0);
}

// With two points or more the second decides, not the radius, the third or the last.
fn two_or_more() {
    two(b"G:", 0.25, 0.5, 2.0);
    two(b"d2 at three times d1:", 0.25, 0.75, 2.0);
    two(b"d2 below it:", 0.25, 0.7499999999999999, 2.0);
    two(b"d2 rounded:", 1.0000000000000007, 3.0000000000000018, 4.0);
    two(
        b"d2 next below:",
        1.0000000000000007,
        3.0000000000000013,
        4.0,
    );
    two(b"equal:", 0.25, 0.25, 0.25);
    let three = [1.0, 2.0, 3.0];
    say(b"third at three times d1:", ratio_of(&three, 4.0, 3, 1));
    let none = [0.0; 0];
    say(b"no distance:", ratio_of(&none, 4.0, 3, 1));
    say(b"no distance, p 0:", ratio_of(&none, 4.0, 0, 0));
}

// A NaN passes no test.
fn beyond_lists() {
    alone(b"nan:", nan(), 1.0);
    alone(b"nan radius:", 0.0, nan());
    two(b"nan second:", 1.0, nan(), 9.0);
    two(b"out of order:", 2.0, 1.0, 9.0);
    two(b"negative:", -1.0, -2.0, 9.0);
}

// Each product is rounded by itself, once. Other readings say the opposite: d2 ≥ (p/q)·d1 of the first, d2 ≥ p·d1/q of the
// second, d2/d1 ≥ p/q of the third; sums in place of products of the next two; and of the sixth that inf ≥ inf.
fn products() {
    by(
        b"d2 below (p/q) d1:",
        5,
        3,
        1.6832742417494195,
        2.8054570695823657,
    );
    by(
        b"d2 at p d1/q:",
        5,
        3,
        1.2939915416849752,
        2.1566525694749585,
    );
    by(
        b"d2/d1 below p/q:",
        3,
        2,
        1.343697911347522,
        2.015546867021283,
    );
    by(b"sum of ten:", 10, 1, 0.1, 0.9999999999999999);
    by(b"sum of sixteen:", 16, 10, 0.0625, 0.1);
    by(b"both overflow:", 5, 5, LARGEST, LARGEST);
    by(b"only q d2 overflows:", 1000, 1000, 1.0, LARGEST);
    by(b"equal at p = q:", 1000, 1000, 0.25, 0.25);
    by(b"equal at q = p - 1:", 1000, 999, 0.25, 0.25);
    by(b"p and q exchanged:", 3, 2, 0.25, 0.3);
    let lone = [0.0625];
    say(b"q of a lone point:", ratio_of(&lone, 0.1, 16, 10));
}

// 21 of the call: index 0 where p is out of range or below q, whatever q is, then 1.
fn factors() {
    by(b"p 1, q 1:", 1, 1, 0.25, 0.25);
    by(b"p 0:", 0, 0, 0.25, 0.25);
    by(b"p 1001:", 1001, 1, 0.25, 0.25);
    by(b"p 2^64-1:", u64::MAX, 1, 0.25, 0.25);
    by(b"p below q:", 2, 3, 0.25, 0.25);
    by(b"q 1001 above p:", 1000, 1001, 0.25, 0.25);
    by(b"q 2000 above p:", 5, 2000, 0.25, 0.25);
    by(b"q 0:", 5, 0, 0.25, 0.25);
    by(b"both 1001:", 1001, 1001, 0.25, 0.25);
}

fn settings(name: &[u8], p: u64, q: u64, places: u64) {
    word(name);
    verdict(settings_check(p, q, places));
    newline();
}

// 21 of a job: the factors go before the places.
fn places() {
    settings(b"default:", 3, 1, 256);
    settings(b"one place:", 3, 1, 1);
    settings(b"no place:", 3, 1, 0);
    settings(b"257 places:", 3, 1, 257);
    settings(b"2^64-1 places:", 3, 1, u64::MAX);
    settings(b"q 0, no place:", 3, 0, 0);
    settings(b"p 0, no place:", 0, 0, 0);
}

fn main() {
    lone_points();
    rounded_once();
    overflow();
    zeros();
    two_or_more();
    beyond_lists();
    products();
    factors();
    places();
}
