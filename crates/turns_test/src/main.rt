// What `turn` tells and leaves. Each line of a turn has a case's name, the name served and the n of its search, then `found`,
// the nodes and the point's distance, as the 16 hexadecimal digits of its bits, or the refusal's number with what it carries
// in brackets, then the name last served and the output at exit, in square brackets. A line of names has for each of them
// the n of the search that it holds, or `-`. Where a case parts the specification from another reading, its comment names
// that.
#![tactic(auto)]

use enumerate::NearestPoint;
use kept::{nearest_named, pick_up};
use printing::values::*;
use refusals::Refusal;
use turns::TurnAnswer;

// The largest slice.
const LARGEST: u64 = 1048576;

// 2^60.
const MOST: u64 = 1152921504606846976;

const EVERY: u64 = 18446744073709551615;

// ---- the calls

fn told(t: TurnAnswer, last: u64, out: &[i64]) {
    printing::count(t.name);
    printing::count(t.n);
    match t.answer {
        Ok(point) => printing::found(point.nodes, point.distance),
        Err(e) => printing::verdict(Err(e)),
    }
    printing::word(b", last");
    printing::count(last);
    printing::integers(out);
    printing::newline();
}

// A turn with an output of this length.
fn turn_of(
    case: &[u8],
    reals: &mut [f64],
    integers: &mut [i64],
    counts: &mut [u64],
    last: &mut u64,
    out: &mut [i64],
    slice: u64,
) {
    printing::word(case);
    let t = turns::turn(reals, integers, counts, last, out, slice);
    told(t, *last, out);
}

fn turn(
    case: &[u8],
    reals: &mut [f64],
    integers: &mut [i64],
    counts: &mut [u64],
    last: &mut u64,
    slice: u64,
) {
    let mut out = [7; 23];
    turn_of(case, reals, integers, counts, last, &mut out, slice);
}

fn four_turns(
    case: &[u8],
    reals: &mut [f64],
    integers: &mut [i64],
    counts: &mut [u64],
    last: &mut u64,
    slice: u64,
) {
    for _ in 0..4 {
        turn(case, reals, integers, counts, last, slice);
    }
}

// What a named call or a pickup answers is shown by `kept_test`; here 15 alone is meant.
fn kept_so(a: Result<NearestPoint, Refusal>) {
    if a.is_ok() {
        printing::word(b"found\n");
    }
}

// Two levels are kept under a name.
fn two(
    reals: &mut [f64],
    integers: &mut [i64],
    counts: &mut [u64],
    name: u64,
    entry: f64,
    target: [f64; 2],
    radius: f64,
    budget: u64,
) {
    let weights = [1.0, 1.0];
    let mu = mu_of_two(entry);
    let mut out = [7, -8];
    kept_so(nearest_named(
        reals, integers, counts, name, &weights, &mu, &target, &mut out, radius, budget,
    ));
}

// Case G is kept under a name, by a budget of 2. It needs 3 nodes more.
fn g(reals: &mut [f64], integers: &mut [i64], counts: &mut [u64], name: u64) {
    two(reals, integers, counts, name, 0.5, [0.25, 0.5], 2.0, 2);
}

// A search that has a node and no point.
fn outside(reals: &mut [f64], integers: &mut [i64], counts: &mut [u64], name: u64) {
    two(reals, integers, counts, name, 0.0, [0.5, 0.25], 0.125, 0);
}

// One level is kept under a name, by a budget of 0.
fn one(reals: &mut [f64], integers: &mut [i64], counts: &mut [u64], name: u64) {
    let weights = [1.0];
    let mu = [0.0];
    let targets = [0.4];
    let mut out = [7];
    kept_so(nearest_named(
        reals, integers, counts, name, &weights, &mu, &targets, &mut out, 1.0, 0,
    ));
}

// 23 levels are kept under a name, by a budget of 22.
fn of_23(reals: &mut [f64], integers: &mut [i64], counts: &mut [u64], name: u64) {
    let mut weights = [1.0; 23];
    weights[0] = 0.3;
    weights[7] = 2.5;
    weights[15] = 0.7;
    weights[22] = 1.9;
    let mu = mu_of_23();
    let mut target = [0.2; 23];
    target[1] = -0.3;
    target[5] = 1.9;
    target[13] = -1.2;
    target[22] = 0.4;
    let mut out = [7; 23];
    kept_so(nearest_named(
        reals, integers, counts, name, &weights, &mu, &target, &mut out, 3.35, 22,
    ));
}

// G under every name.
fn all_names(reals: &mut [f64], integers: &mut [i64], counts: &mut [u64]) {
    for name in 1..=8 {
        g(reals, integers, counts, name);
    }
}

// ---- what a block holds

fn dimension(e: Refusal) {
    if let Refusal::LengthMismatch(n, _) = e {
        printing::count(n as u64);
        return;
    }
    printing::word(b" -");
}

// The n of the search that a name holds, or `-`: a pickup with an output of 24 places is refused by 6 or 26.
fn held(reals: &mut [f64], integers: &mut [i64], counts: &mut [u64], name: u64) {
    let mut out = [7; 24];
    match pick_up(reals, integers, counts, name, &mut out, 0) {
        Ok(_) => printing::word(b" found"),
        Err(e) => dimension(e),
    }
}

fn names(case: &[u8], reals: &mut [f64], integers: &mut [i64], counts: &mut [u64]) {
    printing::word(case);
    for name in 1..=8 {
        held(reals, integers, counts, name);
    }
    printing::newline();
}

// ---- the name that is served

// Other readings: the lowest name first; a round that begins again at 1 after an end; 8 left out.
fn every_name() {
    let mut reals = [0.0; 5168];
    let mut integers = [0; 736];
    let mut counts = [0; 768];
    let mut last = 0;
    all_names(&mut reals, &mut integers, &mut counts);
    four_turns(
        b"8 names, 3:",
        &mut reals,
        &mut integers,
        &mut counts,
        &mut last,
        3,
    );
    names(b"left:", &mut reals, &mut integers, &mut counts);
    four_turns(
        b"8 names, 3:",
        &mut reals,
        &mut integers,
        &mut counts,
        &mut last,
        3,
    );
    turn(
        b"none left:",
        &mut reals,
        &mut integers,
        &mut counts,
        &mut last,
        3,
    );
    all_names(&mut reals, &mut integers, &mut counts);
    four_turns(
        b"8 names, 2:",
        &mut reals,
        &mut integers,
        &mut counts,
        &mut last,
        2,
    );
    four_turns(
        b"8 names, 2:",
        &mut reals,
        &mut integers,
        &mut counts,
        &mut last,
        2,
    );
    names(b"left:", &mut reals, &mut integers, &mut counts);
    four_turns(
        b"8 names, 2:",
        &mut reals,
        &mut integers,
        &mut counts,
        &mut last,
        2,
    );
    four_turns(
        b"8 names, 2:",
        &mut reals,
        &mut integers,
        &mut counts,
        &mut last,
        2,
    );
    names(b"left:", &mut reals, &mut integers, &mut counts);
}

// Other readings: a name that was filled again is served before those that wait; the name last served forgotten when its
// search ends, or moved by a pickup.
fn in_turns() {
    let mut reals = [0.0; 5168];
    let mut integers = [0; 736];
    let mut counts = [0; 768];
    let mut last = 0;
    g(&mut reals, &mut integers, &mut counts, 2);
    g(&mut reals, &mut integers, &mut counts, 5);
    four_turns(
        b"2 and 5, 1:",
        &mut reals,
        &mut integers,
        &mut counts,
        &mut last,
        1,
    );
    turn(
        b"2 ends:",
        &mut reals,
        &mut integers,
        &mut counts,
        &mut last,
        1,
    );
    g(&mut reals, &mut integers, &mut counts, 2);
    turn(
        b"2 filled again:",
        &mut reals,
        &mut integers,
        &mut counts,
        &mut last,
        1,
    );
    turn(
        b"2 alone:",
        &mut reals,
        &mut integers,
        &mut counts,
        &mut last,
        1,
    );
    turn(
        b"2 alone, again:",
        &mut reals,
        &mut integers,
        &mut counts,
        &mut last,
        1,
    );
    g(&mut reals, &mut integers, &mut counts, 1);
    g(&mut reals, &mut integers, &mut counts, 3);
    let mut out = [7, -8];
    kept_so(pick_up(&mut reals, &mut integers, &mut counts, 3, &mut out, 1));
    turn(
        b"3 picked up, 1 to 3 held:",
        &mut reals,
        &mut integers,
        &mut counts,
        &mut last,
        1,
    );
    names(b"left:", &mut reals, &mut integers, &mut counts);
}

// A number that is no name stands for 8.
fn before_the_first() {
    let mut reals = [0.0; 5168];
    let mut integers = [0; 736];
    let mut counts = [0; 768];
    all_names(&mut reals, &mut integers, &mut counts);
    let mut last = 0;
    turn(
        b"after 0:",
        &mut reals,
        &mut integers,
        &mut counts,
        &mut last,
        1,
    );
    last = 8;
    turn(
        b"after 8:",
        &mut reals,
        &mut integers,
        &mut counts,
        &mut last,
        1,
    );
    last = 9;
    turn(
        b"after 9:",
        &mut reals,
        &mut integers,
        &mut counts,
        &mut last,
        1,
    );
    last = EVERY;
    turn(
        b"after 2^64 - 1:",
        &mut reals,
        &mut integers,
        &mut counts,
        &mut last,
        1,
    );
    last = 7;
    turn(
        b"after 7:",
        &mut reals,
        &mut integers,
        &mut counts,
        &mut last,
        1,
    );
}

// ---- the search that is served

// Other readings: more or fewer places than n are written; n is 23; 16 leaves its name held, or the last name.
fn dimensions() {
    let mut reals = [0.0; 5168];
    let mut integers = [0; 736];
    let mut counts = [0; 768];
    let mut last = 0;
    one(&mut reals, &mut integers, &mut counts, 1);
    of_23(&mut reals, &mut integers, &mut counts, 4);
    outside(&mut reals, &mut integers, &mut counts, 8);
    names(b"n = 1, 23, 2:", &mut reals, &mut integers, &mut counts);
    four_turns(
        b"n = 1, 23, 2:",
        &mut reals,
        &mut integers,
        &mut counts,
        &mut last,
        2,
    );
    names(b"left:", &mut reals, &mut integers, &mut counts);
    turn(
        b"n = 23:",
        &mut reals,
        &mut integers,
        &mut counts,
        &mut last,
        LARGEST,
    );
    names(b"left:", &mut reals, &mut integers, &mut counts);
}

// Other readings: 27 at the limit, or 15 without the count; 2^60 not served; the name kept.
fn limit() {
    let mut reals = [0.0; 5168];
    let mut integers = [0; 736];
    let mut counts = [0; 768];
    let mut last = 0;
    g(&mut reals, &mut integers, &mut counts, 2);
    g(&mut reals, &mut integers, &mut counts, 3);
    counts[97] = MOST - 3;
    counts[193] = MOST - 2;
    turn(
        b"2^60:",
        &mut reals,
        &mut integers,
        &mut counts,
        &mut last,
        3,
    );
    turn(
        b"2^60 + 1:",
        &mut reals,
        &mut integers,
        &mut counts,
        &mut last,
        3,
    );
    names(b"left:", &mut reals, &mut integers, &mut counts);
    g(&mut reals, &mut integers, &mut counts, 2);
    counts[97] = MOST;
    turn(
        b"2^60 and 1:",
        &mut reals,
        &mut integers,
        &mut counts,
        &mut last,
        1,
    );
    turn(
        b"none left:",
        &mut reals,
        &mut integers,
        &mut counts,
        &mut last,
        1,
    );
}

// A part that is not sound is an empty name.
fn unsound() {
    let mut reals = [0.0; 5168];
    let mut integers = [0; 736];
    let mut counts = [0; 768];
    let mut last = 0;
    g(&mut reals, &mut integers, &mut counts, 1);
    g(&mut reals, &mut integers, &mut counts, 2);
    counts[97] = MOST + 1;
    counts[3] = 0;
    turn(
        b"1 and 2 not sound:",
        &mut reals,
        &mut integers,
        &mut counts,
        &mut last,
        3,
    );
    g(&mut reals, &mut integers, &mut counts, 8);
    turn(
        b"8 sound:",
        &mut reals,
        &mut integers,
        &mut counts,
        &mut last,
        3,
    );
}

// ---- the checks in their order: each call below is also wrong for a later one

fn slices() {
    let mut reals = [0.0; 5168];
    let mut integers = [0; 736];
    let mut counts = [0; 768];
    let mut last = 5;
    let mut short = [7; 22];
    let mut few = [0; 1];
    turn_of(
        b"slice 0:",
        &mut reals,
        &mut integers,
        &mut few,
        &mut last,
        &mut short,
        0,
    );
    turn_of(
        b"slice 2^20 + 1:",
        &mut reals,
        &mut integers,
        &mut few,
        &mut last,
        &mut short,
        LARGEST + 1,
    );
    turn_of(
        b"slice 2^64 - 1:",
        &mut reals,
        &mut integers,
        &mut few,
        &mut last,
        &mut short,
        EVERY,
    );
    turn_of(
        b"slice 1:",
        &mut reals,
        &mut integers,
        &mut few,
        &mut last,
        &mut short,
        1,
    );
    turn_of(
        b"slice 2^20:",
        &mut reals,
        &mut integers,
        &mut counts,
        &mut last,
        &mut short,
        LARGEST,
    );
}

fn lengths() {
    let mut reals = [0.0; 5168];
    let mut integers = [0; 736];
    let mut counts = [0; 768];
    let mut last = 5;
    let mut short = [7; 22];
    let mut long = [7; 24];
    let mut none = [7; 0];
    let mut numbers = [0; 1];
    let mut doubles = [0.0; 1];
    turn_of(
        b"doubles first:",
        &mut doubles,
        &mut numbers,
        &mut counts,
        &mut last,
        &mut short,
        1,
    );
    turn_of(
        b"integers next:",
        &mut reals,
        &mut numbers,
        &mut counts,
        &mut last,
        &mut short,
        1,
    );
    turn_of(
        b"29 before 6:",
        &mut reals,
        &mut integers,
        &mut counts,
        &mut last,
        &mut short,
        1,
    );
    g(&mut reals, &mut integers, &mut counts, 3);
    turn_of(
        b"22 places:",
        &mut reals,
        &mut integers,
        &mut counts,
        &mut last,
        &mut short,
        1,
    );
    turn_of(
        b"24 places:",
        &mut reals,
        &mut integers,
        &mut counts,
        &mut last,
        &mut long,
        1,
    );
    turn_of(
        b"0 places:",
        &mut reals,
        &mut integers,
        &mut counts,
        &mut last,
        &mut none,
        1,
    );
    turn(
        b"23 places:",
        &mut reals,
        &mut integers,
        &mut counts,
        &mut last,
        1,
    );
}

fn main() {
    every_name();
    in_turns();
    before_the_first();
    dimensions();
    limit();
    unsound();
    slices();
    lengths();
}
