// What `nearest_seeded` and `nearest_ml` answer and leave in the slice that they are lent. Each line of the output has
// the call, a case's name, then `found`, the node count and the point's distance, as the 16 hexadecimal digits of its
// bits, or the refusal's number with what it carries in brackets, then the slice at exit, in square brackets. Before
// the call it holds what its case gives it, both ends of i64 among it, and so it must after a refusal. Where a case
// parts the specification from another reading, its comment says so.
//
// The expected output of every call that the Rust knows is the Rust's: this program compiled as Rust, with the oracle
// in the place of the crate `seeded` (tools/oracle/examples/seeded_test.rs). The Rust's InvalidRadius is 8, 11, 12 or
// 13 by the specification, its LengthMismatch 6 or 10. The lines of refusals 2 to 5 and 9, which the Rust has not, are
// the specification's.
//
// No case gives refusal 16. Unless n is 0, the candidate's distance is strictly below the widened radius; a vector
// strictly below the radius is admitted, and at n = 0 the empty vector is found.
#![tactic(auto)]

use enumerate::NearestPoint;
use printing::values::*;
use refusals::Refusal;

// The double below the largest.
const SECOND_LARGEST: f64 = 1.7976931348623155e308;

fn answer(a: Result<NearestPoint, Refusal>, out: &[i64]) {
    match a {
        Ok(point) => printing::found(point.nodes, point.distance),
        Err(e) => printing::verdict(Err(e)),
    }
    printing::integers(out);
    printing::newline();
}

fn seeded(
    name: &[u8],
    weights: &[f64],
    mu: &[f64],
    target: &[f64],
    out: &mut [i64],
    candidate: &[i64],
    radius: f64,
    budget: u64,
) {
    printing::word(b"seeded ");
    printing::word(name);
    let a = seeded::nearest_seeded(weights, mu, target, out, candidate, radius, budget);
    answer(a, out);
}

fn seeded_one(name: &[u8], weight: f64, target: f64, candidate: i64, radius: f64, budget: u64) {
    let weights = [weight];
    let mu = [nan()];
    let targets = [target];
    let candidates = [candidate];
    let mut out = [i64::MAX];
    seeded(
        name,
        &weights,
        &mu,
        &targets,
        &mut out,
        &candidates,
        radius,
        budget,
    );
}

fn seeded_two(
    name: &[u8],
    weights: [f64; 2],
    entry: f64,
    target: [f64; 2],
    candidate: [i64; 2],
    radius: f64,
    budget: u64,
) {
    let mu = mu_of_two(entry);
    let mut out = [7, i64::MIN];
    seeded(
        name, &weights, &mu, &target, &mut out, &candidate, radius, budget,
    );
}

fn seeded_three(
    name: &[u8],
    weights: [f64; 3],
    entries: [f64; 3],
    target: [f64; 3],
    candidate: [i64; 3],
    radius: f64,
    budget: u64,
) {
    let mu = mu_of_three(entries);
    let mut out = [i64::MIN, -8, i64::MAX];
    seeded(
        name, &weights, &mu, &target, &mut out, &candidate, radius, budget,
    );
}

fn ml(name: &[u8], weights: &[f64], mu: &[f64], target: &[f64], out: &mut [i64], budget: u64) {
    printing::word(b"ml ");
    printing::word(name);
    let a = seeded::nearest_ml(weights, mu, target, out, budget);
    answer(a, out);
}

fn ml_one(name: &[u8], weight: f64, target: f64, budget: u64) {
    let weights = [weight];
    let mu = [nan()];
    let targets = [target];
    let mut out = [i64::MAX];
    ml(name, &weights, &mu, &targets, &mut out, budget);
}

fn ml_two(name: &[u8], weights: [f64; 2], entry: f64, target: [f64; 2], budget: u64) {
    let mu = mu_of_two(entry);
    let mut out = [7, i64::MIN];
    ml(name, &weights, &mu, &target, &mut out, budget);
}

fn ml_three(name: &[u8], weights: [f64; 3], entries: [f64; 3], target: [f64; 3], budget: u64) {
    let mu = mu_of_three(entries);
    let mut out = [i64::MIN, -8, i64::MAX];
    ml(name, &weights, &mu, &target, &mut out, budget);
}

// ---- nearest_seeded: the candidate

// Other readings: the candidate written unsearched; a candidate at the radius refused; the candidate kept at equal
// distance, at `equally near`; the candidate's distance for the radius, at `L, radius 7`.
fn candidates() {
    let ones = [1.0, 1.0];
    let target = [0.25, 0.5];
    seeded_one(b"L:", 1.0, 0.5, 2, 2.25, 100);
    seeded_one(b"L, radius 2:", 1.0, 0.5, 2, 2.0, 100);
    seeded_one(b"L, 4 nodes:", 1.0, 0.5, 2, 2.25, 4);
    seeded_one(b"L, 3 nodes:", 1.0, 0.5, 2, 2.25, 3);
    seeded_one(b"L, radius 7:", 1.0, 0.5, 2, 7.0, 100);
    seeded_one(b"L, budget 2^60:", 1.0, 0.5, 2, 2.25, MOST);
    seeded_one(b"equally near:", 1.0, 0.5, 1, 0.25, 100);
    seeded_two(b"nearest:", ones, 0.5, target, [0, 1], 0.25, 100);
    seeded_two(b"nearest, wider:", ones, 0.5, target, [0, 1], 2.0, 100);
    seeded_two(b"not the nearest:", ones, 0.5, target, [1, 1], 2.0, 100);
    seeded_two(b"at the radius:", ones, 0.5, target, [1, 1], 1.25, 100);
    seeded_two(
        b"past the radius:",
        ones,
        0.5,
        target,
        [1, 1],
        1.2499999999999998,
        100,
    );
    seeded_two(
        b"far:",
        [0.3, 2.0],
        0.5,
        [0.25, -0.5],
        [-4, -3],
        21.575,
        1000,
    );
}

// The radius is the candidate's distance, and without the widening nothing is found. The small weight of H is 2^-51; its
// widened radius opens 10 prefixes, and the walk takes 6 nodes.
fn widening() {
    let halves = [0.5, 0.5];
    let h = [4.440892098500626e-16, 4.0];
    seeded_two(b"H:", h, 0.0, halves, [0, 0], 1.0, 100);
    seeded_two(b"H, 6 nodes:", h, 0.0, halves, [0, 0], 1.0, 6);
    seeded_two(b"H, 5 nodes:", h, 0.0, halves, [0, 0], 1.0, 5);
    seeded_two(
        b"nothing of 2:",
        [2.3, 0.5],
        -0.4,
        [-2.5, -2.0],
        [-3, -3],
        0.523,
        100,
    );
    seeded_three(
        b"nothing of 3:",
        [0.6, 2.6, 2.1],
        [-0.3, -0.8, -0.4],
        [2.2, 1.1, 1.6],
        [2, 1, 2],
        0.6558199999999997,
        100,
    );
}

// Here another vector is found without it.
fn widening_for_a_point() {
    seeded_two(
        b"another of 2:",
        [0.4, 2.7],
        -0.9,
        [-0.5, -0.5],
        [-1, -1],
        0.676,
        100,
    );
    seeded_three(
        b"another of 3:",
        [0.2, 1.1, 0.3],
        [0.0, 0.6, -0.5],
        [-1.5, 2.5, 2.0],
        [-1, 2, 1],
        0.302,
        100,
    );
    seeded_three(
        b"another of 3 too:",
        [1.0, 0.6, 2.8],
        [0.7, 0.1, 0.2],
        [1.0, 2.5, 2.5],
        [1, 3, 2],
        0.8859999999999999,
        100,
    );
}

// Here a node fewer is opened without it.
fn widening_for_a_node() {
    seeded_two(
        b"a node of 2:",
        [2.1, 2.9],
        0.7,
        [2.3, -0.6],
        [1, -1],
        5.706439999999997,
        100,
    );
    seeded_three(
        b"a node of 3:",
        [0.6, 0.8, 1.3],
        [0.9, -0.9, -0.1],
        [1.4, 0.5, -0.8],
        [0, 0, -1],
        1.9096599999999997,
        100,
    );
}

// ---- the distance

// The candidate is the nearest-plane point, at about 0.544. Other readings: the radius, widened or not; the candidate's
// distance; the terms summed from level 0 upward; a centre or a term in another order or rounded otherwise. Each gives
// other bits here.
fn found_distances() {
    let weights = [1.7, 0.4, 2.1];
    let entries = [-0.7, 0.3, 0.9];
    let target = [-1.4, 0.9, 1.7];
    seeded_three(b"distance:", weights, entries, target, [-1, 1, 2], 0.6, 100);
    ml_three(b"distance:", weights, entries, target, 100);
}

// ---- the widened radius: with budget 0 it is what refusal 15 carries

fn wide_one(name: &[u8], radius: f64) {
    seeded_one(name, 1.0, 0.0, 0, radius, 0);
}

fn wide_three(name: &[u8], radius: f64) {
    let ones = [1.0, 1.0, 1.0];
    let zeros = [0.0, 0.0, 0.0];
    seeded_three(name, ones, zeros, zeros, [0, 0, 0], radius, 0);
}

fn wide_five(name: &[u8], radius: f64) {
    let weights = [1.0; 5];
    let mu = [0.0; 25];
    let target = [0.0; 5];
    let candidate = [0i64; 5];
    let mut out = [i64::MIN; 5];
    seeded(
        name, &weights, &mu, &target, &mut out, &candidate, radius, 0,
    );
}

fn wide_most(name: &[u8], radius: f64) {
    let weights = [1.0; 23];
    let mu = [0.0; 529];
    let target = [0.0; 23];
    let candidate = [0i64; 23];
    let mut out = [7; 23];
    seeded(
        name, &weights, &mu, &target, &mut out, &candidate, radius, 0,
    );
}

// Other readings: no maximum, where the radius is below 1; max·4n first, which is infinite at 1e308; the candidate's
// distance, which is 0, in the radius' place.
fn widened() {
    wide_one(b"0 of 1:", 0.0);
    wide_one(b"-0 of 1:", -0.0);
    wide_one(b"smallest of 1:", SMALLEST);
    wide_one(b"0.7 of 1:", 0.7);
    wide_one(b"below 1 of 1:", 0.9999999999999999);
    wide_one(b"1 of 1:", 1.0);
    wide_one(b"above 1 of 1:", 1.0000000000000002);
    wide_one(b"1.5 of 1:", 1.5);
    wide_one(b"1e308 of 1:", 1e308);
    wide_one(b"largest of 1:", 1.7976931348623141e308);
    wide_one(b"13 of 1:", 1.7976931348623143e308);
    wide_three(b"0.4 of 3:", 0.4);
    wide_three(b"1e308 of 3:", 1e308);
    wide_three(b"largest of 3:", 1.797693134862311e308);
    wide_three(b"13 of 3:", 1.7976931348623111e308);
    wide_most(b"0.4 of 23:", 0.4);
    wide_most(b"largest of 23:", 1.797693134862279e308);
    wide_most(b"13 of 23:", 1.7976931348622792e308);
}

// Other readings: radius·(1 + 2^-52·4n), and the last product fused with its addition, at all; the widening added level
// by level, at 5.3, 9.4 and 1.275.
fn rounded() {
    wide_three(b"1.2083 of 3:", 1.2083333333333333);
    wide_three(b"1.7083 of 3:", 1.7083333333333333);
    wide_five(b"1.275 of 5:", 1.275);
    wide_five(b"5.3 of 5:", 5.3);
    wide_five(b"9.4 of 5:", 9.4);
    wide_most(b"1.5054 of 23:", 1.5054347826086956);
}

// ---- nearest_ml

// Other readings: the nearest-plane point written unsearched, at E and each `seed`; `round` for the nearest plane, in
// the radius at each `seed` with 0 nodes. Without the widening H finds nothing and `another` the vector [0, 0].
fn ml_small() {
    let halves = [0.5, 0.5];
    let h = [4.440892098500626e-16, 4.0];
    ml_one(b"B:", 4.0, 0.75, 1);
    ml_one(b"D:", 4.0, 0.75, 0);
    ml_one(b"E:", 1.0, 0.5, 2);
    ml_one(b"F:", 1.0, 0.5, 1);
    ml_two(b"G:", [1.0, 1.0], 0.5, [0.25, 0.5], 100);
    ml_two(b"G, 3 nodes:", [1.0, 1.0], 0.5, [0.25, 0.5], 3);
    ml_two(b"G, 2 nodes:", [1.0, 1.0], 0.5, [0.25, 0.5], 2);
    ml_two(b"H:", h, 0.0, halves, 100);
    ml_two(b"H, 6 nodes:", h, 0.0, halves, 6);
    ml_two(b"H, 5 nodes:", h, 0.0, halves, 5);
    ml_two(b"H, 0 nodes:", h, 0.0, halves, 0);
    ml_two(b"another:", [0.4, 2.7], -0.9, [-0.5, -0.5], 100);
    ml_two(b"seed of 2:", [2.3, 2.0], 0.8, [0.2, -2.5], 100);
    ml_two(b"seed of 2, 0 nodes:", [2.3, 2.0], 0.8, [0.2, -2.5], 0);
    ml_two(b"seed of 2 too:", [1.6, 0.5], -0.6, [2.4, -1.2], 100);
    ml_two(b"seed of 2 too, 0 nodes:", [1.6, 0.5], -0.6, [2.4, -1.2], 0);
}

fn ml_of_three() {
    let entries = [0.7, -0.9, -0.2];
    let target = [2.4, 2.3, -1.1];
    ml_three(b"seed of 3:", [2.0, 0.3, 2.2], entries, target, 100);
    ml_three(b"seed of 3, 4 nodes:", [2.0, 0.3, 2.2], entries, target, 4);
    ml_three(b"seed of 3, 0 nodes:", [2.0, 0.3, 2.2], entries, target, 0);
    ml_three(
        b"seed of 3 too:",
        [1.4, 3.0, 2.1],
        [-0.1, -0.9, 0.5],
        [-1.7, 0.3, 0.4],
        100,
    );
    ml_three(
        b"seed of 3 too, 0 nodes:",
        [1.4, 3.0, 2.1],
        [-0.1, -0.9, 0.5],
        [-1.7, 0.3, 0.4],
        0,
    );
}

fn ml_six(name: &[u8], budget: u64) {
    let weights = [1.0, 1.3, 2.6, 2.6, 2.6, 2.2];
    let mut mu = [nan(); 36];
    mu[6] = 0.2;
    mu[12] = -0.2;
    mu[13] = 1.0;
    mu[18] = 0.0;
    mu[19] = 0.2;
    mu[20] = -0.2;
    mu[24] = -0.5;
    mu[25] = -0.1;
    mu[26] = -0.2;
    mu[27] = 0.5;
    mu[30] = 0.6;
    mu[31] = -0.9;
    mu[32] = -0.1;
    mu[33] = -1.0;
    mu[34] = -0.5;
    let target = [1.7, 2.5, 2.4, 0.5, -2.5, -1.4];
    let mut out = [7, -8, i64::MIN, i64::MAX, 9, -10];
    ml(name, &weights, &mu, &target, &mut out, budget);
}

// The nearest-plane point is [2, 2, 3, 1, -2, -1].
fn ml_of_six() {
    ml_six(b"seed of 6:", 100);
    ml_six(b"seed of 6, 12 nodes:", 12);
    ml_six(b"seed of 6, 11 nodes:", 11);
    ml_six(b"seed of 6, 0 nodes:", 0);
}

// Each half in a target adds a quarter of its weight to the seed's distance, 0 for the smallest weight. Other readings
// as for `nearest_seeded`: no maximum, where the distance is below 1; max·4n first, at `largest of 2`; fused, and
// radius·(1 + 2^-52·4n), at `1.2083 of 3`.
fn ml_widened() {
    let zeros = [0.0, 0.0, 0.0];
    let half = [0.5, 0.0, 0.0];
    let halves = [0.5, 0.5];
    ml_one(b"0 of 1:", 1.0, -7.0, 0);
    ml_one(b"smallest of 1:", SMALLEST, 0.5, 0);
    ml_one(b"below 1 of 1:", 3.9999999999999996, 0.5, 0);
    ml_one(b"1 of 1:", 4.0, 0.5, 0);
    ml_one(b"3 of 1:", 12.0, 0.5, 0);
    ml_one(b"largest of 1:", LARGEST, 0.5, 0);
    ml_two(b"largest of 2:", [LARGEST, LARGEST], 0.0, halves, 0);
    ml_two(
        b"largest of 2, searched:",
        [LARGEST, LARGEST],
        0.0,
        halves,
        100,
    );
    ml_three(b"0.4 of 3:", [1.6, 1.0, 1.0], zeros, half, 0);
    ml_three(
        b"1.2083 of 3:",
        [4.833333333333333, 1.0, 1.0],
        zeros,
        half,
        0,
    );
}

// ---- the ends of the domain

// The weights are 2^-126 and 2^-104. A candidate is converted with ties to even: the first two become 2^63 and
// -2^63; 2^53 + 1 becomes 2^53, whose distance is 1; 2^53 + 3 becomes 2^53 + 4, whose distance is 1 + 2^-49.
fn large_candidates() {
    let small = 1.1754943508222875e-38;
    let less = 0.9999999999999999;
    let w = 4.930380657631324e-32;
    seeded_one(b"2^63 - 1:", small, 0.0, i64::MAX, 1.0, 0);
    seeded_one(b"2^63 - 1, outside:", small, 0.0, i64::MAX, less, 0);
    seeded_one(b"-2^63:", small, 0.0, i64::MIN, 1.0, 0);
    seeded_one(b"-2^63, outside:", small, 0.0, i64::MIN, less, 0);
    seeded_one(b"2^53 + 1:", w, LIMIT, 9007199254740993, 1.0, 0);
    seeded_one(b"2^53 + 1, 5 nodes:", w, LIMIT, 9007199254740993, 1.0, 5);
    seeded_one(
        b"2^53 + 3:",
        w,
        LIMIT,
        9007199254740995,
        1.0000000000000018,
        0,
    );
    seeded_one(
        b"2^53 + 3, outside:",
        w,
        LIMIT,
        9007199254740995,
        1.0000000000000016,
        0,
    );
}

fn large_targets() {
    seeded_one(b"K:", 1.0, LIMIT, 4503599627370496, 0.0, 1);
    seeded_one(b"K below:", 1.0, -LIMIT, -4503599627370496, 0.0, 1);
    seeded_one(b"K, the next:", 1.0, LIMIT, 4503599627370497, 1.0, 100);
    seeded_one(b"K past the limit:", 1.0, BEYOND, 4503599627370497, 0.0, 1);
    seeded_two(
        b"K twice:",
        [2.0, 3.0],
        -LIMIT,
        [LIMIT, -LIMIT],
        [4503599627370496, -4503599627370496],
        -0.0,
        100,
    );
    ml_one(b"K:", 1.0, LIMIT, 1);
    ml_one(b"K below:", 1.0, -LIMIT, 1);
    ml_one(b"K past the limit:", 1.0, BEYOND, 1);
    ml_two(b"K twice:", [2.0, 3.0], -LIMIT, [LIMIT, -LIMIT], 100);
}

// Level 0 has its centre at 2^62, 2^63, -2^63 and -2^102. At 2^63 the seed is the largest i64, and 511 smaller ones
// share its double.
fn centers() {
    let ones = [1.0, 1.0, 1.0];
    let target = [0.0, 0.0, 0.25];
    let upper = [-LIMIT, 0.0, 8192.0];
    ml_three(b"center 2^62:", ones, [-LIMIT, 0.0, 4096.0], target, 1000);
    ml_three(b"center 2^63:", ones, upper, target, 1000);
    ml_three(b"center 2^63, 513 nodes:", ones, upper, target, 513);
    ml_three(b"center -2^63:", ones, [LIMIT, 0.0, 8192.0], target, 1000);
    ml_three(b"center -2^102:", ones, [LIMIT, 0.0, LIMIT], target, 0);
    ml_three(
        b"center -2^102, 5 nodes:",
        ones,
        [LIMIT, 0.0, LIMIT],
        target,
        5,
    );
    seeded_three(
        b"center 2^63:",
        ones,
        upper,
        target,
        [i64::MAX, 2048, 0],
        0.0625,
        1000,
    );
}

fn empty(name: &[u8], out: &mut [i64], candidate: &[i64], radius: f64, budget: u64) {
    let none = [0.0; 0];
    seeded(name, &none, &none, &none, out, candidate, radius, budget);
}

// At n = 0 nothing widens the radius, so the largest passes too, and the distance is plus zero at any radius. The
// refused are also wrong for a later refusal.
fn empties() {
    let none = [0.0; 0];
    let mu = [0.0; 1];
    let no_point = [0i64; 0];
    let point = [3];
    let mut no_places = [0i64; 0];
    let mut place = [i64::MIN];
    empty(b"A:", &mut no_places, &no_point, 0.0, 0);
    empty(b"A, -0:", &mut no_places, &no_point, -0.0, 0);
    empty(b"A, 4:", &mut no_places, &no_point, 4.0, 0);
    empty(b"A, largest:", &mut no_places, &no_point, LARGEST, MOST);
    empty(b"A, 6:", &mut place, &point, -1.0, EVERY);
    empty(b"A, 8:", &mut no_places, &point, -1.0, EVERY);
    empty(b"A, 9:", &mut no_places, &point, LARGEST, EVERY);
    empty(b"A, 10:", &mut no_places, &point, LARGEST, 0);
    ml(b"A:", &none, &none, &none, &mut no_places, 0);
    ml(b"A, 2:", &none, &mu, &none, &mut place, MOST + 1);
    ml(b"A, 6:", &none, &none, &none, &mut place, MOST + 1);
    ml(b"A, 9:", &none, &none, &none, &mut no_places, MOST + 1);
}

// ---- the refusals' order: each call below is also wrong for a later one

// The radius, the budget and the candidate's length are wrong too.
fn both(name: &[u8], weights: &[f64], mu: &[f64], target: &[f64], out: &mut [i64]) {
    let candidate = [i64::MAX, i64::MIN];
    seeded(name, weights, mu, target, out, &candidate, -1.0, EVERY);
    ml(name, weights, mu, target, out, EVERY);
}

// The target's and the output's length are wrong too.
fn table(name: &[u8], weights: &[f64], mu: &[f64]) {
    let target = [nan(), 1.5];
    let mut out = [7, i64::MAX, 9, i64::MIN];
    both(name, weights, mu, &target, &mut out);
}

fn entries(name: &[u8], a: f64, b: f64, weights: [f64; 3]) {
    let mu = mu_of_three([a, b, 1.0]);
    table(name, &weights, &mu);
}

// 3 comes before 4 even at a later entry, and 2^52 is within the limit.
fn tables() {
    let weights_3 = [0.0, nan(), 1.0];
    let weights_24 = [0.0; 24];
    let mu_8 = [nan(); 8];
    let mu_576 = [nan(); 576];
    table(b"2 fewer entries:", &weights_3, &mu_8);
    table(b"2 more weights:", &weights_24, &mu_576);
    entries(b"3:", BEYOND, nan(), [0.0, 1.0, 1.0]);
    entries(b"4:", LIMIT, -BEYOND, [0.0, 1.0, 1.0]);
    entries(b"5:", LIMIT, -LIMIT, [1.0, 0.0, nan()]);
    entries(
        b"6 after the table:",
        LIMIT,
        -LIMIT,
        [SMALLEST, LARGEST, 1.0],
    );
}

fn call(name: &[u8], target: &[f64], out: &mut [i64]) {
    let weights = [1.0; 3];
    let mu = [0.5; 9];
    both(name, &weights, &mu, target, out);
}

// The target's length comes before the output's.
fn calls() {
    let two_targets = [nan(), 1.5];
    let three_targets = [LIMIT, 1.5, -BEYOND];
    let mut two_places = [7, i64::MIN];
    let mut three_places = [7, i64::MIN, i64::MAX];
    let mut four_places = [7, -8, 9, i64::MIN];
    call(b"6 fewer targets:", &two_targets, &mut four_places);
    call(b"6 fewer places:", &three_targets, &mut two_places);
    call(b"6 more places:", &three_targets, &mut four_places);
    call(b"7:", &three_targets, &mut three_places);
}

fn lengths(name: &[u8], candidate: &[i64], radius: f64, budget: u64) {
    let weights = [LARGEST; 3];
    let mu = [0.5; 9];
    let target = [0.0; 3];
    let mut out = [i64::MIN, -8, i64::MAX];
    seeded(
        name, &weights, &mu, &target, &mut out, candidate, radius, budget,
    );
}

// The candidate's coordinates are far from the target. 8 comes before 9 and 10, 9 before 10, and 10 before 11 to 13.
fn candidate_lengths() {
    let none = [0i64; 0];
    let two_places = [i64::MAX, i64::MIN];
    let four_places = [i64::MAX, 0, 0, i64::MIN];
    lengths(b"8 negative:", &two_places, -SMALLEST, EVERY);
    lengths(b"8 infinite:", &two_places, infinity(), EVERY);
    lengths(b"8 nan:", &four_places, nan(), EVERY);
    lengths(b"9 before 10:", &two_places, 1.0, MOST + 1);
    lengths(b"9, largest radius:", &two_places, LARGEST, EVERY);
    lengths(b"10 fewer:", &two_places, 1.0, 0);
    lengths(b"10 more:", &four_places, 1.0, 0);
    lengths(b"10 none:", &none, 1.0, 100);
    lengths(b"10 before 13:", &two_places, LARGEST, 0);
}

// 8 before 12; 9 before 11, 12 and 13; 11 before 12 and 13; 12 before 13; 12 and 13 before 15. A call is wrong for both
// 12 and 13 only where the radius is just below the largest double and the candidate's distance above it.
fn distances() {
    let far = [i64::MAX, 0, i64::MIN];
    seeded_one(b"8 before 12:", 1.0, 0.5, 2, -0.25, 100);
    seeded_one(b"9 before 12:", 1.0, 0.5, 2, 2.0, MOST + 1);
    seeded_one(b"9 before 13:", 1.0, 0.0, 0, LARGEST, MOST + 1);
    lengths(b"9 before 11:", &far, 1.0, MOST + 1);
    lengths(b"11 before 12:", &far, 1.0, 0);
    lengths(b"11 before 13:", &far, LARGEST, 0);
    seeded_one(b"11, 2 from 0:", LARGEST, 0.0, 2, 0.0, 100);
    seeded_one(b"11, -2 from 0:", LARGEST, 0.0, -2, 0.0, 100);
    seeded_one(b"12:", 1.0, 0.5, -3, 12.0, 100);
    seeded_one(b"12, 0:", 2.0, 3.25, 3, 0.0, 100);
    seeded_one(b"12, -0:", 2.0, 3.25, 3, -0.0, 100);
    seeded_one(b"12 before 13:", LARGEST, 0.0, 1, SECOND_LARGEST, 100);
    seeded_one(b"12 before 15:", 1.0, 0.5, 2, 2.0, 0);
    seeded_one(b"13 at the radius:", LARGEST, 0.0, 1, LARGEST, 100);
    seeded_one(b"13 before 15:", 1.0, 0.0, 0, LARGEST, 0);
    seeded_one(b"-0 passes:", 2.0, 3.0, 3, -0.0, 1);
    seeded_one(b"-0, 0 nodes:", 2.0, 3.0, 3, -0.0, 0);
}

fn ml_four(name: &[u8], budget: u64) {
    let weights = [LARGEST; 4];
    let mu = [0.0; 16];
    let target = [0.5; 4];
    let mut out = [7, i64::MAX, 9, i64::MIN];
    ml(name, &weights, &mu, &target, &mut out, budget);
}

fn ml_five(name: &[u8], budget: u64) {
    let weights = [LARGEST; 5];
    let mu = [0.0; 25];
    let target = [0.5; 5];
    let mut out = [7, i64::MAX, 9, i64::MIN, -10];
    ml(name, &weights, &mu, &target, &mut out, budget);
}

// The seed's distance is the largest double at 4 levels and overflows at 5, and at 3 where a centre is -2^102. 9 comes
// before 11 and 13, 11 before 13, and both before 15.
fn ml_distances() {
    let heavy = [1e300, 1.0, 1.0];
    let target = [0.0, 0.0, 0.25];
    ml_one(b"9:", 1.0, 0.5, MOST + 1);
    ml_one(b"9, largest:", 1.0, 0.5, EVERY);
    ml_one(b"2^60:", 1.0, 0.5, MOST);
    ml_five(b"9 before 11:", MOST + 1);
    ml_four(b"9 before 13:", MOST + 1);
    ml_five(b"11 before 13:", 100);
    ml_five(b"11 before 15:", 0);
    ml_three(b"11, center -2^102:", heavy, [LIMIT, 0.0, LIMIT], target, 0);
    ml_four(b"13:", 100);
    ml_four(b"13 before 15:", 0);
}

fn main() {
    candidates();
    widening();
    widening_for_a_point();
    widening_for_a_node();
    found_distances();
    widened();
    rounded();
    ml_small();
    ml_of_three();
    ml_of_six();
    ml_widened();
    large_candidates();
    large_targets();
    centers();
    empties();
    tables();
    calls();
    candidate_lengths();
    distances();
    ml_distances();
}
