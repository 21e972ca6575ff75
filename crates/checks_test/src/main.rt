// What the calls' checks say where the specification's order and limits matter. Each line of the output has the
// verdicts of one sequence at the calls below, in their order: `pass`, or the refusal's number with what it carries in
// brackets. A double is written as the 16 hexadecimal digits of its bits. The expected output is worked out by hand.
#![tactic(auto)]

use checks::triangle::{Triangle, feed, triangle_verdict};
use definitions::{LARGEST_DIMENSION, LARGEST_SQUARE};
use printing::values::*;
use printing::{double, newline, verdict, word};

// ---- 2 to 5

// A table of at most 24 weights, with all else as it must be.
fn table(weights: &[f64], mu: &[f64]) {
    let coefficients = [0.0; 24];
    let out = [0i64; 24];
    let n = weights.len();
    if n > 24 {
        return;
    }
    verdict(checks::plane_check(
        LARGEST_DIMENSION,
        weights,
        mu,
        &coefficients[..n],
        &out[..n],
    ));
}

// mu too short and too long, where the weights' length is carried all the same; then too many weights.
fn table_sizes() {
    word(b"table size:");
    let none = [0.0; 0];
    let mu_1 = [0.0; 1];
    let weights_3 = [1.0; 3];
    let mu_8 = [0.0; 8];
    let mu_9 = [0.0; 9];
    table(&none, &none);
    table(&none, &mu_1);
    table(&weights_3, &mu_9);
    table(&weights_3, &mu_8);
}

fn large_table_sizes() {
    let weights_23 = [1.0; LARGEST_DIMENSION];
    let mu_529 = [0.0; LARGEST_SQUARE];
    let weights_24 = [1.0; 24];
    let mu_576 = [0.0; 576];
    let mu_9 = [0.0; 9];
    table(&weights_23, &mu_529);
    table(&weights_24, &mu_576);
    table(&weights_24, &mu_9);
    newline();
}

// The verdict after each of four entries.
fn entries_fed(values: [f64; 4]) {
    word(b"feed:");
    let mut s = Triangle::Clean;
    for (k, x) in values.iter().enumerate() {
        s = feed(s, 10 + k, *x);
        verdict(triangle_verdict(s));
    }
    newline();
}

// A table of dimension 3 with the entries that are read, at 3, 6 and 7, and one value for all others.
fn entries(a: f64, b: f64, c: f64, others: f64) {
    let weights = [1.0; 3];
    let mu = [others, others, others, a, others, others, b, c, others];
    table(&weights, &mu);
}

// 3 beats an earlier 4; on and above the diagonal nothing counts; 2^52 passes and the next double does not.
fn triangles() {
    word(b"entries:");
    entries(0.0, 0.0, 0.0, 0.0);
    entries(LARGEST, 0.0, nan(), 0.0);
    entries(0.0, infinity(), nan(), 0.0);
    entries(0.0, -BEYOND, LARGEST, 0.0);
    entries(1.0, 1.0, 1.0, nan());
    entries(1.0, 1.0, 1.0, -infinity());
    entries(LIMIT, -LIMIT, -0.0, LARGEST);
    entries(BEYOND, 0.0, 0.0, 0.0);
    entries(0.0, 0.0, -infinity(), 0.0);
    entries(0.0, BEYOND, 0.0, nan());
    newline();
}

// A table of dimension 2: entry 2 is read, and 3 is not.
fn two(first: f64, second: f64, read: f64, unread: f64) {
    let weights = [first, second];
    let mu = [0.0, 0.0, read, unread];
    table(&weights, &mu);
}

// A zero of either sign is not above 0.
fn weights() {
    word(b"weights:");
    two(1.0, SMALLEST, 0.0, 0.0);
    two(1.0, LARGEST, 0.0, 0.0);
    two(1.0, -0.0, 0.0, 0.0);
    two(0.0, 1.0, 0.0, 0.0);
    two(1.0, -1.0, 0.0, 0.0);
    two(nan(), -1.0, 0.0, 0.0);
    two(1.0, infinity(), 0.0, 0.0);
    newline();
}

// 2 before 3, 3 and 4 before 5.
fn tables() {
    word(b"table:");
    two(1.0, 1.0, 0.0, nan());
    two(1.0, 0.0, nan(), 0.0);
    two(1.0, 0.0, BEYOND, 0.0);
    two(1.0, -0.0, LIMIT, nan());
    let one_weight = [0.0];
    let bad = [nan(), nan()];
    table(&one_weight, &bad);
    newline();
}

// ---- 6 and 7

fn plane(coefficients: &[f64], out: &[i64]) {
    let weights = [1.0; 3];
    let mu = [0.0; 9];
    verdict(checks::plane_check(LARGEST_DIMENSION, &weights, &mu, coefficients, out));
}

// `nearest_plane` carries the coefficients' length, also where the output is the wrong one.
fn planes() {
    word(b"plane_check:");
    let two = [0.0; 2];
    let three = [0.0; 3];
    let four = [0.0; 4];
    let out_2 = [0i64; 2];
    let out_3 = [0i64; 3];
    let out_5 = [0i64; 5];
    plane(&three, &out_3);
    plane(&two, &out_3);
    plane(&three, &out_2);
    plane(&four, &out_5);
    newline();
}

fn rounds(a: f64, b: f64, out: &[i64]) {
    let coefficients = [a, b];
    verdict(checks::round_check(&coefficients, out));
}

// The length first; the limit of a target does not count for coefficients.
fn coefficients() {
    word(b"round_check:");
    let one = [0i64; 1];
    let pair = [0i64; 2];
    rounds(1.0, 2.0, &pair);
    rounds(nan(), 2.0, &one);
    rounds(BEYOND, -LARGEST, &pair);
    rounds(BEYOND, nan(), &pair);
    rounds(-infinity(), nan(), &pair);
    newline();
}

fn search(weight: f64, target: &[f64], out: &[i64]) {
    let weights = [1.0, weight];
    let mu = [0.0; 4];
    verdict(checks::search_check(LARGEST_DIMENSION, &weights, &mu, target, out));
}

// The table first, then the target's length, the output's, and the target's values.
fn searches() {
    word(b"search_check:");
    let good = [0.5, 0.5];
    let bad = [0.5, nan()];
    let short = [nan()];
    let places = [0i64; 2];
    let more = [0i64; 3];
    search(1.0, &good, &places);
    search(-0.0, &short, &more);
    search(1.0, &short, &more);
    search(1.0, &bad, &more);
    search(1.0, &bad, &places);
    newline();
}

fn target(a: f64, b: f64) {
    let places = [0i64; 2];
    let numbers = [a, b];
    search(1.0, &numbers, &places);
}

fn targets() {
    word(b"target:");
    target(LIMIT, -LIMIT);
    target(0.5, BEYOND);
    target(-BEYOND, nan());
    target(0.0, nan());
    target(infinity(), 0.0);
    newline();
}

// ---- 8 and 9

fn nearest(radius: f64, budget: u64) {
    let weights = [1.0];
    let mu = [0.0];
    let numbers = [0.5];
    let out = [0i64];
    verdict(checks::nearest_check(
        LARGEST_DIMENSION,
        &weights,
        &mu,
        &numbers,
        &out,
        radius,
        budget,
    ));
}

// Minus zero passes, and is handed on as plus zero; nothing else is changed by that. 8 before 9.
fn radii() {
    word(b"nearest_check:");
    nearest(0.0, 0);
    nearest(-0.0, MOST);
    nearest(LARGEST, MOST + 1);
    nearest(-1.0, EVERY);
    nearest(-SMALLEST, 0);
    nearest(nan(), 0);
    nearest(infinity(), 0);
    word(b"\nhanded_on:");
    double(checks::handed_on(-0.0));
    double(checks::handed_on(0.0));
    double(checks::handed_on(SMALLEST));
    double(checks::handed_on(-SMALLEST));
    double(checks::handed_on(1.5));
    double(checks::handed_on(-1.5));
    double(checks::handed_on(nan()));
    double(checks::handed_on(-infinity()));
    newline();
}

fn ml(budget: u64) {
    let weights = [1.0];
    let mu = [0.0];
    let numbers = [0.5];
    let out = [0i64];
    verdict(checks::ml_check(LARGEST_DIMENSION, &weights, &mu, &numbers, &out, budget));
}

fn budgets() {
    word(b"ml_check:");
    ml(0);
    ml(MOST);
    ml(MOST + 1);
    newline();
}

// ---- 10 to 13

// A target of 0.5 and one weight.
fn seeded(weight: f64, candidate: &[i64], radius: f64) {
    let weights = [weight];
    let mu = [0.0];
    let numbers = [0.5];
    let out = [0i64];
    verdict(checks::seeded_check(
        LARGEST_DIMENSION,
        &weights,
        &mu,
        &numbers,
        &out,
        candidate,
        radius,
        100,
    ));
}

// 8 before 10, and a candidate at the radius passes.
fn candidates() {
    word(b"seeded_check:");
    let none = [0i64; 0];
    let near = [2];
    let far = [4611686018427387904];
    seeded(1.0, &near, 2.25);
    seeded(1.0, &none, -1.0);
    seeded(1.0, &none, 2.25);
    seeded(LARGEST, &far, 1.0);
    seeded(1.0, &near, 2.0);
    seeded(1.0, &near, LARGEST);
    word(b"\ntotal_check:");
    verdict(checks::total_check(1, 2.0));
    verdict(checks::total_check(1, infinity()));
    verdict(checks::total_check(0, LARGEST));
    verdict(checks::total_check(1, LARGEST));
    newline();
}

// ---- 14

fn list_of_three(distances: &[f64], points: &[i64], budget: u64) {
    let weights = [1.0; 3];
    let mu = [0.0; 9];
    let numbers = [0.5; 3];
    verdict(checks::list_check(
        LARGEST_DIMENSION,
        &weights,
        &mu,
        &numbers,
        distances,
        points,
        1.0,
        budget,
    ));
}

fn list_of_none(distances: &[f64], points: &[i64]) {
    let none = [0.0; 0];
    verdict(checks::list_check(
        LARGEST_DIMENSION,
        &none,
        &none,
        &none,
        distances,
        points,
        1.0,
        0,
    ));
}

// 9 before 14; no coordinates at n = 0.
fn list_sizes() {
    word(b"list_check:");
    let places = [0.0; 4097];
    let coordinates = [0i64; 12291];
    list_of_three(&places[..4096], &coordinates[..12288], 0);
    list_of_three(&places, &coordinates, 0);
    list_of_three(&places[..10], &coordinates[..29], 0);
    list_of_three(&places[..10], &coordinates[..29], EVERY);
    list_of_none(&places[..5], &coordinates[..0]);
    list_of_none(&places[..5], &coordinates[..1]);
    newline();
}

fn main() {
    table_sizes();
    large_table_sizes();
    entries_fed([1.0, BEYOND, -BEYOND, 0.0]);
    entries_fed([LARGEST, nan(), infinity(), BEYOND]);
    entries_fed([nan(), infinity(), LARGEST, 0.0]);
    entries_fed([LIMIT, -LIMIT, BEYOND, -infinity()]);
    triangles();
    weights();
    tables();
    planes();
    coefficients();
    searches();
    targets();
    radii();
    budgets();
    candidates();
    list_sizes();
}
