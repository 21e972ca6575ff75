// What `nearest` answers and leaves in the slice that it is lent. Each line of the output has a case's name, then
// `found`, the node count and the point's distance, as the 16 hexadecimal digits of its bits, or the refusal's number
// with what it carries in brackets, then the slice at exit, in square brackets. Before the call it holds 7, -8, 9 and
// the smallest i64, or 7 in every place, and so it must after a refusal. Where a case parts the specification from
// another reading, its comment names that.
//
// The expected output of every call that the Rust knows is the Rust's: this program compiled as Rust, with the oracle
// in the place of the crate `enumerate` (tools/oracle/examples/enumerate_test.rs). The lines of refusals 2 to 5 and 9,
// which the Rust does not have, are the specification's.
#![tactic(auto)]

use printing::values::*;

fn nearest(
    name: &[u8],
    weights: &[f64],
    mu: &[f64],
    target: &[f64],
    out: &mut [i64],
    radius: f64,
    budget: u64,
) {
    printing::word(name);
    match enumerate::nearest(weights, mu, target, out, radius, budget) {
        Ok(point) => printing::found(point.nodes, point.distance),
        Err(e) => printing::verdict(Err(e)),
    }
    printing::integers(out);
    printing::newline();
}

fn one(name: &[u8], weight: f64, target: f64, radius: f64, budget: u64) {
    let weights = [weight];
    let mu = [nan()];
    let targets = [target];
    let mut out = [7];
    nearest(name, &weights, &mu, &targets, &mut out, radius, budget);
}

fn two(name: &[u8], weights: [f64; 2], entry: f64, target: [f64; 2], radius: f64, budget: u64) {
    let mu = mu_of_two(entry);
    let mut out = [7, -8];
    nearest(name, &weights, &mu, &target, &mut out, radius, budget);
}

fn three(
    name: &[u8],
    weights: [f64; 3],
    entries: [f64; 3],
    target: [f64; 3],
    radius: f64,
    budget: u64,
) {
    let mu = mu_of_three(entries);
    let mut out = [7, -8, 9];
    nearest(name, &weights, &mu, &target, &mut out, radius, budget);
}

// ---- the specification's cases

// Other readings: a node early out of budget, at B and E; a node late, at D and F; out of budget before the first
// test, at C; pruning where a sum equals the radius, at B and E; the first point found kept at equal distance, at E;
// the call's radius in refusal 15, at F.
fn cases_of_one() {
    one(b"B:", 4.0, 0.75, 0.25, 1);
    one(b"C:", 4.0, 0.75, 0.125, 0);
    one(b"D:", 4.0, 0.75, 0.25, 0);
    one(b"E:", 1.0, 0.5, 1.0, 2);
    one(b"F:", 1.0, 0.5, 1.0, 1);
    one(b"K:", 1.0, LIMIT, 0.0, 1);
    one(b"K below:", 1.0, -LIMIT, 0.0, 1);
    one(b"K past the limit:", 1.0, BEYOND, 0.0, 1);
}

// The weight and the radii of H and I: 2^-51, 1, 1 + 2^-52. Other readings: remaining refreshed, at G; no first test,
// at H.
fn cases_of_two() {
    let halves = [0.5, 0.5];
    let weights = [4.440892098500626e-16, 4.0];
    two(b"G:", [1.0, 1.0], 0.5, [0.25, 0.5], 2.0, 100);
    two(b"G, 5 nodes:", [1.0, 1.0], 0.5, [0.25, 0.5], 2.0, 5);
    two(b"G, 4 nodes:", [1.0, 1.0], 0.5, [0.25, 0.5], 2.0, 4);
    two(b"H:", weights, 0.0, halves, 1.0, 2);
    two(b"H, 1 node:", weights, 0.0, halves, 1.0, 1);
    two(b"I:", weights, 0.0, halves, 1.0000000000000002, 4);
    two(b"I, 3 nodes:", weights, 0.0, halves, 1.0000000000000002, 3);
}

// ---- the order of the children and of equal points

// Other readings: upward first only above the integer, at `upward`; always upward first, at `downward`; a direction
// closed one candidate early, at `last upward` and `last downward`.
fn directions() {
    two(b"upward:", [2.5, 0.3], 0.4, [0.5, 0.0], 0.6, 100);
    two(b"downward:", [2.9, 0.4], -0.7, [-1.6, -0.1], 0.6, 4);
    two(b"last upward:", [4.0, 1.0], 1.5, [2.5, 3.0], 2.0, 100);
    one(b"last downward:", 3.0, 1.5, 1.5, 100);
    one(b"ten children:", 0.1, 2.5, 2.1, 100);
}

// Other readings: compared from the last coordinate; the last point found kept; halves to even; floor(v + 0.5).
fn equals() {
    two(
        b"coordinate 0 first:",
        [4.0, 4.0],
        1.5,
        [0.5, 1.5],
        2.0,
        100,
    );
    one(b"smaller found first:", 1.0, -1.5, 2.7, 7);
    two(b"half to odd:", [2.6, 2.1], 1.0, [1.6, 2.5], 2.1, 100);
    two(b"half downward:", [3.0, 0.8], 0.7, [2.0, -1.5], 1.1, 100);
}

// ---- the two tests

// Other readings: no first test; no second test at level 0, where the weights are 4 + 2^-49 and 1.5, the target 2^-26
// and the radius 1 + 3·2^-52; R - partial exact, where a target is 2^-27, and at `rounded upward too`; pruning where a
// term equals R - partial; the call's R in R - partial; remaining refreshed when the radius shrinks.
fn tests() {
    let weights = [4.000000000000002, 1.5];
    let target = [0.5, 1.4901161193847656e-8];
    two(b"first test:", [0.8, 3.0], 0.4, [2.0, 2.5], 0.8, 100);
    two(b"second test:", weights, 0.0, target, 1.0000000000000007, 3);
    two(
        b"second test, 2 nodes:",
        weights,
        0.0,
        target,
        1.0000000000000007,
        2,
    );
    two(
        b"rounded upward:",
        [4.0, 1.0],
        0.0,
        [0.5, 7.450580596923828e-9],
        1.0,
        100,
    );
    two(
        b"rounded upward too:",
        [1.6, 0.4],
        0.0,
        [2.4, 1.5],
        0.7,
        100,
    );
    two(
        b"equal to what remained:",
        [3.0, 1.0],
        0.0,
        [1.0, 0.5],
        1.0,
        100,
    );
    two(b"radius on entry:", [2.1, 2.4], 0.4, [0.0, 2.5], 1.7, 100);
    two(b"remaining kept:", [2.0, 1.6], 0.0, [0.5, 2.8], 1.4, 100);
}

// ---- the sums

// Other readings: levels summed upward, in the point at the first and in the radius at the second; a centre's products
// added from j = n-1 down, or its target last; a product fused with its addition; t·mu - z·mu; weight·(d·d).
fn sums() {
    let weights = [0.6, 1.8, 0.2];
    let entries = [0.8, 1.0, -0.1];
    three(
        b"levels downward:",
        weights,
        entries,
        [0.5, 2.5, 0.5],
        1.3,
        100,
    );
    three(
        b"levels downward, 4 nodes:",
        weights,
        entries,
        [0.5, 2.5, 0.5],
        1.3,
        4,
    );
    three(
        b"center rising:",
        [1.2, 0.8, 2.5],
        [-1.0, 0.3, 0.0],
        [-1.0, 1.5, 1.6],
        2.9,
        100,
    );
    three(
        b"center not fused:",
        [1.1, 3.0, 2.4],
        [0.9, -0.9, -0.7],
        [2.5, -1.9, 0.1],
        2.6,
        100,
    );
    two(b"partial not fused:", [2.2, 1.7], 0.8, [0.0, 0.5], 2.8, 100);
    two(b"difference first:", [2.7, 1.5], 0.3, [0.5, 2.5], 1.5, 100);
    two(b"weight first:", [0.7, 1.4], 0.0, [1.4, 2.5], 1.6, 100);
}

// ---- the distance

// The first point found is [-1, 1, 2], at about 0.544. Other readings: the call's radius; the first point's distance;
// the terms summed from level 0 upward; a centre or a term in another order or rounded otherwise, as under the sums.
// Each gives other bits here.
fn found_distances() {
    let weights = [1.7, 0.4, 2.1];
    let entries = [-0.7, 0.3, 0.9];
    let target = [-1.4, 0.9, 1.7];
    three(b"distance:", weights, entries, target, 1.3, 100);
    three(b"distance, 4 nodes:", weights, entries, target, 1.3, 4);
}

// ---- the ends of the domain

// A radius of minus zero stands and is told as plus zero. With the smallest weight two points are at distance 0.
fn radii() {
    one(b"radius 0:", 2.0, 3.0, 0.0, 1);
    one(b"radius 0, outside:", 2.0, 3.25, 0.0, 1);
    one(b"radius -0:", 2.0, 3.0, -0.0, 1);
    one(b"radius -0, outside:", 2.0, 3.25, -0.0, 1);
    two(b"radius -0, 1 node:", [1.0, 1.0], 0.5, [1.0, 2.0], -0.0, 1);
    one(b"radius -0, one of two:", SMALLEST, 0.5, -0.0, 1);
    one(b"radius -0, both:", SMALLEST, 0.5, -0.0, 2);
    one(b"smallest radius:", SMALLEST, 0.75, SMALLEST, 100);
    one(b"largest radius:", LARGEST, 0.25, LARGEST, 100);
    one(b"largest radius, 1000 nodes:", 1.0, 0.25, LARGEST, 1000);
    two(
        b"largest weights:",
        [LARGEST, LARGEST],
        0.0,
        [0.5, 0.5],
        LARGEST,
        100,
    );
}

fn budgets() {
    one(b"budget 2^60:", 1.0, 0.5, 1.0, MOST);
    one(b"budget 2^60, outside:", 4.0, 0.75, 0.125, MOST);
    one(b"budget 2^60 + 1:", 1.0, 0.5, 1.0, MOST + 1);
    one(b"budget 2^60 + 1, outside:", 4.0, 0.75, 0.125, MOST + 1);
    one(b"largest budget:", 1.0, 0.5, 1.0, EVERY);
}

// Level 0 has its centre at 2^62, 2^63, -2^63, 2^63 + 2^12 and -2^102, and the first four have 769, 512, 513 and 512
// children, which share a double. The small weights are 2^-30 and 2^-220. Other readings: an i64 becomes a double by
// cutting; both directions close with the first.
fn centers() {
    let ones = [1.0, 1.0, 1.0];
    let target = [0.0, 0.0, 0.25];
    three(
        b"center 2^62:",
        ones,
        [-LIMIT, 0.0, 4096.0],
        target,
        0.1,
        1000,
    );
    three(
        b"center 2^62, 770 nodes:",
        ones,
        [-LIMIT, 0.0, 4096.0],
        target,
        0.1,
        770,
    );
    three(
        b"center 2^63:",
        ones,
        [-LIMIT, 0.0, 8192.0],
        target,
        0.1,
        1000,
    );
    three(
        b"center -2^63:",
        ones,
        [LIMIT, 0.0, 8192.0],
        target,
        0.1,
        1000,
    );
    three(
        b"center past 2^63:",
        [9.313225746154785e-10, 1.0, 1.0],
        [-LIMIT, 0.0, 8192.0],
        [4096.0, 0.0, 0.25],
        0.08,
        1000,
    );
    three(
        b"center far past 2^63:",
        [5.934729841099874e-67, 1.0, 1.0],
        [LIMIT, 0.0, LIMIT],
        target,
        0.1,
        50,
    );
    three(
        b"center far past 2^63, outside:",
        ones,
        [LIMIT, 0.0, LIMIT],
        target,
        0.1,
        2,
    );
}

// At n = 0 the distance is plus zero, whatever the radius.
fn dimensions() {
    let none = [0.0; 0];
    let mut no_places = [0i64; 0];
    let mut one_place = [7];
    nearest(b"A:", &none, &none, &none, &mut no_places, 0.0, 0);
    nearest(b"A, -0:", &none, &none, &none, &mut no_places, -0.0, 0);
    nearest(b"A, 4:", &none, &none, &none, &mut no_places, 4.0, 0);
    nearest(
        b"A, largest radius:",
        &none,
        &none,
        &none,
        &mut no_places,
        LARGEST,
        MOST,
    );
    nearest(b"6 n = 0:", &none, &none, &none, &mut one_place, 0.0, 0);
    let mut weights = [1.0; 23];
    weights[0] = 0.3;
    weights[7] = 2.5;
    weights[15] = 0.7;
    weights[22] = 1.9;
    let mu = mu_of_23();
    let target = target_of_23();
    let mut out = [7; 23];
    nearest(b"n = 23, 15:", &weights, &mu, &target, &mut out, 5.0, 20000);
    nearest(b"n = 23, 16:", &weights, &mu, &target, &mut out, 3.2, 30000);
    nearest(b"n = 23:", &weights, &mu, &target, &mut out, 5.0, 30000);
}

// ---- dimensions from 24 on: running centres

// Weights 1; a target that is 0 from coordinate 5 on.
fn of_24(name: &[u8], entries: [f64; 4], first: [f64; 5], radius: f64, budget: u64) {
    let weights = [1.0; 24];
    let mu = mu_of_24(entries);
    let target = target_of_24(first);
    let mut out = [7; 24];
    nearest(name, &weights, &mu, &target, &mut out, radius, budget);
}

// 2^40; 2^-10, 2^48 and 2^12; 2^51 + 0.5; 2^20 + 0.1. Other readings: a centre summed up when its level is entered, at
// `by the path`; a coordinate's change as an exact integer, at `rounded change`; old·mu - new·mu, at `change times mu`;
// coordinates that are left set back to 0, at `not set back`; no update by a child whose sum fails, at `failed child`.
fn running() {
    let one_entry = [0.1, 0.0, 0.0, 0.0];
    let far = [0.3, 1099511627776.0, 0.0, 0.0, 0.0];
    of_24(b"by the path:", one_entry, far, 0.09, 100);
    of_24(b"by the path, farther:", one_entry, far, 0.25, 100);
    let large = [0.0009765625, 281474976710656.0, 4096.0, 0.0];
    let quarter = [0.0, 0.0, 0.0, 0.25, 0.0];
    of_24(b"rounded change:", large, quarter, 0.0625, 120);
    of_24(b"rounded change, 119 nodes:", large, quarter, 0.0625, 119);
    let tenths = [0.3, 0.0, 0.0, 0.0];
    let half = [0.0, 2251799813685248.5, 0.25, 0.0, 0.25];
    of_24(b"change times mu:", tenths, half, 0.5, 25);
    of_24(b"change times mu, 24 nodes:", tenths, half, 0.5, 24);
    let two_entries = [0.3333333333333333, 0.0, 0.0, 0.1];
    let left = [1048576.1, 2251799813685248.5, 0.25, 0.5, 0.0];
    of_24(b"not set back:", two_entries, left, 2.0, 73);
    of_24(b"not set back, 72 nodes:", two_entries, left, 2.0, 72);
    let thirds = [0.0, 0.3333333333333333, 0.0, 0.5, 0.0];
    of_24(b"failed child:", [1024.0, 0.0, 0.0, 0.0], thirds, 1.0, 70);
}

// Two levels, and over them 22 that take 0 alone.
fn below(name: &[u8], two: [f64; 2], entry: f64, first: [f64; 2], radius: f64, budget: u64) {
    let mut weights = [1048576.0; 24];
    weights[0] = two[0];
    weights[1] = two[1];
    let mu = mu_of_24([entry, 0.0, 0.0, 0.0]);
    let target = target_of_24([first[0], first[1], 0.0, 0.0, 0.0]);
    let mut out = [7; 24];
    nearest(name, &weights, &mu, &target, &mut out, radius, budget);
}

// The cases of two levels again, with 22 nodes more. Other readings: remaining refreshed, at G; no first test, at H; another
// direction first; the second of two equal points kept.
fn walks_of_24() {
    let small = [4.440892098500626e-16, 4.0];
    below(b"G, n = 24:", [1.0, 1.0], 0.5, [0.25, 0.5], 2.0, 27);
    below(b"H, n = 24:", small, 0.0, [0.5, 0.5], 1.0, 24);
    below(b"upward, n = 24:", [2.5, 0.3], 0.4, [0.5, 0.0], 0.6, 100);
    below(
        b"downward, n = 24:",
        [2.9, 0.4],
        -0.7,
        [-1.6, -0.1],
        0.6,
        26,
    );
    below(
        b"coordinate 0 first, n = 24:",
        [4.0, 4.0],
        1.5,
        [0.5, 1.5],
        2.0,
        100,
    );
}

// At `radius on entry` a centre is rounded otherwise, and there are 23 nodes more. Other readings: no second test at level
// 0; the call's R in R - partial; remaining refreshed.
fn tests_of_24() {
    let near = [0.5, 1.4901161193847656e-8];
    let large = [4.000000000000002, 1.5];
    below(
        b"second test, n = 24:",
        large,
        0.0,
        near,
        1.0000000000000007,
        25,
    );
    below(
        b"radius on entry, n = 24:",
        [2.1, 2.4],
        0.4,
        [0.0, 2.5],
        1.7,
        100,
    );
    below(
        b"remaining kept, n = 24:",
        [2.0, 1.6],
        0.0,
        [0.5, 2.8],
        1.4,
        100,
    );
}

// Weights 1, no entries; targets 0.5 at a few levels: eight points are equal.
fn equals_of_64() {
    let weights = [1.0; 64];
    let mut mu = [0.0; 4096];
    hide_unread(&mut mu, 64);
    let mut target = [0.0; 64];
    target[0] = 0.5;
    target[31] = -0.5;
    target[63] = 1.5;
    let mut out = [7; 64];
    nearest(
        b"n = 64, equals:",
        &weights,
        &mu,
        &target,
        &mut out,
        0.75,
        1000,
    );
}

fn searches_of_64() {
    let mut weights = [1.0; 64];
    weights[0] = 0.3;
    weights[31] = 2.5;
    weights[63] = 1.9;
    let mu = mu_of_64();
    let target = target_of_64();
    let mut out = [7; 64];
    nearest(b"n = 64, 15:", &weights, &mu, &target, &mut out, 4.0, 17136);
    nearest(b"n = 64, 16:", &weights, &mu, &target, &mut out, 2.2, 20000);
    nearest(b"n = 64:", &weights, &mu, &target, &mut out, 4.0, 17137);
}

// ---- the refusals' order: each call below is also wrong for a later one

// The target's and the output's length, the radius and the budget are wrong too.
fn table(name: &[u8], weights: &[f64], mu: &[f64]) {
    let target = [nan(), 1.5];
    let mut out = [7, -8, 9, i64::MIN];
    nearest(name, weights, mu, &target, &mut out, -1.0, EVERY);
}

// The entries and the weights are wrong too.
fn sizes() {
    let none = [0.0; 0];
    let weights_3 = [0.0, nan(), 1.0];
    let weights_65 = [0.0; 65];
    let mu_1 = [nan(); 1];
    let mu_8 = [nan(); 8];
    let mu_10 = [nan(); 10];
    let mu_4225 = [nan(); 4225];
    table(b"2 fewer entries:", &weights_3, &mu_8);
    table(b"2 more entries:", &weights_3, &mu_10);
    table(b"2 more weights:", &weights_65, &mu_4225);
    table(b"2 no weights:", &none, &mu_1);
}

fn entries(name: &[u8], a: f64, b: f64, c: f64, weights: [f64; 3]) {
    let mu = mu_of_three([a, b, c]);
    table(name, &weights, &mu);
}

// 3 comes before 4 even at a later entry, 4 before 5, and 2^52 is within the limit.
fn values() {
    entries(b"3 nan:", BEYOND, 1.0, nan(), [0.0, 1.0, 1.0]);
    entries(b"3 infinite:", BEYOND, -infinity(), nan(), [0.0, 1.0, 1.0]);
    entries(b"4:", LIMIT, -BEYOND, LARGEST, [nan(), 1.0, 1.0]);
    entries(b"5 zero:", LIMIT, -LIMIT, 0.0, [1.0, 0.0, nan()]);
    entries(b"5 minus zero:", LIMIT, -LIMIT, 0.0, [-0.0, 1.0, nan()]);
    entries(b"5 negative:", LIMIT, -LIMIT, 0.0, [1.0, 1.0, -1.0]);
    entries(
        b"5 infinite:",
        LIMIT,
        -LIMIT,
        0.0,
        [LARGEST, infinity(), 0.0],
    );
    entries(b"5 nan:", LIMIT, -LIMIT, 0.0, [nan(), infinity(), 0.0]);
    entries(
        b"6 after the table:",
        LIMIT,
        -LIMIT,
        0.0,
        [1.0, LARGEST, SMALLEST],
    );
}

fn lengths(name: &[u8], target: &[f64], out: &mut [i64]) {
    let weights = [1.0; 3];
    let mu = [0.5; 9];
    nearest(name, &weights, &mu, target, out, -1.0, EVERY);
}

// The target's length comes before the output's. The radius and the budget are wrong too.
fn sixes() {
    let two_targets = [nan(), 1.5];
    let three_targets = [nan(), 1.5, 1.5];
    let four_targets = [1.5, 1.5, 1.5, nan()];
    let mut two_places = [7, -8];
    let mut four_places = [7, -8, 9, i64::MIN];
    lengths(b"6 fewer targets:", &two_targets, &mut four_places);
    lengths(b"6 more targets:", &four_targets, &mut two_places);
    lengths(b"6 fewer places:", &three_targets, &mut two_places);
    lengths(b"6 more places:", &three_targets, &mut four_places);
}

// The first index counts, and 7 comes before 8, 8 before 9.
fn numbers() {
    let ones = [1.0; 3];
    let zeros = [0.0; 3];
    three(
        b"7 nan:",
        ones,
        zeros,
        [LIMIT, nan(), infinity()],
        -1.0,
        EVERY,
    );
    three(
        b"7 infinite:",
        ones,
        zeros,
        [infinity(), nan(), BEYOND],
        nan(),
        EVERY,
    );
    three(
        b"7 above:",
        ones,
        zeros,
        [LIMIT, -LIMIT, BEYOND],
        -1.0,
        EVERY,
    );
    three(b"7 below:", ones, zeros, [0.0, -BEYOND, nan()], -1.0, EVERY);
    three(b"8 negative:", ones, zeros, zeros, -SMALLEST, EVERY);
    three(b"8 infinite:", ones, zeros, zeros, infinity(), EVERY);
    three(b"8 minus infinite:", ones, zeros, zeros, -infinity(), EVERY);
    three(b"8 nan:", ones, zeros, zeros, nan(), EVERY);
    three(b"9:", ones, zeros, [0.0, 0.0, 0.5], 0.0, MOST + 1);
}

fn main() {
    cases_of_one();
    cases_of_two();
    directions();
    equals();
    tests();
    sums();
    found_distances();
    radii();
    budgets();
    centers();
    dimensions();
    running();
    walks_of_24();
    tests_of_24();
    equals_of_64();
    searches_of_64();
    sizes();
    values();
    sixes();
    numbers();
}
