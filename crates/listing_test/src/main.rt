// What `list` answers and leaves in the slices that it is lent. Each line of the output has a case's name, then `found`
// with the nodes and the points, or the refusal's number with what it carries in brackets, then the distances at exit,
// as the 16 hexadecimal digits of their bits, and the points at exit, each in square brackets. Before the call the
// distances are negative and the points are above 100, and so they must be after a refusal and past the last point.
// Where a case parts the specification from another reading, its comment names that.
//
// The expected output of every call that the Rust knows is the Rust's: this program compiled as Rust, with the oracle
// in the place of the crate `listing` (tools/oracle/examples/listing_test.rs). The lines of refusals 2 to 5, 9, 14 and
// 18, which the Rust does not have, are the specification's.
#![tactic(auto)]

use listing::ListFound;
use printing::values::*;
use refusals::Refusal;

fn answered(answer: Result<ListFound, Refusal>) {
    match answer {
        Ok(list) => {
            printing::word(b" found");
            printing::count(list.nodes);
            printing::count(list.points as u64);
        }
        Err(e) => printing::verdict(Err(e)),
    }
}

fn list(
    name: &[u8],
    weights: &[f64],
    mu: &[f64],
    target: &[f64],
    distances: &mut [f64],
    points: &mut [i64],
    radius: f64,
    budget: u64,
) {
    printing::word(name);
    answered(listing::list(weights, mu, target, distances, points, radius, budget));
    printing::doubles(distances);
    printing::integers(points);
    printing::newline();
}

fn one(name: &[u8], weight: f64, target: f64, radius: f64, budget: u64) {
    let weights = [weight];
    let mu = [nan()];
    let targets = [target];
    let mut distances = [-1.0, -2.0, -3.0, -4.0, -5.0];
    let mut points = [101, 102, 103, 104, 105];
    list(
        name,
        &weights,
        &mu,
        &targets,
        &mut distances,
        &mut points,
        radius,
        budget,
    );
}

fn two_into(
    name: &[u8],
    weights: [f64; 2],
    entry: f64,
    target: [f64; 2],
    distances: &mut [f64],
    points: &mut [i64],
    radius: f64,
    budget: u64,
) {
    let mu = mu_of_two(entry);
    list(
        name, &weights, &mu, &target, distances, points, radius, budget,
    );
}

// Six places.
fn two(name: &[u8], weights: [f64; 2], entry: f64, target: [f64; 2], radius: f64, budget: u64) {
    let mut distances = [-1.0, -2.0, -3.0, -4.0, -5.0, -6.0];
    let mut points = [101, 102, 103, 104, 105, 106, 107, 108, 109, 110, 111, 112];
    two_into(
        name,
        weights,
        entry,
        target,
        &mut distances,
        &mut points,
        radius,
        budget,
    );
}

fn three_into(
    name: &[u8],
    weights: [f64; 3],
    entries: [f64; 3],
    target: [f64; 3],
    distances: &mut [f64],
    points: &mut [i64],
    radius: f64,
    budget: u64,
) {
    let mu = mu_of_three(entries);
    list(
        name, &weights, &mu, &target, distances, points, radius, budget,
    );
}

// Nine places.
fn three(
    name: &[u8],
    weights: [f64; 3],
    entries: [f64; 3],
    target: [f64; 3],
    radius: f64,
    budget: u64,
) {
    let mut distances = [-1.0, -2.0, -3.0, -4.0, -5.0, -6.0, -7.0, -8.0, -9.0];
    let mut points = [103; 27];
    three_into(
        name,
        weights,
        entries,
        target,
        &mut distances,
        &mut points,
        radius,
        budget,
    );
}

// ---- the specification's cases

fn no_dimension(name: &[u8], distances: &mut [f64], points: &mut [i64], radius: f64, budget: u64) {
    let none = [0.0; 0];
    list(name, &none, &none, &none, distances, points, radius, budget);
}

// One point of no coordinates. Its distance is plus zero, also where the radius is minus zero.
fn dimension_zero() {
    let mut none = [0.0; 0];
    let mut single = [-1.0];
    let mut again = [-1.0];
    let mut several = [-1.0, -2.0, -3.0];
    let mut no_points = [0i64; 0];
    no_dimension(b"A:", &mut single, &mut no_points, 0.0, 0);
    no_dimension(b"A, radius -0:", &mut again, &mut no_points, -0.0, 0);
    no_dimension(
        b"A, more places:",
        &mut several,
        &mut no_points,
        LARGEST,
        MOST,
    );
    no_dimension(b"A, no place:", &mut none, &mut no_points, 0.0, 0);
}

// Other readings: a shrinking radius, at F and G; a node early or late out of budget, at B, D, E and F; out of budget
// before the first test, at C.
fn cases_of_one() {
    one(b"B:", 4.0, 0.75, 0.25, 1);
    one(b"C:", 4.0, 0.75, 0.125, 0);
    one(b"D:", 4.0, 0.75, 0.25, 0);
    one(b"E:", 1.0, 0.5, 1.0, 2);
    one(b"F:", 1.0, 0.5, 1.0, 1);
    one(b"K:", 1.0, LIMIT, 0.0, 1);
    one(b"K past the limit:", 1.0, BEYOND, 0.0, 1);
}

// The weight and the radii of H and I: 2^-51, 1, 1 + 2^-52. Other readings: no first test, at H.
fn cases_of_two() {
    let halves = [0.5, 0.5];
    let weights = [4.440892098500626e-16, 4.0];
    two(b"G:", [1.0, 1.0], 0.5, [0.25, 0.5], 2.0, 100);
    two(b"G, 7 nodes:", [1.0, 1.0], 0.5, [0.25, 0.5], 2.0, 7);
    two(b"G, 6 nodes:", [1.0, 1.0], 0.5, [0.25, 0.5], 2.0, 6);
    two(b"H:", weights, 0.0, halves, 1.0, 2);
    two(b"H, 1 node:", weights, 0.0, halves, 1.0, 1);
    two(b"I:", weights, 0.0, halves, 1.0000000000000002, 6);
    two(b"I, 5 nodes:", weights, 0.0, halves, 1.0000000000000002, 5);
}

// ---- the order

// Other readings: compared from the last coordinate; the order of the walk; by magnitude; the larger first. At `next to
// a tie` the target is 0.5 + 2^-53, and the larger point is nearer by little.
fn equals() {
    let ones = [1.0, 1.0];
    two(b"four equal:", ones, 0.0, [0.5, 0.5], 0.5, 100);
    two(b"four equal, negative:", ones, 0.0, [-0.5, -0.5], 0.5, 100);
    two(b"four equal, both signs:", ones, 0.0, [0.0, 0.0], 1.0, 100);
    two(b"with an entry:", [4.0, 4.0], 1.5, [0.5, 1.5], 2.0, 100);
    two(
        b"equal at two distances:",
        ones,
        -0.5,
        [0.25, -0.5],
        2.0,
        100,
    );
    one(b"pairs:", 1.0, -0.5, 2.25, 100);
    one(b"next to a tie:", 1.0, 0.5000000000000001, 1.0, 100);
    three(
        b"eight equal:",
        [1.0, 1.0, 1.0],
        [0.0, 0.0, 0.0],
        [0.5, -0.5, 0.5],
        0.75,
        100,
    );
}

// ---- the places

// Five points, in places of every number. Before 18 the whole list is walked for the budget, and with no point there
// is no 18.
fn places(name: &[u8], distances: &mut [f64], points: &mut [i64], budget: u64) {
    two_into(
        name,
        [1.0, 1.0],
        0.5,
        [0.25, 0.5],
        distances,
        points,
        2.0,
        budget,
    );
}

// Other readings: 18 with the number of places, or with one more; 18 as soon as the places are full; the first points
// written.
fn full() {
    let mut none = [0.0; 0];
    let mut no_points = [0i64; 0];
    let mut one_distance = [-1.0];
    let mut two_points = [101, 102];
    let mut four = [-1.0, -2.0, -3.0, -4.0];
    let mut eight = [101, 102, 103, 104, 105, 106, 107, 108];
    let mut five = [-1.0, -2.0, -3.0, -4.0, -5.0];
    let mut ten = [101, 102, 103, 104, 105, 106, 107, 108, 109, 110];
    places(b"no place, 6 nodes:", &mut none, &mut no_points, 6);
    places(b"no place:", &mut none, &mut no_points, 7);
    places(
        b"one place, 6 nodes:",
        &mut one_distance,
        &mut two_points,
        6,
    );
    places(b"one place:", &mut one_distance, &mut two_points, 7);
    places(b"four places, no budget:", &mut four, &mut eight, 0);
    places(b"four places, 6 nodes:", &mut four, &mut eight, 6);
    places(b"four places:", &mut four, &mut eight, 7);
    places(b"five places, 6 nodes:", &mut five, &mut ten, 6);
    places(b"five places:", &mut five, &mut ten, 7);
}

fn no_point() {
    let mut none = [0.0; 0];
    let mut no_points = [0i64; 0];
    let weights = [4.0, 4.0];
    let target = [0.75, 0.75];
    two(b"no point:", weights, 0.0, target, 0.125, 0);
    two(b"no point, a node:", weights, 0.0, target, 0.25, 1);
    two_into(
        b"no point, no place:",
        weights,
        0.0,
        target,
        &mut none,
        &mut no_points,
        0.25,
        1,
    );
    two_into(
        b"no point, no place, no budget:",
        weights,
        0.0,
        target,
        &mut none,
        &mut no_points,
        0.25,
        0,
    );
}

// ---- the two tests

// Other readings: the call's R for R - partial, at `first test`; no second test at level 0, where the weights are
// 4 + 2^-49 and 1.5, the target 2^-26 and the radius 1 + 3·2^-52; R - partial exact, where a target is 2^-27.
fn tests() {
    let weights = [4.000000000000002, 1.5];
    let target = [0.5, 1.4901161193847656e-8];
    let near = [0.5, 7.450580596923828e-9];
    two(b"first test:", [0.8, 3.0], 0.4, [2.0, 2.5], 0.8, 100);
    two(b"second test:", weights, 0.0, target, 1.0000000000000007, 3);
    two(b"rounded upward:", [4.0, 1.0], 0.0, near, 1.0, 100);
}

// Other readings: pruning where a term or a sum equals its bound, at `every bound met`; a direction left out.
fn directions() {
    two(b"every bound met:", [4.0, 1.0], 1.5, [2.5, 3.0], 1.0, 100);
    one(b"upward only:", 1.0, 0.25, 0.75, 100);
    one(b"downward only:", 1.0, -0.25, 0.75, 100);
    one(b"five points:", 1.0, 0.25, 5.1, 100);
}

// Other readings: levels summed upward; a centre's products added from j = n-1 down, or its target last; a product fused
// with its addition; t·mu - z·mu; weight·(d·d).
fn sums() {
    three(
        b"levels downward:",
        [0.6, 1.8, 0.2],
        [0.8, 1.0, -0.1],
        [0.5, 2.5, 0.5],
        0.7,
        100,
    );
    three(
        b"center rising:",
        [1.2, 0.8, 2.5],
        [-1.0, 0.3, 0.0],
        [-1.0, 1.5, 1.6],
        1.9,
        100,
    );
    three(
        b"center not fused:",
        [1.1, 3.0, 2.4],
        [0.9, -0.9, -0.7],
        [2.5, -1.9, 0.1],
        2.2,
        100,
    );
    two(b"partial not fused:", [2.2, 1.7], 0.8, [0.0, 0.5], 2.8, 100);
    two(b"difference first:", [2.7, 1.5], 0.3, [0.5, 2.5], 1.5, 100);
    one(b"weight first:", 2.1, 0.45, 5.1, 100);
}

// ---- the ends of the domain

fn ends() {
    let ones = [1.0, 1.0];
    one(b"radius -0:", 2.0, 3.0, -0.0, 1);
    one(b"radius -0, no node:", 2.0, 3.0, -0.0, 0);
    one(b"radius -0, two points:", SMALLEST, 0.5, -0.0, 2);
    one(b"smallest radius:", SMALLEST, 0.75, SMALLEST, 100);
    one(b"largest radius:", LARGEST, 0.25, LARGEST, 100);
    one(b"largest radius, 50 nodes:", 1.0, 0.25, LARGEST, 50);
    one(b"target 2^52:", 1.0, LIMIT, 4.0, 100);
    one(b"target -2^52:", 1.0, -LIMIT, 4.0, 100);
    one(b"target 2^52 - 0.5:", 1.0, 4503599627370495.5, 2.25, 100);
    one(b"target 0.5 - 2^52:", 1.0, -4503599627370495.5, 2.25, 100);
    two(b"targets 2^52:", ones, 0.0, [LIMIT, -LIMIT], 1.0, 100);
    two(
        b"targets 2^52, entry 2^52:",
        ones,
        LIMIT,
        [-LIMIT, LIMIT],
        0.5,
        100,
    );
    one(b"budget 2^60:", 1.0, 0.5, 1.0, MOST);
    one(b"budget 2^60 + 1:", 1.0, 0.5, 1.0, MOST + 1);
}

// ---- many points

// The sum of the values as doubles, each times its place counted from 1.
fn weighed<T: Copy, F: Fn(T) -> f64>(values: &[T], double: F) -> f64
    requires { F.IsAlwaysCallable double }
{
    let mut sum = 0.0;
    let mut place = 0.0;
    for value in values {
        place += 1.0;
        sum += place * double(*value);
    }
    sum
}

fn first<T>(values: &[T], k: usize) -> &[T] {
    &values[..k.min(values.len())]
}

fn last<T>(values: &[T], k: usize) -> &[T] {
    &values[values.len() - k.min(values.len())..]
}

// The first and the last few distances and coordinates.
fn ends_of(distances: &[f64], points: &[i64], shown: usize, coordinates: usize) {
    printing::doubles(first(distances, shown));
    printing::integers(first(points, coordinates));
    printing::doubles(last(distances, shown));
    printing::integers(last(points, coordinates));
    printing::newline();
}

// For the slices stand the first and the last few distances and coordinates.
fn few(
    name: &[u8],
    weights: &[f64],
    mu: &[f64],
    target: &[f64],
    distances: &mut [f64],
    points: &mut [i64],
    radius: f64,
    budget: u64,
    shown: usize,
    coordinates: usize,
) {
    printing::word(name);
    answered(listing::list(weights, mu, target, distances, points, radius, budget));
    ends_of(distances, points, shown, coordinates);
}

// The same, with the weighed sums before them. Each of these is exact.
fn summed(
    name: &[u8],
    weights: &[f64],
    mu: &[f64],
    target: &[f64],
    distances: &mut [f64],
    points: &mut [i64],
    radius: f64,
    budget: u64,
    shown: usize,
    coordinates: usize,
) {
    printing::word(name);
    answered(listing::list(weights, mu, target, distances, points, radius, budget));
    printing::double(weighed(distances, |x| x));
    printing::double(weighed(points, rounding::to_double));
    ends_of(distances, points, shown, coordinates);
}

// Pairs of equal points. Every place is taken.
fn line() {
    let weights = [1.0];
    let mu = [0.0];
    let target = [0.5];
    let mut distances = [-1.0; 4096];
    let mut points = [103; 4096];
    summed(
        b"4096 in a line:",
        &weights,
        &mu,
        &target,
        &mut distances,
        &mut points,
        4192256.25,
        4096,
        3,
        3,
    );
}

fn disc() {
    let weights = [1.0, 1.0];
    let mu = [0.0, 0.0, 0.5, 0.0];
    let target = [0.25, 0.5];
    let mut distances = [-1.0; 64];
    let mut points = [103; 128];
    summed(
        b"disc:",
        &weights,
        &mu,
        &target,
        &mut distances,
        &mut points,
        19.0,
        1000,
        8,
        16,
    );
}

// Every place is taken, and all points are equal.
fn equal() {
    let weights = [1.0; 5];
    let mu = [0.0; 25];
    let target = [0.5; 5];
    let mut distances = [-1.0; 32];
    let mut points = [103; 160];
    summed(
        b"32 equal:",
        &weights,
        &mu,
        &target,
        &mut distances,
        &mut points,
        1.25,
        1000,
        2,
        10,
    );
}

// Eight points.
fn dimension_23() {
    let weights = [1.0; 23];
    let mu = [0.0; 529];
    let mut target = [0.125; 23];
    target[0] = 0.5;
    target[11] = -0.5;
    target[22] = 0.5;
    let mut distances = [-1.0; 9];
    let mut points = [103; 207];
    list(
        b"dimension 23:",
        &weights,
        &mu,
        &target,
        &mut distances,
        &mut points,
        1.0625,
        94,
    );
}

// Level 0 has its centre at -2^63 and at 2^63, with 513 and 512 children that share a double, and all are equal. Other
// readings: coordinates compared by their difference, or as doubles.
fn both_ends() {
    let weights = [1.0, 1.0, 1.0];
    let mu = [0.0, 0.0, 0.0, 4096.0, 0.0, 0.0, 0.0, LIMIT, 0.0];
    let target = [0.0, 0.0, 0.5];
    let mut distances = [-1.0; 1025];
    let mut points = [103; 3075];
    few(
        b"both ends of i64:",
        &weights,
        &mu,
        &target,
        &mut distances,
        &mut points,
        0.25,
        2000,
        2,
        6,
    );
}

fn many() {
    line();
    disc();
    equal();
    dimension_23();
    both_ends();
}

// ---- dimensions from 24 on: running centres

// Four places.
fn of_24(name: &[u8], entries: [f64; 4], first: [f64; 5], radius: f64, budget: u64) {
    let weights = [1.0; 24];
    let mu = mu_of_24(entries);
    let target = target_of_24(first);
    let mut distances = [-1.0, -2.0, -3.0, -4.0];
    let mut points = [103; 96];
    list(
        name,
        &weights,
        &mu,
        &target,
        &mut distances,
        &mut points,
        radius,
        budget,
    );
}

// The first table and target of dimension 24, cut to 23: here a centre is summed up, and there is a point. Another
// reading: running centres for every n.
fn summed_up() {
    let weights = [1.0; 23];
    let mut mu = [0.0; 529];
    mu[23] = 0.1;
    hide_unread(&mut mu, 23);
    let mut target = [0.0; 23];
    target[0] = 0.3;
    target[1] = 1099511627776.0;
    let mut distances = [-1.0, -2.0];
    let mut points = [103; 46];
    list(
        b"summed up, n = 23:",
        &weights,
        &mu,
        &target,
        &mut distances,
        &mut points,
        0.09,
        23,
    );
}

// 2^40; 2^51 + 0.5; 2^20 + 0.1. Other readings: a centre summed up when its level is entered, at `by the path`;
// old·mu - new·mu, at `change times mu`; coordinates that are left set back to 0, at `not set back`.
fn running() {
    let one_entry = [0.1, 0.0, 0.0, 0.0];
    let far = [0.3, 1099511627776.0, 0.0, 0.0, 0.0];
    of_24(b"by the path:", one_entry, far, 0.09, 23);
    of_24(b"by the path, 22 nodes:", one_entry, far, 0.09, 22);
    of_24(b"by the path, farther:", one_entry, far, 0.25, 24);
    let tenths = [0.3, 0.0, 0.0, 0.0];
    let half = [0.0, 2251799813685248.5, 0.25, 0.0, 0.25];
    of_24(b"change times mu:", tenths, half, 0.5, 26);
    of_24(b"change times mu, 25 nodes:", tenths, half, 0.5, 25);
    let two_entries = [0.3333333333333333, 0.0, 0.0, 0.1];
    let left = [1048576.1, 2251799813685248.5, 0.25, 0.5, 0.0];
    of_24(b"not set back:", two_entries, left, 0.7, 32);
}

// Two levels, and over them 22 that take 0 alone. Five places.
fn below(name: &[u8], two: [f64; 2], entry: f64, first: [f64; 2], radius: f64, budget: u64) {
    let mut weights = [1048576.0; 24];
    weights[0] = two[0];
    weights[1] = two[1];
    let mu = mu_of_24([entry, 0.0, 0.0, 0.0]);
    let target = target_of_24([first[0], first[1], 0.0, 0.0, 0.0]);
    let mut distances = [-1.0, -2.0, -3.0, -4.0, -5.0];
    let mut points = [103; 120];
    list(
        name,
        &weights,
        &mu,
        &target,
        &mut distances,
        &mut points,
        radius,
        budget,
    );
}

// The cases of two levels again, each with 22 nodes more. Other readings: a shrinking radius, at G; the call's R for
// R - partial; no second test at level 0.
fn walks_of_24() {
    let large = [4.000000000000002, 1.5];
    let near = [0.5, 1.4901161193847656e-8];
    below(b"G, n = 24:", [1.0, 1.0], 0.5, [0.25, 0.5], 2.0, 29);
    below(
        b"first test, n = 24:",
        [0.8, 3.0],
        0.4,
        [2.0, 2.5],
        0.8,
        100,
    );
    below(
        b"second test, n = 24:",
        large,
        0.0,
        near,
        1.0000000000000007,
        25,
    );
}

// 49 points, of which the first and the last two are shown.
fn rounded_change(name: &[u8], distances: &mut [f64], points: &mut [i64], budget: u64) {
    let weights = [1.0; 24];
    let mu = mu_of_24([0.0009765625, 281474976710656.0, 4096.0, 0.0]);
    let target = target_of_24([0.0, 0.0, 0.0, 0.25, 0.0]);
    few(
        name, &weights, &mu, &target, distances, points, 0.0625, budget, 2, 48,
    );
}

// The entries are 2^-10, 2^48 and 2^12. Another reading: a coordinate's change as an exact integer.
fn rounded_changes() {
    let mut distances = [-1.0; 49];
    let mut points = [103; 1176];
    let mut more = [-1.0; 256];
    let mut more_points = [103; 6144];
    rounded_change(b"rounded change:", &mut distances, &mut points, 120);
    rounded_change(
        b"rounded change, 119 nodes:",
        &mut more,
        &mut more_points,
        119,
    );
    rounded_change(
        b"rounded change, 256 places:",
        &mut more,
        &mut more_points,
        120,
    );
}

// Eight points, all equal.
fn equals_of_64(name: &[u8], distances: &mut [f64], points: &mut [i64]) {
    let weights = [1.0; 64];
    let mut mu = [0.0; 4096];
    hide_unread(&mut mu, 64);
    let mut target = [0.0; 64];
    target[0] = 0.5;
    target[31] = -0.5;
    target[63] = 1.5;
    summed(
        name, &weights, &mu, &target, distances, points, 0.75, 1000, 2, 64,
    );
}

fn dimension_64() {
    let mut seven = [-1.0; 7];
    let mut seven_points = [103; 448];
    let mut eight = [-1.0; 8];
    let mut eight_points = [103; 512];
    equals_of_64(b"n = 64, 7 places:", &mut seven, &mut seven_points);
    equals_of_64(b"n = 64, 8 places:", &mut eight, &mut eight_points);
}

// Seven points.
fn every_row() {
    let mut weights = [1.0; 64];
    weights[0] = 0.3;
    weights[31] = 2.5;
    weights[63] = 1.9;
    let mu = mu_of_64();
    let target = target_of_64();
    let mut distances = [-1.0; 8];
    let mut points = [103; 512];
    few(
        b"n = 64, every row:",
        &weights,
        &mu,
        &target,
        &mut distances,
        &mut points,
        2.5,
        28221,
        8,
        192,
    );
}

// ---- lists of more points than the call has room for

fn weights_of_many() -> [f64; 64] {
    let mut weights = [4.0; 64];
    weights[..7].fill(1.0);
    weights[7] = 0.5;
    weights[30] = 0.25;
    weights[63] = 0.125;
    weights
}

fn target_of_many() -> [f64; 64] {
    let mut target = [0.0; 64];
    target[..7].fill(0.5);
    target[7] = 0.25;
    target[30] = -0.25;
    target
}

// 2,176 points at 2.375, and 1,408 at 2.25.
fn many_of_64(name: &[u8], distances: &mut [f64], points: &mut [i64], radius: f64) {
    let weights = weights_of_many();
    let mut mu = [0.0; 4096];
    hide_unread(&mut mu, 64);
    let target = target_of_many();
    summed(
        name, &weights, &mu, &target, distances, points, radius, 8358, 3, 64,
    );
}

// The call has room for 1,472 points.
fn room_enough() {
    let mut distances = [-1.0; 4096];
    let mut points = [103; 262144];
    many_of_64(b"1408 in 4096 places:", &mut distances, &mut points, 2.25);
}

fn every_place() {
    let mut distances = [-1.0; 4096];
    let mut points = [103; 262144];
    many_of_64(b"2176 in 4096 places:", &mut distances, &mut points, 2.375);
}

fn as_many_places() {
    let mut distances = [-1.0; 2176];
    let mut points = [103; 139264];
    many_of_64(b"2176 in 2176 places:", &mut distances, &mut points, 2.375);
}

fn one_place_fewer() {
    let mut distances = [-1.0; 2175];
    let mut points = [103; 139200];
    many_of_64(b"2176 in 2175 places:", &mut distances, &mut points, 2.375);
}

fn longest() {
    room_enough();
    every_place();
    as_many_places();
    one_place_fewer();
}

// ---- the refusals' order: each call below is also wrong for a later one

// The target's length, the radius, the budget and the number of points are wrong too.
fn table(name: &[u8], weights: &[f64], mu: &[f64]) {
    let target = [nan(), 1.5];
    let mut distances = [-1.0, -2.0];
    let mut points = [101, 102, 103];
    list(
        name,
        weights,
        mu,
        &target,
        &mut distances,
        &mut points,
        -1.0,
        EVERY,
    );
}

fn tables() {
    let weights = [1.0, 0.0, nan()];
    let weights_65 = [0.0; 65];
    let mu_8 = [nan(); 8];
    let mu_4225 = [nan(); 4225];
    let mu_3 = [0.0, 0.0, 0.0, BEYOND, 0.0, 0.0, 1.0, nan(), 0.0];
    let mu_4 = [0.0, 0.0, 0.0, LIMIT, 0.0, 0.0, -BEYOND, BEYOND, 0.0];
    let mu_5 = [nan(), nan(), nan(), LIMIT, nan(), nan(), -LIMIT, 1.0, nan()];
    table(b"2 fewer entries:", &weights, &mu_8);
    table(b"2 more weights:", &weights_65, &mu_4225);
    table(b"3:", &weights, &mu_3);
    table(b"4:", &weights, &mu_4);
    table(b"5:", &weights, &mu_5);
}

// Two distances, three points and dimension 2, so 14 is due at the end.
fn call(name: &[u8], target: &[f64], radius: f64, budget: u64) {
    let weights = [1.0, 1.0];
    let mu = [nan(), nan(), 0.5, nan()];
    let mut distances = [-1.0, -2.0];
    let mut points = [101, 102, 103];
    list(
        name,
        &weights,
        &mu,
        target,
        &mut distances,
        &mut points,
        radius,
        budget,
    );
}

fn calls() {
    let shorter = [nan()];
    let longer = [0.0, 0.0, nan()];
    let not_finite = [LIMIT, -infinity()];
    let beyond = [-BEYOND, nan()];
    let target = [LIMIT, -LIMIT];
    call(b"6 fewer targets:", &shorter, -1.0, EVERY);
    call(b"6 more targets:", &longer, -1.0, EVERY);
    call(b"7 infinite:", &not_finite, -1.0, EVERY);
    call(b"7 below:", &beyond, nan(), EVERY);
    call(b"8 negative:", &target, -SMALLEST, EVERY);
    call(b"8 infinite:", &target, infinity(), EVERY);
    call(b"8 nan:", &target, nan(), EVERY);
    call(b"9:", &target, 2.0, MOST + 1);
    call(b"14 without budget:", &target, 2.0, 0);
    call(b"14 without points:", &target, -0.0, MOST);
}

// ---- refusal 14

// Four points within the radius, so 18 or 15 would come at the walk.
fn sized(name: &[u8], distances: &mut [f64], points: &mut [i64]) {
    two_into(name, [1.0, 1.0], 0.0, [0.5, 0.5], distances, points, 0.5, 5);
}

fn sizes() {
    let mut none = [0.0; 0];
    let mut three_distances = [-1.0, -2.0, -3.0];
    let mut no_points = [0i64; 0];
    let mut one_point = [101];
    let mut three_points = [101, 102, 103];
    let mut five_points = [101, 102, 103, 104, 105];
    let mut seven_points = [101, 102, 103, 104, 105, 106, 107];
    sized(b"14 fewer points:", &mut three_distances, &mut five_points);
    sized(b"14 more points:", &mut three_distances, &mut seven_points);
    sized(
        b"14 as many points:",
        &mut three_distances,
        &mut three_points,
    );
    sized(b"14 no points:", &mut three_distances, &mut no_points);
    sized(b"14 no distance:", &mut none, &mut one_point);
    no_dimension(
        b"14 n = 0:",
        &mut three_distances,
        &mut three_points,
        0.0,
        0,
    );
    no_dimension(b"14 n = 0, no distance:", &mut none, &mut one_point, 0.0, 0);
}

// One place more than the most, with as many points as are asked for.
fn too_many() {
    let weights = [1.0];
    let mu = [0.0];
    let target = [0.5];
    let mut distances = [-1.0; 4097];
    let mut points = [103; 4097];
    few(
        b"14 one too many:",
        &weights,
        &mu,
        &target,
        &mut distances,
        &mut points,
        1.0,
        100,
        2,
        2,
    );
}

fn too_many_of_none() {
    let none = [0.0; 0];
    let mut no_points = [0i64; 0];
    let mut distances = [-1.0; 4097];
    few(
        b"14 one too many, n = 0:",
        &none,
        &none,
        &none,
        &mut distances,
        &mut no_points,
        0.0,
        0,
        2,
        0,
    );
}

fn main() {
    dimension_zero();
    cases_of_one();
    cases_of_two();
    equals();
    full();
    no_point();
    tests();
    directions();
    sums();
    ends();
    many();
    summed_up();
    running();
    walks_of_24();
    rounded_changes();
    dimension_64();
    every_row();
    longest();
    tables();
    calls();
    sizes();
    too_many();
    too_many_of_none();
}
