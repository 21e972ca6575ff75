// What `prepared_nearest_ml` answers and leaves in the slice that it is lent. Each line of the output has a case's name,
// then `found`, the node count and the distance of the point before mapping, as the 16 hexadecimal digits of its bits, or
// the refusal's number with what it carries in brackets, then the slice at exit, in square brackets. Where a case parts
// the specification from another reading, its comment says so.
//
// The expected output of every call that the Rust knows is the Rust's: this program compiled as Rust, with the oracle in
// the place of the crate `prepared` (tools/oracle/examples/prepared_test.rs). The Rust's Range is 24; the lines of
// refusals 2 to 5, 9, 22 and 23, which the Rust has not, are the specification's.
#![tactic(auto)]

use printing::values::*;

// 2^42, 2^44 and 2^52.
const TWO_42: f64 = 4398046511104.0;

const SHEAR: i64 = 17592186044416;

const LARGEST_ELEMENT: i64 = 4503599627370496;

fn prepared(
    name: &[u8],
    weights: &[f64],
    mu: &[f64],
    transform: &[i64],
    inverse: &[i64],
    target: &[f64],
    out: &mut [i64],
    budget: u64,
) {
    printing::word(name);
    let a = prepared::prepared_nearest_ml(weights, mu, transform, inverse, target, out, budget);
    match a {
        Ok(point) => printing::found(point.nodes, point.distance),
        Err(e) => printing::verdict(Err(e)),
    }
    printing::integers(out);
    printing::newline();
}

// Weight 1.
fn one(name: &[u8], transform: &[i64], inverse: &[i64], target: &[f64], budget: u64) {
    let weights = [1.0];
    let mu = [nan()];
    let mut out = [i64::MAX];
    prepared(
        name, &weights, &mu, transform, inverse, target, &mut out, budget,
    );
}

// Weights 1.
fn two(name: &[u8], entry: f64, transform: &[i64], inverse: &[i64], target: [f64; 2], budget: u64) {
    let weights = [1.0, 1.0];
    let mu = mu_of_two(entry);
    let mut out = [7, i64::MIN];
    prepared(
        name, &weights, &mu, transform, inverse, &target, &mut out, budget,
    );
}

fn three(
    name: &[u8],
    entries: [f64; 3],
    transform: [i64; 9],
    inverse: [i64; 9],
    target: [f64; 3],
    budget: u64,
) {
    let weights = [1.0, 1.0, 1.0];
    let mu = mu_of_three(entries);
    let mut out = [i64::MIN, -8, i64::MAX];
    prepared(
        name, &weights, &mu, &transform, &inverse, &target, &mut out, budget,
    );
}

// ---- the two directions

// Other readings: mapping by the inverse; a transposed matrix; the target as it is given, or multiplied by the transform;
// the distance of the mapped point.
fn directions() {
    let forward = [1, 1, 2, 3];
    let back = [3, -1, -2, 1];
    let target = [1.25, 1.75];
    two(b"G", 0.5, &forward, &back, target, 100);
    two(b"G exchanged", 0.5, &back, &forward, target, 100);
    two(
        b"G transposed",
        0.5,
        &[1, 2, 1, 3],
        &[3, -2, -1, 1],
        target,
        100,
    );
    two(
        b"G half transposed",
        0.5,
        &forward,
        &[3, -2, -1, 1],
        target,
        100,
    );
    two(b"G, 2 nodes", 0.5, &forward, &back, target, 2);
    two(
        b"signs and order",
        0.5,
        &[0, -1, 1, 0],
        &[0, 1, -1, 0],
        target,
        100,
    );
}

// ---- sums

// Other readings: products that wrap; sums that are refused on their way, since two products are about 2^64.
fn products() {
    let forward = [1, 0, 4, 0, 1, -SHEAR, 0, 0, 1];
    let back = [1, 0, -4, 0, 1, SHEAR, 0, 0, 1];
    let entries = [-TWO_42, 0.0, -4194304.0];
    let target = [0.0, 0.0, -0.25];
    three(
        b"beyond i64 on the way",
        entries,
        forward,
        back,
        target,
        1000,
    );
    three(b"the same, 770 nodes", entries, forward, back, target, 770);
    two(
        b"each part of a product",
        17179869182.0,
        &[1, 134217727, 0, 1],
        &[1, -134217727, 0, 1],
        [0.0, -0.5],
        100,
    );
    let identity = [1, 0, 0, 0, 1, 0, 0, 0, 1];
    three(
        b"from -2^63",
        [LIMIT, 0.0, -4096.0],
        identity,
        identity,
        [0.0, 0.0, 0.5],
        10000,
    );
    one(b"1 modulo 2^64", &[274177], &[67280421310721], &[0.0], 100);
    let mut largest = [1, LARGEST_ELEMENT, 0, 1];
    let mut opposite = [1, -LARGEST_ELEMENT, 0, 1];
    two(
        b"elements 2^52",
        0.0,
        &largest,
        &opposite,
        [0.25, 0.25],
        100,
    );
    two(
        b"elements -2^52",
        0.0,
        &opposite,
        &largest,
        [0.25, 0.25],
        100,
    );
    largest[1] = 4096;
    opposite[1] = -4096;
    two(b"to -2^63", LIMIT, &largest, &opposite, [0.0, -0.5], 100);
    opposite[3] = -1;
    two(
        b"to 2^63 - 1",
        LIMIT,
        &opposite,
        &opposite,
        [0.0, -0.5],
        100,
    );
}

// Other readings: rows falling, or the sum without rounding, at `rows rising`; a product that is not rounded before it is
// added, at `rounded product`.
fn rounded_sums() {
    let forward = [1, 0, 0, -1, 1, 0, 1, 0, 1];
    let back = [1, 0, 0, 1, 1, 0, -1, 0, 1];
    three(
        b"rows rising",
        [0.0, 0.0, 0.0],
        forward,
        back,
        [LIMIT, 0.5, LIMIT],
        100,
    );
    two(
        b"rounded product",
        0.0,
        &[1, 0, 3, 1],
        &[1, 0, -3, 1],
        [3.0, 1.0000000000000002],
        100,
    );
    one(b"minus zero", &[-1], &[-1], &[0.0], 100);
}

// ---- 22 and 23

// Other readings: 6 before 22; the inverse's indices from 0; the inverse looked at first; a length after the elements;
// the magnitude of -2^63 taken as negative.
fn matrices() {
    let target = [0.25, 0.25];
    one(b"a long transform", &[1, 0], &[1], &[], 100);
    one(b"a short inverse", &[1], &[], &[], 100);
    two(
        b"a length before an element",
        0.0,
        &[1, LARGEST_ELEMENT + 1, 0, 1],
        &[1, 0, 0],
        target,
        100,
    );
    one(b"the transform's 0", &[LARGEST_ELEMENT + 1], &[1], &[], 100);
    one(b"the inverse's 0", &[1], &[-LARGEST_ELEMENT - 1], &[], 100);
    two(
        b"the inverse's 3",
        0.0,
        &[1, 0, 0, 1],
        &[1, 0, 0, i64::MIN],
        target,
        100,
    );
    two(
        b"both matrices",
        0.0,
        &[1, 0, i64::MIN, 1],
        &[i64::MAX, 0, 0, 1],
        target,
        100,
    );
    one(b"not inverse", &[2], &[1], &[], 100);
    two(
        b"one element off",
        0.5,
        &[1, 1, 2, 3],
        &[3, -1, -2, 2],
        target,
        100,
    );
    two(b"singular", 0.5, &[0, 0, 0, 0], &[0, 0, 0, 0], target, 100);
}

// ---- the order of the others

// Other readings: 7 of the transformed target without its limit, or after 9; its index that of a row, at `twice 2^52`.
fn targets() {
    let shear = [1, 1, 0, 1];
    let back = [1, -1, 0, 1];
    let most = 2305843009213693952;
    one(b"no target", &[-1], &[-1], &[], EVERY);
    one(b"a target that is no number", &[-1], &[-1], &[nan()], EVERY);
    one(b"a target above 2^52", &[-1], &[-1], &[BEYOND], EVERY);
    two(
        b"transformed above 2^52",
        0.0,
        &back,
        &shear,
        [LIMIT, LIMIT],
        most,
    );
    two(
        b"twice 2^52",
        0.0,
        &[1, -2, 0, 1],
        &[1, 2, 0, 1],
        [LIMIT, 0.0],
        100,
    );
    two(
        b"transformed to 2^52",
        0.0,
        &back,
        &shear,
        [LIMIT, 0.0],
        100,
    );
    two(b"budget 2^61", 0.0, &back, &shear, [0.0, 0.0], most);
}

// Other readings: 6 of the output first; 23 before 2 to 5.
fn lengths() {
    let mut none = [0i64; 0];
    prepared(
        b"no output",
        &[1.0],
        &[0.0],
        &[1],
        &[1],
        &[0.0],
        &mut none,
        100,
    );
    prepared(
        b"a long target, no output",
        &[1.0],
        &[0.0],
        &[1],
        &[1],
        &[0.0, 0.0],
        &mut none,
        100,
    );
    prepared(b"no level", &[], &[], &[], &[], &[], &mut none, 0);
    prepared(
        b"a weight of 0",
        &[0.0],
        &[0.0],
        &[2],
        &[1],
        &[],
        &mut none,
        100,
    );
    prepared(b"no mu", &[1.0], &[], &[2], &[1], &[], &mut none, 100);
}

// 11 and 13: weights of the largest double, targets 1/2, and the identity.
fn candidates() {
    let targets = [0.5; 5];
    let weights = [LARGEST; 5];
    let mu = [0.0; 25];
    let four = [1, 0, 0, 0, 0, 1, 0, 0, 0, 0, 1, 0, 0, 0, 0, 1];
    let five = [
        1, 0, 0, 0, 0, 0, 1, 0, 0, 0, 0, 0, 1, 0, 0, 0, 0, 0, 1, 0, 0, 0, 0, 0, 1,
    ];
    let mut out = [3, 3, 3, 3, 3];
    prepared(
        b"a distance that is not finite",
        &weights,
        &mu,
        &five,
        &five,
        &targets,
        &mut out,
        100,
    );
    let short_weights = [LARGEST; 4];
    let short_mu = [0.0; 16];
    let short_targets = [0.5; 4];
    let mut short_out = [3, 3, 3, 3];
    prepared(
        b"a widened radius that is not finite",
        &short_weights,
        &short_mu,
        &four,
        &four,
        &short_targets,
        &mut short_out,
        100,
    );
}

// ---- 24

// Other readings: 24 before 15; the last column; the coordinate saturated.
fn outside() {
    let wide = [8192, 8191, 1, 1];
    let back = [1, -8191, -1, 8192];
    let shear = [1, 4096, 0, -1];
    two(b"both columns", LIMIT, &wide, &back, [-0.5, -0.5], 100);
    two(
        b"both columns, 3 nodes",
        LIMIT,
        &wide,
        &back,
        [-0.5, -0.5],
        3,
    );
    two(
        b"column 1, -2^63 - 1",
        LIMIT,
        &shear,
        &shear,
        [0.0, -0.5],
        100,
    );
    two(
        b"column 1, 2^63",
        LIMIT,
        &[1, -4096, 0, -1],
        &[1, -4096, 0, -1],
        [0.0, 0.5],
        100,
    );
    two(b"column 1, 0 nodes", LIMIT, &shear, &shear, [0.0, -0.5], 0);
}

// ---- the largest dimension

// The identity with k at 506, 517 and 527, in the last row.
fn last_row(k: i64) -> [i64; 529] {
    let mut matrix = [0i64; 529];
    for i in 0..23 {
        matrix[24 * i] = 1;
    }
    matrix[506] = k;
    matrix[517] = k;
    matrix[527] = k;
    matrix
}

fn largest_dimension() {
    let weights = [1.0; 23];
    let mu = mu_of_23();
    let target = target_of_23();
    let mut out = [-1; 23];
    let forward = last_row(5);
    let back = last_row(-5);
    prepared(
        b"n = 23", &weights, &mu, &forward, &back, &target, &mut out, 100000,
    );
    prepared(
        b"n = 23, not inverse",
        &weights,
        &mu,
        &forward,
        &forward,
        &target,
        &mut out,
        100000,
    );
}

fn main() {
    directions();
    products();
    rounded_sums();
    matrices();
    targets();
    lengths();
    candidates();
    outside();
    largest_dimension();
}
