// The computed distances of points from targets, by `triangular_distance`, and some answers of `center` and `term`
// alone. Each line of the output has a case's name and the 16 hexadecimal digits of the answer's bits; a total that
// overflows stands after the word `overflow`. Most cases part the specification from one other reading, which gives
// other bits there: the comments name it.
//
// The expected output was written by this program compiled as Rust, with the text of the Rust's `center` and
// `triangular_distance` in the place of the crate `distance`. A line of `center` came from the Rust's `center` at a
// point of zeros, a line of `term` from the Rust's `triangular_distance` at n = 1.
#![tactic(auto)]

use distance::Overflow;
use printing::values::*;
use printing::{double, newline, word};

fn say(name: &[u8], d: Result<f64, Overflow>) {
    word(name);
    match d {
        Ok(x) => double(x),
        Err(e) => {
            word(b" overflow");
            double(e.total);
        }
    }
    newline();
}

fn one(name: &[u8], weight: f64, target: f64, point: i64) {
    let mu = [nan()];
    let weights = [weight];
    let targets = [target];
    let points = [point];
    say(
        name,
        distance::triangular_distance(&mu, &weights, &targets, &points),
    );
}

fn two(name: &[u8], mu: [f64; 4], weights: [f64; 2], target: [f64; 2], point: [i64; 2]) {
    say(
        name,
        distance::triangular_distance(&mu, &weights, &target, &point),
    );
}

fn three(name: &[u8], mu: [f64; 9], weights: [f64; 3], target: [f64; 3], point: [i64; 3]) {
    say(
        name,
        distance::triangular_distance(&mu, &weights, &target, &point),
    );
}

fn none() {
    let doubles = [0.0; 0];
    let integers = [0i64; 0];
    say(
        b"n = 0:",
        distance::triangular_distance(&doubles, &doubles, &doubles, &integers),
    );
}

// Other readings: weight·(d·d) gives 0 at `smallest weight`; one rounding of the exact weight·d·d gives other bits
// there and at `rounded twice`; (weight·d)·center - (weight·d)·z at `not expanded`. Both zeros are plus zero.
fn single_terms() {
    one(b"B:", 4.0, 0.75, 1);
    one(b"smallest weight:", SMALLEST, 0.7, 0);
    one(b"rounded twice:", 1.5, 0.4, 0);
    one(b"not expanded:", 1.8, 0.8, 3);
    one(b"zero:", 3.0, 5.0, 5);
    one(b"minus zero:", 3.0, -0.0, 0);
}

// An integer becomes a double before it is subtracted, nearest-even. Other readings: the difference of the integer
// itself, at `even below`; a conversion that cuts, at `even above`.
fn large_points() {
    one(b"largest point:", 1.0, 0.5, i64::MAX);
    one(b"smallest point:", 1.0, -0.5, i64::MIN);
    one(b"even below:", 1.0, LIMIT, 9007199254740993);
    one(b"even above:", 1.0, LIMIT, 9007199254740995);
    two(
        b"both ends:",
        [0.0, 0.0, 1.0, 0.0],
        [1.0, 1.0],
        [0.0, 0.0],
        [i64::MAX, i64::MIN],
    );
    two(
        b"limits:",
        [0.0, 0.0, LIMIT, 0.0],
        [1.0, 1.0],
        [LIMIT, -LIMIT],
        [i64::MIN, i64::MAX],
    );
}

// A term that overflows, terms whose sum does, and terms whose sum is the largest double.
fn overflows() {
    one(b"term overflows:", LARGEST, 0.0, 2);
    two(
        b"sum overflows:",
        [0.0; 4],
        [1e308, 1e308],
        [0.0, 0.0],
        [1, 1],
    );
    two(
        b"largest double:",
        [0.0; 4],
        [LARGEST, 1.0],
        [0.0, 0.0],
        [1, 1],
    );
}

fn g(point: [i64; 2]) {
    two(b"G:", [0.0, 0.0, 0.5, 0.0], [1.0, 1.0], [0.25, 0.5], point);
}

// The bench cases G, at its five points, and H, where a term is lost in the sum.
fn bench() {
    g([0, 1]);
    g([0, 0]);
    g([1, 0]);
    g([-1, 1]);
    g([1, 1]);
    two(
        b"H:",
        [0.0; 4],
        [4.440892098500626e-16, 4.0],
        [0.5, 0.5],
        [1, 0],
    );
}

// Other readings: weight·(d·d) at `product order`; a multiplication fused with the addition that follows it, in the
// centre, of (weight·d)·d or of weight·(d·d) into the partial sum.
fn roundings() {
    two(
        b"product order:",
        [0.4, -0.5, -0.8, -0.7],
        [0.6, 1.5],
        [0.6, -0.9],
        [0, 1],
    );
    two(
        b"centre not fused:",
        [0.7, 0.3, -0.7, 0.8],
        [1.7, 1.4],
        [0.9, 0.5],
        [-3, -2],
    );
    two(
        b"sum not fused:",
        [0.8, -0.6, -0.3, 0.8],
        [0.2, 0.3],
        [-2.0, 1.8],
        [1, -1],
    );
    two(
        b"sum of squares not fused:",
        [-0.4, 0.1, 0.9, 0.6],
        [1.7, 1.8],
        [-1.5, -1.7],
        [-2, -2],
    );
}

// Other readings: target·mu - z·mu for (target - z)·mu, rounded twice or fused; a centre that starts with
// target - z of its own level; a centre that adds the products first and its target last.
fn center_steps() {
    two(
        b"difference first:",
        [0.8, -0.4, 0.4, 0.2],
        [1.8, 1.5],
        [0.2, 1.5],
        [0, 1],
    );
    two(
        b"difference not fused:",
        [0.5, 0.6, 0.4, -0.7],
        [0.6, 0.5],
        [-2.0, -1.1],
        [0, 3],
    );
    two(
        b"point last:",
        [-0.2, -0.9, 0.3, 0.1],
        [0.3, 1.6],
        [0.4, 1.3],
        [-2, 1],
    );
    three(
        b"target first:",
        [0.7, -0.7, -0.5, -0.1, 0.9, 0.3, -0.9, 0.3, -0.6],
        [1.1, 1.5, 0.2],
        [1.5, 0.1, 2.0],
        [0, 0, -1],
    );
}

// Other readings: a centre's products added from j = n-1 down; levels added from 0 up.
fn orders() {
    three(
        b"products rising:",
        [0.7, 0.7, -0.4, -0.2, 0.0, 0.1, -0.1, 0.6, 0.0],
        [2.0, 0.2, 0.9],
        [-1.1, -1.0, 0.4],
        [1, 1, -1],
    );
    three(
        b"levels falling:",
        [0.8, -0.8, 0.1, 0.5, 0.3, -0.5, 0.0, -0.2, 0.9],
        [1.1, 0.7, 1.2],
        [-0.3, 0.7, 1.9],
        [-2, 1, -2],
    );
}

// Other reading: mu[level·n+j]. Entries on the diagonal and above it are not read.
fn entries() {
    three(
        b"not transposed:",
        [0.0, 0.25, -0.75, 0.5, 0.0, 1.5, -0.5, 0.25, 0.0],
        [1.0, 2.0, 4.0],
        [0.5, 0.25, 0.75],
        [0, 1, -1],
    );
    three(
        b"not read:",
        [
            nan(),
            infinity(),
            LARGEST,
            0.5,
            -infinity(),
            nan(),
            -0.5,
            0.25,
            nan(),
        ],
        [1.0, 2.0, 4.0],
        [0.5, 0.25, 0.75],
        [0, 1, -1],
    );
}

fn largest_dimension() {
    let mut mu = [0.1; 529];
    mu[22] = nan();
    mu[23] = -0.7;
    mu[253] = 0.3;
    mu[506] = -0.9;
    mu[527] = 0.6;
    let mut weights = [0.3; 23];
    weights[0] = 1.1;
    weights[7] = 2.3;
    weights[22] = 0.7;
    let mut target = [0.7; 23];
    target[1] = -0.3;
    target[5] = 1.9;
    target[13] = -1.2;
    target[22] = 0.4;
    let mut point = [1; 23];
    point[0] = -2;
    point[9] = 0;
    point[22] = 3;
    say(
        b"n = 23:",
        distance::triangular_distance(&mu, &weights, &target, &point),
    );
}

// Other readings: products added from j = n-1 down, first answer; fused, second. At the last level the value is the
// answer, minus zero too, and what is minus zero stays so if every product is. Places of `rest` up to the level and
// past n are not read.
fn centers_alone() {
    let mu = [nan(), nan(), nan(), 1.0, nan(), nan(), 1.0, 0.1, nan()];
    let rest = [nan(), 0.1, 0.2, nan()];
    let zeros = [-0.0; 3];
    word(b"center:");
    double(distance::center(&mu, &rest, 3, 0, 0.3));
    double(distance::center(&mu, &rest, 3, 1, -0.02));
    double(distance::center(&mu, &rest, 3, 2, -0.0));
    double(distance::center(&mu, &zeros, 3, 0, -0.0));
    newline();
}

// Other readings: weight·(d·d), first and second answer; one rounding of the exact product, first three. The
// others are plus zero, at a zero d of either sign, and an infinity.
fn terms_alone() {
    word(b"term:");
    double(distance::term(0.7, 0.1, 1.0));
    double(distance::term(SMALLEST, 0.7, 0.0));
    double(distance::term(1.5, 0.4, 0.0));
    double(distance::term(2.0, 3.0, 3.0));
    double(distance::term(2.0, -0.0, 0.0));
    double(distance::term(LARGEST, -1.0, 1.0));
    newline();
}

fn main() {
    none();
    single_terms();
    large_points();
    overflows();
    bench();
    roundings();
    center_steps();
    orders();
    entries();
    largest_dimension();
    centers_alone();
    terms_alone();
}
