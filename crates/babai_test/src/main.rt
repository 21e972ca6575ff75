// What `round` and `nearest_plane` answer and leave in the slices that they are lent. Each line of the output has a
// case's name and the verdict: `pass`, or the refusal's number with what it carries in brackets. After it stand the
// slices at exit, each in square brackets: for `round` the integers; for `nearest_plane` the coefficients, as the 16
// hexadecimal digits of their bits, and the integers. Where a case parts the specification from another reading, its
// comment names that.
//
// The expected output was written by this program compiled as Rust, with the text of the Rust's `round_away`, `round`
// and `nearest_plane` in the place of the crate `babai`, and a `Gso` whose mu(j, i) is mu[j·n+i]. The lines of refusals
// 2 to 5, which the Rust does not have, are worked out by hand from the specification.
#![tactic(auto)]

use printing::values::*;
use printing::{doubles, integers, newline, verdict, word};

// ---- round

fn round(name: &[u8], coefficients: &[f64], out: &mut [i64]) {
    word(name);
    verdict(babai::round(coefficients, out));
    integers(out);
    newline();
}

fn round_four(name: &[u8], coefficients: [f64; 4]) {
    let mut out = [7, -8, 9, i64::MIN];
    round(name, &coefficients, &mut out);
}

// Halves go away from zero. No number is too large, and what is past an i64 becomes the nearest one.
fn rounded() {
    round_four(b"round up:", [0.5, 1.5, 2.5, 0.75]);
    round_four(b"round down:", [-0.5, -1.5, -2.5, -0.75]);
    round_four(b"round to zero:", [0.49999999999999994, -0.25, 0.0, -0.0]);
    round_four(
        b"round past 2^52:",
        [BEYOND, -BEYOND, 1152921504606846976.0, 9007199254740994.0],
    );
    round_four(b"round past i64:", [TOP, -TOP, LARGEST, -LARGEST]);
    let none = [0.0; 0];
    let mut out = [0i64; 0];
    round(b"round none:", &none, &mut out);
}

// The lengths come before the values, which have no limit; the first index counts. The output stays as it was.
fn round_refused() {
    let coefficients = [0.5, nan(), infinity()];
    let mut shorter = [7, -8];
    let mut longer = [7, -8, 9, -10];
    let mut same = [7, -8, 9];
    round(b"round shorter:", &coefficients, &mut shorter);
    round(b"round longer:", &coefficients, &mut longer);
    round(b"round nan:", &coefficients, &mut same);
    round_four(b"round infinite:", [LARGEST, 0.5, 1.5, -infinity()]);
}

// ---- nearest_plane

fn plane(name: &[u8], weights: &[f64], mu: &[f64], coefficients: &mut [f64], out: &mut [i64]) {
    word(name);
    verdict(babai::nearest_plane(weights, mu, coefficients, out));
    doubles(coefficients);
    integers(out);
    newline();
}

fn plane_two(name: &[u8], entry: f64, first: f64, second: f64) {
    let weights = [1.0, 1.0];
    let mu = mu_of_two(entry);
    let mut coefficients = [first, second];
    let mut out = [7, -8];
    plane(name, &weights, &mu, &mut coefficients, &mut out);
}

fn plane_three(name: &[u8], mu: [f64; 9], coefficients: [f64; 3]) {
    let weights = [0.1, 1.0, LARGEST];
    let mut left = coefficients;
    let mut out = [7, -8, 9];
    plane(name, &weights, &mu, &mut left, &mut out);
}

// Other readings: halves to even, and up, at `halves` and `half of a sum`; floor(v + 0.5), at `below a half` too.
fn ordinary() {
    plane_two(b"plane G:", 0.5, 0.25, 0.5);
    plane_two(b"plane apart:", 0.0, 1.4, -0.6);
    plane_two(b"plane halves:", 0.0, 2.5, -2.5);
    plane_two(b"plane half of a sum:", 0.5, 0.25, -1.5);
    plane_two(
        b"plane below a half:",
        0.0,
        0.49999999999999994,
        -0.49999999999999994,
    );
}

// Neither the coefficients nor the sum have a limit: an infinite sum becomes an end of i64.
fn large() {
    plane_two(b"plane 2^60:", LIMIT, 1152921504606846976.0, -BEYOND);
    plane_two(b"plane 2^63:", -LIMIT, -TOP, TOP);
    plane_two(b"plane past i64:", 1.0, -LARGEST, 18446744073709551616.0);
    plane_two(b"plane infinite sum:", 4.0, 0.5, 1e308);
    plane_two(b"plane minus infinite sum:", -4.0, 0.5, 1e308);
}

// Other readings: products added from j = n-1 down; the coefficient added last; a product fused with its addition.
// Each gives another first integer.
fn sums() {
    plane_three(
        b"plane rising:",
        [0.2, 0.9, -0.8, -0.8, -0.5, 0.9, 0.6, 0.0, -0.5],
        [-0.4, -1.1, -0.3],
    );
    plane_three(
        b"plane coefficient first:",
        [-0.6, 0.8, 0.2, 0.4, 0.0, -0.4, -0.6, 0.1, 0.5],
        [2.8, -2.3, 0.3],
    );
    plane_three(
        b"plane not fused:",
        [-0.4, 0.4, -0.4, -0.7, -0.3, -0.1, 0.4, -0.8, -0.1],
        [-0.1, 0.8, 0.4],
    );
}

// Other readings: t·mu - z·mu for (t - z)·mu, rounded twice or fused; t·mu; mu[i·n+j]. At `nan sum` one product is
// infinite and the next minus infinite: the integer is 0, and the coefficient stays.
fn products() {
    plane_three(
        b"plane difference first:",
        [-0.4, 0.6, 0.9, -0.4, 0.3, 0.2, 0.8, 0.3, -0.4],
        [-0.7, 1.1, 1.3],
    );
    plane_three(
        b"plane difference not fused:",
        [0.3, 0.0, 0.3, -0.4, 0.7, -0.2, 0.5, 0.2, 0.2],
        [-0.3, -3.0, -1.4],
    );
    plane_three(
        b"plane what is left:",
        [-0.1, 0.0, -0.3, -0.7, 0.7, 0.1, 0.1, -0.3, 0.3],
        [-0.3, -2.4, 1.1],
    );
    plane_three(
        b"plane not transposed:",
        [0.0, 0.25, -8.0, 4.0, 0.0, 1.5, -2.0, 8.0, 0.0],
        [0.5, 0.25, 0.25],
    );
    plane_three(
        b"plane nan sum:",
        [0.0, 0.0, 0.0, 4.0, 0.0, 0.0, -4.0, 0.0, 0.0],
        [0.75, 1e308, 1e308],
    );
}

fn dimensions() {
    let none = [0.0; 0];
    let mut no_coefficients = [0.0; 0];
    let mut no_out = [0i64; 0];
    plane(
        b"plane n = 0:",
        &none,
        &none,
        &mut no_coefficients,
        &mut no_out,
    );
    let mut one_place = [7];
    plane(
        b"6 n = 0:",
        &none,
        &none,
        &mut no_coefficients,
        &mut one_place,
    );
    let weights = [1.0; 23];
    let mu = mu_of_23();
    let mut coefficients = target_of_23();
    let mut out = [7; 23];
    plane(b"plane n = 23:", &weights, &mu, &mut coefficients, &mut out);
}

// ---- refusals of nearest_plane: both slices stay as they were

// The lengths and the values of the coefficients are wrong too.
fn table(name: &[u8], weights: &[f64], mu: &[f64]) {
    let mut coefficients = [nan(), 1.5, -0.0, -infinity()];
    let mut out = [7, -8];
    plane(name, weights, mu, &mut coefficients, &mut out);
}

// The entries and the weights are wrong too.
fn sizes() {
    let weights_3 = [0.0, nan(), 1.0];
    let weights_24 = [0.0; 24];
    let mu_8 = [nan(); 8];
    let mu_10 = [nan(); 10];
    let mu_576 = [nan(); 576];
    table(b"2 fewer entries:", &weights_3, &mu_8);
    table(b"2 more entries:", &weights_3, &mu_10);
    table(b"2 more weights:", &weights_24, &mu_576);
}

fn entries(name: &[u8], a: f64, b: f64, c: f64, weights: [f64; 3]) {
    let mu = mu_of_three([a, b, c]);
    table(name, &weights, &mu);
}

// 3 comes before 4 even at a later entry, 4 before 5, and 2^52 is within the limit.
fn values() {
    entries(b"3 nan:", BEYOND, 1.0, nan(), [0.0, 1.0, 1.0]);
    entries(b"3 infinite:", BEYOND, -infinity(), nan(), [0.0, 1.0, 1.0]);
    entries(b"4:", LIMIT, -BEYOND, LARGEST, [nan(), 1.0, 1.0]);
    entries(b"5 zero:", LIMIT, -LIMIT, 0.0, [1.0, -0.0, nan()]);
    entries(
        b"5 infinite:",
        LIMIT,
        -LIMIT,
        0.0,
        [1.0, LARGEST, infinity()],
    );
}

fn call(name: &[u8], coefficients: &mut [f64], out: &mut [i64]) {
    let weights = [1.0; 3];
    let mu = [0.5; 9];
    plane(name, &weights, &mu, coefficients, out);
}

// 6 has the coefficients' length, also where the output is the wrong one.
fn lengths() {
    let mut two_coefficients = [nan(), 1.5];
    let mut three_coefficients = [LARGEST, -BEYOND, nan()];
    let mut four_coefficients = [1.5, 2.5, -0.0, infinity()];
    let mut two_places = [7, -8];
    let mut three_places = [7, -8, 9];
    let mut four_places = [7, -8, 9, i64::MIN];
    call(
        b"6 fewer coefficients:",
        &mut two_coefficients,
        &mut three_places,
    );
    call(
        b"6 more coefficients:",
        &mut four_coefficients,
        &mut two_places,
    );
    call(b"6 fewer places:", &mut three_coefficients, &mut two_places);
    call(b"6 more places:", &mut three_coefficients, &mut four_places);
}

// 7 has the first index, and no limit.
fn coefficients() {
    plane_three(b"7 infinite:", [0.5; 9], [1.5, -infinity(), nan()]);
    plane_three(b"7 nan:", [0.5; 9], [LARGEST, -BEYOND, nan()]);
}

fn main() {
    rounded();
    round_refused();
    ordinary();
    large();
    sums();
    products();
    dimensions();
    sizes();
    values();
    lengths();
    coefficients();
}
