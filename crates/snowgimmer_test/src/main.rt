// What each exported function tells, called by the order of its parameters, which no contract sees: its result, the two
// whole numbers and the double of its report, then the slice that it writes or is given. Before the call the report
// holds 9, 9 and 9.5, and what is written 7 and -8.
//
// The expected output is worked out by hand from the specification's cases. Tables, targets and slices are such that
// two parameters of one type which are exchanged show.
#![tactic(auto)]

use printing::values::*;

// What a call writes through its last three pointers.
#[derive(Clone, Copy)]
struct Report {
    first: u64,
    second: u64,
    real: f64,
}

impl Report {
    fn before() -> Report {
        Report {
            first: 9,
            second: 9,
            real: 9.5,
        }
    }

    // Writes a case's name, the call's result and the report.
    fn told(&self, name: &[u8], number: u32) {
        printing::word(name);
        printing::count(number as u64);
        printing::count(self.first);
        printing::count(self.second);
        printing::double(self.real);
    }
}

fn with_integers(values: &[i64]) {
    printing::integers(values);
    printing::newline();
}

// Case G.
fn nearest(name: &[u8], radius: f64, budget: u64) {
    let weights = [1.0, 1.0];
    let mu = mu_of_two(0.5);
    let target = [0.25, 0.5];
    let mut out = [7, -8];
    let mut report = Report::before();
    let number = snowgimmer::snowgimmer_nearest(
        &weights,
        &mu,
        &target,
        &mut out,
        radius,
        budget,
        &mut report.first,
        &mut report.second,
        &mut report.real,
    );
    report.told(name, number);
    with_integers(&out);
}

// Case G from a candidate.
fn seeded(name: &[u8], candidate: &[i64], radius: f64, budget: u64) {
    let weights = [1.0, 1.0];
    let mu = mu_of_two(0.5);
    let target = [0.25, 0.5];
    let mut out = [7, -8];
    let mut report = Report::before();
    let number = snowgimmer::snowgimmer_nearest_seeded(
        &weights,
        &mu,
        &target,
        &mut out,
        candidate,
        radius,
        budget,
        &mut report.first,
        &mut report.second,
        &mut report.real,
    );
    report.told(name, number);
    with_integers(&out);
}

fn ml(name: &[u8], budget: u64) {
    let weights = [1.0, 1.0];
    let mu = mu_of_two(0.5);
    let target = [0.25, 0.5];
    let mut out = [7, -8];
    let mut report = Report::before();
    let number = snowgimmer::snowgimmer_nearest_ml(
        &weights,
        &mu,
        &target,
        &mut out,
        budget,
        &mut report.first,
        &mut report.second,
        &mut report.real,
    );
    report.told(name, number);
    with_integers(&out);
}

// Case G in other coordinates.
fn prepared(name: &[u8], transform: &[i64], inverse: &[i64], budget: u64) {
    let weights = [1.0, 1.0];
    let mu = mu_of_two(0.5);
    let target = [1.25, 1.75];
    let mut out = [7, -8];
    let mut report = Report::before();
    let number = snowgimmer::snowgimmer_prepared_nearest_ml(
        &weights,
        &mu,
        transform,
        inverse,
        &target,
        &mut out,
        budget,
        &mut report.first,
        &mut report.second,
        &mut report.real,
    );
    report.told(name, number);
    with_integers(&out);
}

fn list(name: &[u8], distances: &mut [f64], points: &mut [i64], radius: f64, budget: u64) {
    let weights = [1.0, 1.0];
    let mu = mu_of_two(0.5);
    let target = [0.25, 0.5];
    let mut report = Report::before();
    let number = snowgimmer::snowgimmer_list(
        &weights,
        &mu,
        &target,
        distances,
        points,
        radius,
        budget,
        &mut report.first,
        &mut report.second,
        &mut report.real,
    );
    report.told(name, number);
    printing::doubles(distances);
    with_integers(points);
}

fn plane(name: &[u8], coefficients: &mut [f64]) {
    let weights = [1.0, 4.0];
    let mu = mu_of_two(0.5);
    let mut out = [7, -8];
    let mut report = Report::before();
    let number = snowgimmer::snowgimmer_nearest_plane(
        &weights,
        &mu,
        coefficients,
        &mut out,
        &mut report.first,
        &mut report.second,
        &mut report.real,
    );
    report.told(name, number);
    printing::doubles(coefficients);
    with_integers(&out);
}

fn round(name: &[u8], coefficients: &[f64]) {
    let mut out = [7, -8];
    let mut report = Report::before();
    let number = snowgimmer::snowgimmer_round(
        coefficients,
        &mut out,
        &mut report.first,
        &mut report.second,
        &mut report.real,
    );
    report.told(name, number);
    with_integers(&out);
}

fn distance(name: &[u8], target: &[f64], point: &[i64]) {
    let weights = [1.0, 1.0];
    let mu = mu_of_two(0.5);
    let mut report = Report::before();
    let number = snowgimmer::snowgimmer_distance(
        &weights,
        &mu,
        target,
        point,
        &mut report.first,
        &mut report.second,
        &mut report.real,
    );
    report.told(name, number);
    with_integers(point);
}

fn change(name: &[u8], r: usize) {
    let mut point = [7, -8];
    let mut report = Report::before();
    let number = snowgimmer::snowgimmer_change_reference(
        &mut point,
        r,
        &mut report.first,
        &mut report.second,
        &mut report.real,
    );
    report.told(name, number);
    with_integers(&point);
}

fn entry(name: &[u8], number: u32, at: u64, index: usize, value: f64) {
    let mut report = Report::before();
    let verdict = snowgimmer::snowgimmer_check_entry(
        number,
        at,
        index,
        value,
        &mut report.first,
        &mut report.second,
        &mut report.real,
    );
    report.told(name, verdict);
    printing::newline();
}

fn ratio(name: &[u8], distances: &[f64], radius: f64, p: u64, q: u64) {
    let mut report = Report::before();
    let number = snowgimmer::snowgimmer_ratio(
        distances,
        radius,
        p,
        q,
        &mut report.first,
        &mut report.second,
        &mut report.real,
    );
    report.told(name, number);
    printing::newline();
}

fn searches() {
    nearest(b"nearest G:", 2.0, 100);
    nearest(b"nearest G, 4 nodes:", 2.0, 4);
    nearest(b"nearest G, radius 1/8:", 0.125, 100);
    nearest(b"nearest G, radius -1:", -1.0, 100);
    nearest(b"nearest G, budget 2^60 + 1:", 2.0, MOST + 1);
    seeded(b"seeded G:", &[1, 1], 2.0, 100);
    seeded(b"seeded G, 1 candidate:", &[1], 2.0, 100);
    seeded(b"seeded G, radius 1:", &[1, 1], 1.0, 100);
    ml(b"ml G:", 100);
    ml(b"ml G, 2 nodes:", 2);
    let forward = [1, 1, 2, 3];
    let back = [3, -1, -2, 1];
    prepared(b"prepared G:", &forward, &back, 100);
    prepared(b"prepared G, exchanged:", &back, &forward, 100);
    prepared(b"prepared G, 2 nodes:", &forward, &back, 2);
    prepared(b"prepared G, 3 elements:", &forward, &[3, -1, -2], 100);
    prepared(
        b"prepared G, 2^62 at 5:",
        &forward,
        &[3, 4611686018427387904, -2, 1],
        100,
    );
    prepared(b"prepared G, not inverse:", &forward, &forward, 100);
}

fn lists() {
    let mut distances = [9.5; 6];
    let mut points = [7, -8, 7, -8, 7, -8, 7, -8, 7, -8, 7, -8];
    list(b"list G:", &mut distances, &mut points, 2.0, 100);
    let mut few = [9.5; 4];
    let mut short = [7, -8, 7, -8, 7, -8, 7, -8];
    list(b"list G, 4 places:", &mut few, &mut short, 2.0, 100);
    list(b"list G, 3 nodes:", &mut few, &mut short, 2.0, 3);
    let mut odd = [7, -8, 7, -8, 7, -8, 7];
    list(b"list G, 7 coordinates:", &mut few, &mut odd, 2.0, 3);
}

fn others() {
    plane(b"plane:", &mut [0.25, 1.75]);
    plane(b"plane, 1 coefficient:", &mut [0.25]);
    round(b"round:", &[0.5, -1.25]);
    round(b"round, 3 coefficients:", &[0.5, -1.25, 2.0]);
    distance(b"distance:", &[0.25, 0.5], &[1, 3]);
    distance(b"distance, 3 coordinates:", &[0.25, 0.5], &[1, 3, 5]);
    distance(b"distance, 1 target:", &[0.25], &[1, 3]);
    change(b"change 0:", 0);
    change(b"change 1:", 1);
    change(b"change 2:", 2);
    entry(b"entry 4 (3), 0.5 at 6:", 4, 3, 6, 0.5);
    entry(b"entry 4 (3), infinite at 6:", 4, 3, 6, infinity());
    entry(b"entry 0, 2^53 at 6:", 0, 3, 6, 9007199254740992.0);
    ratio(b"ratio 2 1:", &[0.25, 0.5], 1.0, 2, 1);
    ratio(b"ratio 3 1:", &[0.25, 0.5], 1.0, 3, 1);
    ratio(b"ratio 1 2:", &[0.25, 0.5], 1.0, 1, 2);
    ratio(b"ratio 5 1, alone:", &[0.25], 1.0, 5, 1);
    ratio(b"ratio 3 1, none:", &[], 1.0, 3, 1);
    printing::word(b"round_away of -2.5:");
    with_integers(&[snowgimmer::snowgimmer_round_away(-2.5)]);
}

fn main() {
    searches();
    lists();
    others();
}
