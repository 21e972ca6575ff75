// What `change_reference` answers and leaves in the point that it is lent. Each line of the output has a case's name and
// the verdict: `pass`, or the refusal's number with what it carries in brackets. After it stands the point at exit, in
// square brackets. Where a case parts the specification from another reading, its comment names that.
//
// The expected output was worked out with unbounded integers. The original has no such call.
#![tactic(auto)]

use printing::{integers, newline, verdict, word};

fn change(name: &[u8], point: &mut [i64], r: usize) {
    word(name);
    verdict(reference::change_reference(point, r));
    integers(point);
    newline();
}

fn change_one(name: &[u8], a: i64, r: usize) {
    let mut point = [a];
    change(name, &mut point, r);
}

fn change_two(name: &[u8], a: i64, b: i64, r: usize) {
    let mut point = [a, b];
    change(name, &mut point, r);
}

// a(r) itself changes: a program that reads it after that subtracts its negative, or 0.
fn accepted() {
    change_one(b"one:", 5, 0);
    change_one(b"zero:", 0, 0);
    change_two(b"first of two:", 1, 2, 0);
    change_two(b"second of two:", 1, 2, 1);
    let mut three = [10, -3, 4];
    change(b"middle of three:", &mut three, 1);
    change(b"back:", &mut three, 1);
    change(b"first of three:", &mut three, 0);
    change(b"then the last:", &mut three, 2);
    let mut direct = [10, -3, 4];
    change(b"the last at once:", &mut direct, 2);
}

// Each result at an end of i64, and the next one.
fn ends() {
    change_two(b"lowest:", -1, i64::MAX, 1);
    change_two(b"below lowest:", -2, i64::MAX, 1);
    change_two(b"lowest stays:", i64::MIN, 0, 1);
    change_two(b"below it:", i64::MIN, 1, 1);
    change_two(b"highest:", 9223372036854775806, -1, 1);
    change_two(b"above highest:", i64::MAX, -1, 1);
    change_two(b"highest own:", i64::MIN, -9223372036854775807, 1);
    change_one(b"lowest own:", i64::MAX, 0);
    change_one(b"above own:", i64::MIN, 0);
}

// 20 has the first index of all results: r's own is not judged before the others, nor after them.
fn first_index() {
    change_two(b"other before own:", 0, i64::MIN, 1);
    change_two(b"own after one that fits:", -1, i64::MIN, 1);
    change_two(b"own before other:", i64::MIN, i64::MIN, 0);
    change_two(b"own before one that does not fit:", i64::MIN, 0, 0);
}

// A refusal leaves the point as it was, also where coordinates before the fault could have been changed.
fn unchanged() {
    change_two(b"after own:", 1, i64::MIN, 0);
    let mut four = [3, -4, i64::MIN, 1];
    change(b"third of four:", &mut four, 3);
}

// 19, which is judged first.
fn index() {
    let mut none = [0i64; 0];
    change(b"no coordinate:", &mut none, 0);
    change_one(b"at the length:", 5, 1);
    change_two(b"before 20:", 0, i64::MIN, 2);
    change_two(b"largest:", 1, 2, 18446744073709551615);
}

// The point may be longer than a search's.
fn long() {
    let mut point = [4; 65];
    point[0] = -90;
    point[64] = 102;
    change(b"65:", &mut point, 64);
    point[63] = i64::MAX;
    change(b"65 refused:", &mut point, 0);
}

fn main() {
    accepted();
    ends();
    first_index();
    unchanged();
    index();
    long();
}
