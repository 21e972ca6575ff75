// The children of a level, each with its double, its term and the state after it: the step that comes next, and
// whether the upward and the downward direction are open. The lines in `stdout` are those of the Rust's `Children`: this
// program compiled as Rust, with the oracle in the place of the crate `children`
// (tools/oracle/examples/children_test.rs).
#![tactic(auto)]

use children::{Children, Trial};
use printing::values::TOP;
use printing::{decimal, double, newline, word};

fn direction(done: bool) {
    if done {
        word(b" closed");
        return;
    }
    word(b" open");
}

fn row(t: Trial, g: Children) {
    decimal(t.z);
    double(t.value);
    double(t.term);
    printing::count(g.step);
    direction(g.positive_done);
    direction(g.negative_done);
    newline();
}

// The first `shown` children, and the number of all of them.
fn level(name: &[u8], center: f64, remaining: f64, weight: f64, shown: usize) {
    word(name);
    let Some(mut g) = Children::new(center, remaining, weight) else {
        word(b"no children\n");
        return;
    };
    for count in 0..1000usize {
        let Some((t, after)) = g.next() else {
            io::print_decimal(1, count as u64);
            word(b" children\n");
            return;
        };
        if count < shown {
            row(t, after);
        }
        g = after;
    }
    word(b"more\n");
}

fn main() {
    // downward first, as 0.5 is below its nearest integer 1
    level(b"0.5\n", 0.5, 2.5, 1.0, 10);
    level(b"-0.5\n", -0.5, 2.5, 1.0, 10);
    // upward first
    level(b"1.25\n", 1.25, 3.5, 1.0, 10);
    // upward first at the nearest integer itself too; the terms of 3 and -1 are all that remains
    level(b"1\n", 1.0, 4.0, 1.0, 10);
    level(b"0.25, weight 0.375\n", 0.25, 1.0, 0.375, 10);
    // only the nearest integer
    level(b"3, nothing remains\n", 3.0, 0.0, 2.0, 10);
    // the nearest integer is too far already
    level(b"3.25, nothing remains\n", 3.25, 0.0, 2.0, 10);
    level(b"0.5, too little remains\n", 0.5, 0.125, 1.0, 10);
    // candidates beyond an i64 close a direction
    level(b"2^63\n", TOP, 1000.0, 1.0, 4);
    level(b"2^63 + 2048\n", 9223372036854777856.0, 10000000.0, 1.0, 4);
    level(b"-2^63\n", -TOP, 1000.0, 1.0, 4);
    level(
        b"-2^63 - 2048\n",
        -9223372036854777856.0,
        10000000.0,
        1.0,
        4,
    );
    // seven integers share the double of the centre, more of them away from 0: the direction towards 0 closes by the test
    // while the other goes on
    level(b"2^55\n", 36028797018963968.0, 0.0, 1.0, 10);
    level(b"-2^55\n", -36028797018963968.0, 0.0, 1.0, 10);
    // many children, and more than the program counts
    level(b"0.4\n", 0.4, 400.0, 1.0, 12);
    level(b"-7.3\n", -7.3, 1000000.0, 1.0, 2);
}
