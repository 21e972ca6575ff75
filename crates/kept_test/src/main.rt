// What `nearest_named` and `pick_up` answer and leave in the output and in the block. Each line of the output has a case's
// name, then `found`, the nodes and the point's distance, as the 16 hexadecimal digits of its bits, or the refusal's number
// with what it carries in brackets, then the output at exit, in square brackets. A line of names has for each of them the
// n of the search that it holds, or `-`. Where a case parts the specification from another reading, its comment names that.
//
// The answer to every search that a named call began is the Rust's, with the sum of the budgets: this program compiled as
// Rust, with the oracle in the place of the crate `kept` (tools/oracle/examples/kept_test.rs). The lines of refusals 2 to 5,
// 9 and 25 to 27, of 6 for the block, of what a block holds and of parts that no call has written are the specification's.
#![tactic(auto)]

use enumerate::NearestPoint;
use printing::values::*;
use refusals::Refusal;

// Radii in 23 dimensions: with a point inside, and without one.
const RADIUS_23: f64 = 3.35;

const OUTSIDE_23: f64 = 2.1;

// ---- the calls

fn answer(a: Result<NearestPoint, Refusal>, out: &[i64]) {
    match a {
        Ok(point) => printing::found(point.nodes, point.distance),
        Err(e) => printing::verdict(Err(e)),
    }
    printing::integers(out);
    printing::newline();
}

fn named(
    case: &[u8],
    reals: &mut [f64],
    integers: &mut [i64],
    counts: &mut [u64],
    name: u64,
    weights: &[f64],
    mu: &[f64],
    target: &[f64],
    out: &mut [i64],
    radius: f64,
    budget: u64,
) {
    printing::word(case);
    let a = kept::nearest_named(
        reals, integers, counts, name, weights, mu, target, out, radius, budget,
    );
    answer(a, out);
}

fn pick_up(
    case: &[u8],
    reals: &mut [f64],
    integers: &mut [i64],
    counts: &mut [u64],
    name: u64,
    out: &mut [i64],
    budget: u64,
) {
    printing::word(case);
    let a = kept::pick_up(reals, integers, counts, name, out, budget);
    answer(a, out);
}

// The table of case G.
fn two(
    case: &[u8],
    reals: &mut [f64],
    integers: &mut [i64],
    counts: &mut [u64],
    name: u64,
    target: [f64; 2],
    radius: f64,
    budget: u64,
) {
    let weights = [1.0, 1.0];
    let mu = mu_of_two(0.5);
    let mut out = [7, -8];
    named(
        case, reals, integers, counts, name, &weights, &mu, &target, &mut out, radius, budget,
    );
}

// Case G at a radius.
fn g(
    case: &[u8],
    reals: &mut [f64],
    integers: &mut [i64],
    counts: &mut [u64],
    name: u64,
    radius: f64,
    budget: u64,
) {
    two(
        case,
        reals,
        integers,
        counts,
        name,
        [0.25, 0.5],
        radius,
        budget,
    );
}

fn one(
    case: &[u8],
    reals: &mut [f64],
    integers: &mut [i64],
    counts: &mut [u64],
    name: u64,
    target: f64,
    radius: f64,
    budget: u64,
) {
    let targets = [target];
    let mut out = [7];
    named(
        case,
        reals,
        integers,
        counts,
        name,
        &[1.0],
        &[nan()],
        &targets,
        &mut out,
        radius,
        budget,
    );
}

// The first point found is [-1, 1, 2], with the third node.
fn three(
    case: &[u8],
    reals: &mut [f64],
    integers: &mut [i64],
    counts: &mut [u64],
    name: u64,
    budget: u64,
) {
    let weights = [1.7, 0.4, 2.1];
    let mu = mu_of_three([-0.7, 0.3, 0.9]);
    let target = [-1.4, 0.9, 1.7];
    let mut out = [7, -8, 9];
    named(
        case, reals, integers, counts, name, &weights, &mu, &target, &mut out, 1.3, budget,
    );
}

// A pickup with an output for two coordinates.
fn up_2(
    case: &[u8],
    reals: &mut [f64],
    integers: &mut [i64],
    counts: &mut [u64],
    name: u64,
    budget: u64,
) {
    let mut out = [7, -8];
    pick_up(case, reals, integers, counts, name, &mut out, budget);
}

// A pickup with an output for three coordinates.
fn up_3(
    case: &[u8],
    reals: &mut [f64],
    integers: &mut [i64],
    counts: &mut [u64],
    name: u64,
    budget: u64,
) {
    let mut out = [7, -8, 9];
    pick_up(case, reals, integers, counts, name, &mut out, budget);
}

// ---- what a block holds

fn dimension(e: Refusal) {
    if let Refusal::LengthMismatch(n, _) = e {
        printing::count(n as u64);
        return;
    }
    printing::word(b" -");
}

// The n of the search that a name holds, or `-`: a pickup with an output of 24 places is refused by 6 or 26.
fn held(reals: &mut [f64], integers: &mut [i64], counts: &mut [u64], name: u64) {
    let mut out = [7; 24];
    match kept::pick_up(reals, integers, counts, name, &mut out, 0) {
        Ok(_) => printing::word(b" found"),
        Err(e) => dimension(e),
    }
}

// The same of every name.
fn names(case: &[u8], reals: &mut [f64], integers: &mut [i64], counts: &mut [u64]) {
    printing::word(case);
    for name in 1..=8 {
        held(reals, integers, counts, name);
    }
    printing::newline();
}

// Where a block differs from one of nines: of each slice the place where a stretch of other numbers begins, and that of
// the first nine behind it.
fn changed(case: &[u8], reals: &[f64], integers: &[i64], counts: &[u64]) {
    printing::word(case);
    printing::word(b" reals");
    changed_places(reals, 9.0);
    printing::word(b" integers");
    changed_places(integers, 9);
    printing::word(b" counts");
    changed_places(counts, 9);
    printing::newline();
}

fn changed_places<T: Copy + PartialEq>(list: &[T], nine: T) {
    let mut inside = false;
    for (i, &x) in list.iter().enumerate() {
        let differs = x != nine;
        if differs != inside {
            printing::count(i as u64);
        }
        inside = differs;
    }
}

// The numbers of a block that are not 0, each behind its place.
fn written(case: &[u8], reals: &[f64], integers: &[i64], counts: &[u64]) {
    printing::word(case);
    printing::word(b" reals");
    written_places(reals, 0.0, printing::double);
    printing::word(b" integers");
    written_places(integers, 0, printing::integer);
    printing::word(b" counts");
    written_places(counts, 0, printing::count);
    printing::newline();
}

fn place(i: usize) {
    printing::count(i as u64);
    printing::word(b":");
}

fn written_places<T: Copy + PartialEq, W: Fn(T)>(list: &[T], zero: T, write: W)
    requires { W.IsAlwaysCallable write }
{
    for (i, &x) in list.iter().enumerate() {
        if x != zero {
            place(i);
            write(x);
        }
    }
}

// ---- pickups

// Other readings: the child that waits lost, or counted twice; the best forgotten; the budget of the last pickup alone; a
// pickup of 0 refused, or taken as the end; a name that is kept when its search is over.
fn sums() {
    let mut reals = [0.0; 5168];
    let mut integers = [0; 736];
    let mut counts = [0; 768];
    g(
        b"G, 2 nodes:",
        &mut reals,
        &mut integers,
        &mut counts,
        1,
        2.0,
        2,
    );
    up_2(b"G, 2 + 3:", &mut reals, &mut integers, &mut counts, 1, 3);
    up_2(b"G, over:", &mut reals, &mut integers, &mut counts, 1, 3);
    written(b"G, over:", &reals, &integers, &counts);
    g(
        b"G, 2 nodes again:",
        &mut reals,
        &mut integers,
        &mut counts,
        2,
        2.0,
        2,
    );
    up_2(b"G, 2 + 2:", &mut reals, &mut integers, &mut counts, 2, 2);
    up_2(
        b"G, 2 + 2 + 1:",
        &mut reals,
        &mut integers,
        &mut counts,
        2,
        1,
    );
    g(
        b"G, 0 nodes:",
        &mut reals,
        &mut integers,
        &mut counts,
        3,
        2.0,
        0,
    );
    up_2(b"G, 0 + 0:", &mut reals, &mut integers, &mut counts, 3, 0);
    up_2(
        b"G, 0 + 0 + 5:",
        &mut reals,
        &mut integers,
        &mut counts,
        3,
        5,
    );
    g(
        b"G, 4 nodes:",
        &mut reals,
        &mut integers,
        &mut counts,
        4,
        2.0,
        4,
    );
    up_2(b"G, 4 + 0:", &mut reals, &mut integers, &mut counts, 4, 0);
    up_2(
        b"G, 4 + 0 + 1000:",
        &mut reals,
        &mut integers,
        &mut counts,
        4,
        1000,
    );
    g(
        b"G, 5 nodes:",
        &mut reals,
        &mut integers,
        &mut counts,
        5,
        2.0,
        5,
    );
    names(b"names:", &mut reals, &mut integers, &mut counts);
}

fn by_ones() {
    let mut reals = [0.0; 5168];
    let mut integers = [0; 736];
    let mut counts = [0; 768];
    g(
        b"G by ones:",
        &mut reals,
        &mut integers,
        &mut counts,
        8,
        2.0,
        1,
    );
    for _ in 0..5 {
        up_2(b"G by ones:", &mut reals, &mut integers, &mut counts, 8, 1);
    }
    three(
        b"three by ones:",
        &mut reals,
        &mut integers,
        &mut counts,
        8,
        0,
    );
    for _ in 0..12 {
        up_3(
            b"three by ones:",
            &mut reals,
            &mut integers,
            &mut counts,
            8,
            1,
        );
    }
}

// The block after each slice of G. Other readings: what is read is not what is written; numbers left over behind the open
// levels.
fn contents() {
    let mut reals = [0.0; 5168];
    let mut integers = [0; 736];
    let mut counts = [0; 768];
    g(
        b"G, 0 nodes:",
        &mut reals,
        &mut integers,
        &mut counts,
        1,
        2.0,
        0,
    );
    written(b"0 nodes:", &reals, &integers, &counts);
    up_2(b"G, 2 nodes:", &mut reals, &mut integers, &mut counts, 1, 2);
    written(b"2 nodes:", &reals, &integers, &counts);
    up_2(b"G, 4 nodes:", &mut reals, &mut integers, &mut counts, 1, 2);
    written(b"4 nodes:", &reals, &integers, &counts);
    three(
        b"three, 5 nodes:",
        &mut reals,
        &mut integers,
        &mut counts,
        1,
        5,
    );
    written(b"5 nodes:", &reals, &integers, &counts);
    g(
        b"G, 1 node:",
        &mut reals,
        &mut integers,
        &mut counts,
        1,
        2.0,
        1,
    );
    written(b"1 node:", &reals, &integers, &counts);
    up_2(b"G, 1 + 4:", &mut reals, &mut integers, &mut counts, 1, 4);
}

// Table, target and output of the first call are overwritten before the pickup. Other readings: the caller's are read again.
fn own_copy() {
    let mut reals = [0.0; 5168];
    let mut integers = [0; 736];
    let mut counts = [0; 768];
    let mut weights = [1.7, 0.4, 2.1];
    let mut mu = mu_of_three([-0.7, 0.3, 0.9]);
    let mut target = [-1.4, 0.9, 1.7];
    let mut out = [7, -8, 9];
    named(
        b"own copy, 1 node:",
        &mut reals,
        &mut integers,
        &mut counts,
        6,
        &weights,
        &mu,
        &target,
        &mut out,
        1.3,
        1,
    );
    weights[0] = nan();
    weights[1] = 1000.0;
    weights[2] = -1.0;
    mu[3] = nan();
    mu[6] = infinity();
    mu[7] = 5.0;
    target[0] = nan();
    target[1] = 70.0;
    target[2] = LARGEST;
    out[1] = 2;
    pick_up(
        b"own copy, 1 + 3:",
        &mut reals,
        &mut integers,
        &mut counts,
        6,
        &mut out,
        3,
    );
    up_3(
        b"own copy, 1 + 3 + 96:",
        &mut reals,
        &mut integers,
        &mut counts,
        6,
        96,
    );
    names(b"names:", &mut reals, &mut integers, &mut counts);
}

// ---- what a name holds afterwards

// Other readings: a fresh call that finds its point, ends with 16 or is refused empties the name; one that ends with 15
// does not replace; it is the other name that is written.
fn in_use() {
    let mut reals = [0.0; 5168];
    let mut integers = [0; 736];
    let mut counts = [0; 768];
    g(
        b"in use:",
        &mut reals,
        &mut integers,
        &mut counts,
        1,
        2.0,
        2,
    );
    one(
        b"fresh, a point:",
        &mut reals,
        &mut integers,
        &mut counts,
        1,
        0.25,
        2.0,
        100,
    );
    one(
        b"fresh, 16:",
        &mut reals,
        &mut integers,
        &mut counts,
        1,
        0.25,
        0.01,
        100,
    );
    one(
        b"fresh, 7:",
        &mut reals,
        &mut integers,
        &mut counts,
        1,
        nan(),
        2.0,
        0,
    );
    one(
        b"fresh, 8:",
        &mut reals,
        &mut integers,
        &mut counts,
        1,
        0.25,
        -1.0,
        0,
    );
    one(
        b"fresh, 9:",
        &mut reals,
        &mut integers,
        &mut counts,
        1,
        0.25,
        2.0,
        MOST + 1,
    );
    names(b"names:", &mut reals, &mut integers, &mut counts);
    up_2(
        b"the older, 2 + 2:",
        &mut reals,
        &mut integers,
        &mut counts,
        1,
        2,
    );
    three(b"replaced:", &mut reals, &mut integers, &mut counts, 1, 2);
    names(b"names:", &mut reals, &mut integers, &mut counts);
    up_2(
        b"replaced, 2 places:",
        &mut reals,
        &mut integers,
        &mut counts,
        1,
        100,
    );
    up_3(
        b"replaced, 2 + 100:",
        &mut reals,
        &mut integers,
        &mut counts,
        1,
        100,
    );
    names(b"names:", &mut reals, &mut integers, &mut counts);
}

// Two searches in turns.
fn turns() {
    let mut reals = [0.0; 5168];
    let mut integers = [0; 736];
    let mut counts = [0; 768];
    three(b"turns, 7:", &mut reals, &mut integers, &mut counts, 7, 1);
    g(
        b"turns, 8:",
        &mut reals,
        &mut integers,
        &mut counts,
        8,
        2.0,
        1,
    );
    up_3(b"turns, 7:", &mut reals, &mut integers, &mut counts, 7, 2);
    up_2(b"turns, 8:", &mut reals, &mut integers, &mut counts, 8, 3);
    names(b"names:", &mut reals, &mut integers, &mut counts);
    up_3(b"turns, 7:", &mut reals, &mut integers, &mut counts, 7, 1);
    up_2(b"turns, 8:", &mut reals, &mut integers, &mut counts, 8, 3);
    names(b"names:", &mut reals, &mut integers, &mut counts);
    up_3(b"turns, 7:", &mut reals, &mut integers, &mut counts, 7, 100);
    names(b"names:", &mut reals, &mut integers, &mut counts);
}

// A block of nines, which are eight empty names: a call changes the part of its name, all of it, and nothing else.
fn other_parts(name: u64) {
    let mut reals = [9.0; 5168];
    let mut integers = [9; 736];
    let mut counts = [9; 768];
    names(b"nines:", &mut reals, &mut integers, &mut counts);
    g(
        b"nines:",
        &mut reals,
        &mut integers,
        &mut counts,
        name,
        2.0,
        5,
    );
    changed(b"found:", &reals, &integers, &counts);
    g(
        b"nines:",
        &mut reals,
        &mut integers,
        &mut counts,
        name,
        2.0,
        2,
    );
    changed(b"kept:", &reals, &integers, &counts);
    up_2(b"nines:", &mut reals, &mut integers, &mut counts, name, 2);
    changed(b"kept again:", &reals, &integers, &counts);
    up_2(b"nines:", &mut reals, &mut integers, &mut counts, name, 2);
    changed(b"emptied:", &reals, &integers, &counts);
    names(b"names:", &mut reals, &mut integers, &mut counts);
}

// ---- 16

// Other readings: 16 tells minus zero; it leaves the name as it was.
fn outside() {
    let mut reals = [0.0; 5168];
    let mut integers = [0; 736];
    let mut counts = [0; 768];
    two(
        b"inside:",
        &mut reals,
        &mut integers,
        &mut counts,
        2,
        [0.25, 0.5],
        0.25,
        0,
    );
    up_2(b"inside:", &mut reals, &mut integers, &mut counts, 2, 100);
    two(
        b"outside:",
        &mut reals,
        &mut integers,
        &mut counts,
        2,
        [0.5, 0.25],
        0.125,
        0,
    );
    up_2(b"outside:", &mut reals, &mut integers, &mut counts, 2, 100);
    names(b"names:", &mut reals, &mut integers, &mut counts);
    two(
        b"-0:",
        &mut reals,
        &mut integers,
        &mut counts,
        2,
        [1.25, 2.0],
        -0.0,
        0,
    );
    up_2(b"-0, 0 + 0:", &mut reals, &mut integers, &mut counts, 2, 0);
    up_2(
        b"-0, outside:",
        &mut reals,
        &mut integers,
        &mut counts,
        2,
        1,
    );
    written(b"emptied:", &reals, &integers, &counts);
    two(
        b"-0, 1 node:",
        &mut reals,
        &mut integers,
        &mut counts,
        2,
        [1.0, 2.0],
        -0.0,
        1,
    );
    up_2(
        b"-0, a point:",
        &mut reals,
        &mut integers,
        &mut counts,
        2,
        1,
    );
}

// ---- dimensions

fn dimensions() {
    let mut reals = [0.0; 5168];
    let mut integers = [0; 736];
    let mut counts = [0; 768];
    let mut none = [0i64; 0];
    named(
        b"n = 0:",
        &mut reals,
        &mut integers,
        &mut counts,
        4,
        &[],
        &[],
        &[],
        &mut none,
        0.0,
        0,
    );
    names(b"names:", &mut reals, &mut integers, &mut counts);
    let mu_24 = mu_of_24([0.0; 4]);
    let target_24 = target_of_24([0.25; 5]);
    let mut out_24 = [7; 24];
    named(
        b"n = 24:",
        &mut reals,
        &mut integers,
        &mut counts,
        4,
        &[1.0; 24],
        &mu_24,
        &target_24,
        &mut out_24,
        2.0,
        0,
    );
    names(b"names:", &mut reals, &mut integers, &mut counts);
}

// Weights and mu of enumerate_test.
fn named_23(
    case: &[u8],
    reals: &mut [f64],
    integers: &mut [i64],
    counts: &mut [u64],
    radius: f64,
    budget: u64,
) {
    let mut weights = [1.0; 23];
    weights[0] = 0.3;
    weights[7] = 2.5;
    weights[15] = 0.7;
    weights[22] = 1.9;
    let mu = mu_of_23();
    let mut target = [0.2; 23];
    target[1] = -0.3;
    target[5] = 1.9;
    target[13] = -1.2;
    target[22] = 0.4;
    let mut out = [7; 23];
    named(
        case, reals, integers, counts, 5, &weights, &mu, &target, &mut out, radius, budget,
    );
}

fn up_23(case: &[u8], reals: &mut [f64], integers: &mut [i64], counts: &mut [u64], budget: u64) {
    let mut out = [7; 23];
    pick_up(case, reals, integers, counts, 5, &mut out, budget);
}

fn of_23() {
    let mut reals = [0.0; 5168];
    let mut integers = [0; 736];
    let mut counts = [0; 768];
    named_23(
        b"n = 23:",
        &mut reals,
        &mut integers,
        &mut counts,
        RADIUS_23,
        22,
    );
    for _ in 0..4 {
        up_23(
            b"n = 23, and 300:",
            &mut reals,
            &mut integers,
            &mut counts,
            300,
        );
    }
    named_23(
        b"n = 23, outside:",
        &mut reals,
        &mut integers,
        &mut counts,
        OUTSIDE_23,
        100,
    );
    for _ in 0..4 {
        up_23(
            b"n = 23, and 400:",
            &mut reals,
            &mut integers,
            &mut counts,
            400,
        );
    }
}

// ---- the refusals' order: each call below is also wrong for a later one

fn name_range(name: u64) {
    let mut out = [7, -8];
    let mut no_reals = [0.0; 0];
    let mut integers = [0; 736];
    let mut counts = [0; 768];
    named(
        b"25:",
        &mut no_reals,
        &mut integers,
        &mut counts,
        name,
        &[0.0],
        &[],
        &[nan()],
        &mut out,
        -1.0,
        EVERY,
    );
    up_2(
        b"25, pickup:",
        &mut no_reals,
        &mut integers,
        &mut counts,
        name,
        EVERY,
    );
}

fn faulty(case: &[u8], reals: &mut [f64], integers: &mut [i64], counts: &mut [u64]) {
    let mut out = [7, -8];
    named(
        case,
        reals,
        integers,
        counts,
        8,
        &[0.0],
        &[],
        &[nan()],
        &mut out,
        -1.0,
        EVERY,
    );
    up_2(case, reals, integers, counts, 8, EVERY);
}

// Other readings: 2 or 26 before 6; the integers before the doubles; a block that is larger is taken.
fn block_lengths() {
    let mut none = [0.0; 0];
    let mut short_reals = [0.0; 5167];
    let mut reals = [0.0; 5168];
    let mut long_reals = [0.0; 5169];
    let mut short_integers = [0; 735];
    let mut integers = [0; 736];
    let mut long_integers = [0; 737];
    let mut short_counts = [0; 767];
    let mut counts = [0; 768];
    let mut long_counts = [0; 769];
    faulty(
        b"no block:",
        &mut none,
        &mut short_integers,
        &mut short_counts,
    );
    faulty(
        b"short reals:",
        &mut short_reals,
        &mut short_integers,
        &mut short_counts,
    );
    faulty(
        b"long reals:",
        &mut long_reals,
        &mut long_integers,
        &mut long_counts,
    );
    faulty(
        b"short integers:",
        &mut reals,
        &mut short_integers,
        &mut short_counts,
    );
    faulty(
        b"long integers:",
        &mut reals,
        &mut long_integers,
        &mut long_counts,
    );
    faulty(
        b"short counts:",
        &mut reals,
        &mut integers,
        &mut short_counts,
    );
    faulty(b"long counts:", &mut reals, &mut integers, &mut long_counts);
    faulty(b"a sound block:", &mut reals, &mut integers, &mut counts);
}

// Other readings: 6 before 26; 27 before 6; 27 at 2^60, or with a sum that wraps; a refusal that changes what is kept.
fn pickup_checks() {
    let mut reals = [0.0; 5168];
    let mut integers = [0; 736];
    let mut counts = [0; 768];
    let mut none = [0i64; 0];
    pick_up(
        b"26:",
        &mut reals,
        &mut integers,
        &mut counts,
        8,
        &mut none,
        EVERY,
    );
    g(
        b"checks, 2 nodes:",
        &mut reals,
        &mut integers,
        &mut counts,
        8,
        2.0,
        2,
    );
    pick_up(
        b"6:",
        &mut reals,
        &mut integers,
        &mut counts,
        8,
        &mut none,
        EVERY,
    );
    up_3(b"6:", &mut reals, &mut integers, &mut counts, 8, EVERY);
    up_2(
        b"27, 2^60 + 1:",
        &mut reals,
        &mut integers,
        &mut counts,
        8,
        MOST - 1,
    );
    up_2(
        b"27, 2^60 + 2:",
        &mut reals,
        &mut integers,
        &mut counts,
        8,
        MOST,
    );
    up_2(
        b"27, 2^64 - 2:",
        &mut reals,
        &mut integers,
        &mut counts,
        8,
        EVERY - 3,
    );
    up_2(
        b"27, 2^64 - 1:",
        &mut reals,
        &mut integers,
        &mut counts,
        8,
        EVERY - 2,
    );
    up_2(
        b"27, 2^64:",
        &mut reals,
        &mut integers,
        &mut counts,
        8,
        EVERY - 1,
    );
    up_2(
        b"27, 2^64 + 1:",
        &mut reals,
        &mut integers,
        &mut counts,
        8,
        EVERY,
    );
    names(b"names:", &mut reals, &mut integers, &mut counts);
    up_2(
        b"unchanged, 2 + 1:",
        &mut reals,
        &mut integers,
        &mut counts,
        8,
        1,
    );
    up_2(
        b"sum 2^60:",
        &mut reals,
        &mut integers,
        &mut counts,
        8,
        MOST - 3,
    );
    names(b"names:", &mut reals, &mut integers, &mut counts);
}

// ---- parts that no call has written

// A part of zeros but for n, the nodes, whether there is a best, the open levels, and of two of these level and steps. Picked
// up with an output of two coordinates. A walk over weights of 0 has no end but the budget's.
fn raw(case: &[u8], head: [u64; 4], levels: [u64; 2], steps: [u64; 2], budget: u64) {
    let mut reals = [0.0; 5168];
    let mut integers = [0; 736];
    let mut counts = [0; 768];
    counts[96] = head[0];
    counts[97] = head[1];
    counts[98] = head[2];
    counts[99] = head[3];
    counts[100] = levels[0];
    counts[101] = levels[1];
    counts[123] = steps[0];
    counts[124] = steps[1];
    up_2(case, &mut reals, &mut integers, &mut counts, 2, budget);
}

// Other readings: a test that lets pass what is named here, or does not let pass its neighbour.
fn soundness() {
    raw(b"zeros:", [0, 0, 0, 0], [0, 0], [0, 0], 0);
    raw(b"sound:", [2, 3, 0, 2], [0, 1], [7, 7], 5);
    raw(b"a best:", [2, 3, 9, 2], [0, 1], [7, 7], 5);
    raw(b"levels equal:", [2, 3, 0, 2], [1, 1], [7, 7], 5);
    raw(b"levels 0:", [2, 3, 0, 2], [0, 0], [7, 7], 5);
    raw(b"levels falling:", [2, 3, 0, 2], [1, 0], [7, 7], 5);
    raw(b"a level of n:", [2, 3, 0, 2], [0, 2], [7, 7], 5);
    raw(b"the first of n:", [2, 3, 0, 1], [2, 0], [7, 7], 5);
    raw(b"a level of 2^64 - 1:", [2, 3, 0, 2], [EVERY, 0], [7, 7], 5);
    raw(b"a step too many:", [2, 3, 0, 2], [0, 1], [8, 7], 5);
    raw(b"a step too many above:", [2, 3, 0, 2], [0, 1], [7, 8], 5);
    raw(
        b"a step too many, not open:",
        [2, 3, 0, 1],
        [0, 1],
        [7, 8],
        5,
    );
    raw(b"none open:", [2, 3, 0, 0], [0, 1], [7, 7], 5);
    raw(b"more open than n:", [1, 3, 0, 2], [0, 1], [7, 7], 5);
    raw(b"2^64 - 1 open:", [2, 3, 0, EVERY], [0, 1], [7, 7], 5);
    raw(b"n = 0:", [0, 3, 0, 1], [0, 1], [7, 7], 5);
    raw(b"n = 23:", [23, 3, 0, 1], [22, 0], [7, 7], 5);
    raw(b"n = 24:", [24, 3, 0, 1], [22, 0], [7, 7], 5);
    raw(b"n = 2^64 - 1:", [EVERY, 3, 0, 1], [22, 0], [7, 7], 5);
}

// A sum of 2^60 is taken with a budget of 0 alone.
fn most_nodes() {
    let most_steps = 2 * MOST + 1;
    raw(b"2^60 nodes:", [2, MOST, 0, 2], [0, 1], [most_steps, 0], 0);
    raw(
        b"2^60 nodes and 1:",
        [2, MOST, 0, 2],
        [0, 1],
        [most_steps, 0],
        1,
    );
    raw(
        b"2^60 - 1 nodes and 1:",
        [2, MOST - 1, 0, 2],
        [0, 1],
        [most_steps - 2, 0],
        1,
    );
    raw(
        b"2^61 + 2 steps:",
        [2, MOST, 0, 2],
        [0, 1],
        [most_steps + 1, 0],
        0,
    );
    raw(b"2^60 + 1 nodes:", [2, MOST + 1, 0, 2], [0, 1], [0, 0], 0);
    raw(b"2^64 - 1 nodes:", [2, EVERY, 0, 2], [0, 1], [0, 0], 0);
}

// A level of weight and centre, with what remained, its nearest integer and the child that waits. Closed says whether the
// direction upward is, and downward. The standing radius is 100, the first one 50. It is picked up with 2 nodes and 9.
fn raw_level(
    case: &[u8],
    weight: f64,
    center: f64,
    remaining: f64,
    nearest: i64,
    waiting: i64,
    closed: [u64; 2],
) {
    let mut reals = [0.0; 5168];
    let mut integers = [0; 736];
    let mut counts = [0; 768];
    let mut out = [7];
    reals[0] = weight;
    reals[575] = 50.0;
    reals[576] = 100.0;
    reals[600] = center;
    reals[623] = remaining;
    integers[46] = nearest;
    integers[69] = waiting;
    counts[0] = 1;
    counts[1] = 3;
    counts[3] = 1;
    counts[27] = 7;
    counts[50] = closed[0];
    counts[73] = closed[1];
    pick_up(case, &mut reals, &mut integers, &mut counts, 1, &mut out, 2);
    pick_up(case, &mut reals, &mut integers, &mut counts, 1, &mut out, 9);
}

// Other readings: a direction's flag that is not read, or not written; the nearest integer made anew from the centre; the
// child that waits made anew from the steps; what remained made anew from the standing radius; 16 tells what stands.
fn raw_levels() {
    raw_level(b"open:", 1.0, 0.25, 40.0, 0, 0, [0, 0]);
    raw_level(b"upward closed:", 1.0, 0.25, 40.0, 0, 0, [1, 0]);
    raw_level(b"downward closed:", 1.0, 0.25, 40.0, 0, 0, [0, 2]);
    raw_level(b"both closed:", 1.0, 0.25, 40.0, 0, 0, [1, 1]);
    raw_level(b"another waits:", 1.0, 0.25, 40.0, 0, -9, [0, 0]);
    raw_level(b"another is nearest:", 1.0, 0.25, 40.0, 5, 0, [0, 0]);
    raw_level(b"nothing remained:", 1.0, 0.25, 0.0, 0, 0, [0, 0]);
    raw_level(b"a weight below 0:", -1.0, 0.25, 40.0, 0, 0, [0, 0]);
    raw_level(
        b"largest nearest:",
        0.0,
        0.25,
        40.0,
        i64::MAX,
        i64::MIN,
        [0, 0],
    );
    raw_level(
        b"smallest nearest:",
        -1.0,
        0.25,
        40.0,
        i64::MIN,
        i64::MAX,
        [0, 0],
    );
    raw_level(b"nan:", nan(), nan(), nan(), i64::MAX, i64::MIN, [0, 0]);
    raw_level(
        b"infinite:",
        -infinity(),
        infinity(),
        infinity(),
        i64::MAX,
        i64::MIN,
        [0, 0],
    );
    raw_level(
        b"0 times infinity:",
        0.0,
        infinity(),
        infinity(),
        0,
        0,
        [0, 0],
    );
}

// 2^60 nodes, 2^61 + 1 steps, and doubles that are none.
fn raw_ends() {
    let mut reals = [nan(); 5168];
    let mut integers = [i64::MIN; 736];
    let mut counts = [0; 768];
    let mut out = [7];
    integers[46] = i64::MAX;
    counts[0] = 1;
    counts[1] = MOST;
    counts[3] = 1;
    counts[27] = 2 * MOST + 1;
    pick_up(
        b"ends:",
        &mut reals,
        &mut integers,
        &mut counts,
        1,
        &mut out,
        0,
    );
    pick_up(
        b"ends and 1:",
        &mut reals,
        &mut integers,
        &mut counts,
        1,
        &mut out,
        1,
    );
}

// 2^60 - 3 nodes, and a child at every step.
fn raw_last_nodes() {
    let mut reals = [nan(); 5168];
    let mut integers = [i64::MIN; 736];
    let mut counts = [0; 768];
    let mut out = [7];
    reals[0] = -1.0;
    reals[576] = infinity();
    reals[577] = 0.0;
    reals[600] = 0.0;
    reals[623] = 0.0;
    integers[46] = i64::MAX;
    counts[0] = 1;
    counts[1] = MOST - 3;
    counts[3] = 1;
    counts[27] = 2 * MOST - 5;
    pick_up(
        b"ends and 2:",
        &mut reals,
        &mut integers,
        &mut counts,
        1,
        &mut out,
        2,
    );
    pick_up(
        b"ends and 2 + 1:",
        &mut reals,
        &mut integers,
        &mut counts,
        1,
        &mut out,
        1,
    );
    pick_up(
        b"ends and 2 + 1 + 1:",
        &mut reals,
        &mut integers,
        &mut counts,
        1,
        &mut out,
        1,
    );
}

// Levels 0 and 2 of three are open: coordinate 1 is what lies there, until level 2 has its next child. A best that lies
// there is the answer if nothing is nearer.
fn raw_gap() {
    let mut reals = [0.0; 5168];
    let mut integers = [0; 736];
    let mut counts = [0; 768];
    reals[0] = 1.0;
    reals[1] = 1.0;
    reals[2] = 1.0;
    reals[26] = 0.5;
    reals[29] = 0.5;
    reals[30] = 0.5;
    reals[552] = 0.25;
    reals[575] = 64.0;
    reals[576] = 2.0;
    reals[624] = 2.0;
    integers[1] = 5;
    integers[2] = -3;
    integers[70] = 1;
    counts[0] = 3;
    counts[1] = 2;
    counts[3] = 2;
    counts[5] = 2;
    counts[27] = 1;
    counts[28] = 1;
    gap(&mut reals, &mut integers, &mut counts);
    integers[23] = 40;
    integers[24] = 41;
    integers[25] = 42;
    reals[576] = -1.0;
    up_3(
        b"a gap, another best:",
        &mut reals,
        &mut integers,
        &mut counts,
        1,
        100,
    );
}

fn gap(reals: &mut [f64], integers: &mut [i64], counts: &mut [u64]) {
    up_3(b"a gap, 1 node:", reals, integers, counts, 1, 1);
    written(b"a gap:", reals, integers, counts);
    up_3(b"a gap, 2 nodes:", reals, integers, counts, 1, 1);
    written(b"a gap:", reals, integers, counts);
}

fn main() {
    sums();
    by_ones();
    contents();
    own_copy();
    in_use();
    turns();
    other_parts(1);
    other_parts(3);
    other_parts(8);
    outside();
    dimensions();
    of_23();
    name_range(0);
    name_range(9);
    name_range(EVERY);
    block_lengths();
    pickup_checks();
    soundness();
    most_nodes();
    raw_levels();
    raw_ends();
    raw_last_nodes();
    raw_gap();
}
