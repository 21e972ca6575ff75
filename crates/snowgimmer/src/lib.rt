// The library's calls for C and Rust. Each answers 0 or a refusal's number (the last one also another number that it is
// handed), and writes its report through first, second and real: what a success tells, or what the refusal carries. A
// refusal leaves every lent slice as it was, but for the block of kept searches: 15 keeps a search in it, and 16 of a pickup
// empties a name. Names, parameters, numbers and the three values of a report are the C interface's.
#![tactic(auto)]

ghost use Rattle.std.specs.Prelude.{◌≡◌};
ghost use Rattle.rounding.specs.Integers.{round_away};
ghost use Rattle.definitions.specs.Lent.{at_entry, at_exit, table_at};
ghost use Rattle.definitions.specs.Calls as C;
ghost use Rattle.definitions.specs.Entries.{entry_of};
ghost use Rattle.parts.specs.Parts.{block};
ghost use Rattle.snowgimmer.specs.Reports.{told_at};
ghost use Rattle.snowgimmer.specs.Told.{DistanceTold, NearestTold, SeededTold, MlTold, PreparedTold, ListTold, RatioTold, RoundTold, PlaneTold, ChangeTold, EntryTold, NamedTold, PickUpTold, TurnTold};

mod entries;
mod integers;
mod report;

use babai::{nearest_plane, round};
use entries::entry_report;
use enumerate::nearest;
use integers::read_integers;
use kept::{nearest_named, pick_up};
use listing::list;
use prepared::prepared_nearest_ml;
use ratio::ratio_of;
use reference::change_reference;
use report::{distance_report, list_report, nearest_report, ratio_report, stored, verdict_report};
use rounding::round_away;
use seeded::{nearest_ml, nearest_seeded};
use turns::turn;

// The nearest integer, halves away from zero; beyond i64 its nearest end, and 0 of a NaN.
pub fn snowgimmer_round_away(x: f64) -> i64
    ensures { result ≡ round_away x }
{
    round_away(x)
}

// The nearest integer vector inside the radius goes to out; first is the number of nodes, real the vector's distance. From
// n = 24 on it is the vector that the walk with running centres ends with.
//
// Refused: 2 to 9, 15 and 16.
pub fn snowgimmer_nearest(
    weights: &[f64],
    mu: &[f64],
    target: &[f64],
    out: &mut [i64],
    radius: f64,
    budget: u64,
    first: &mut u64,
    second: &mut u64,
    real: &mut f64,
) -> u32
    ensures { NearestTold (table_at weights mu) (at_entry target) out.old radius budget (told_at result first second real) out.new }
{
    let answer = nearest(weights, mu, target, out, radius, budget);
    stored(nearest_report(answer), first, second, real)
}

// The nearest integer vector inside the widened radius goes to out, a candidate inside the radius being known; first is the
// number of nodes, real the vector's distance.
//
// Refused: 2 to 13 and 15.
pub fn snowgimmer_nearest_seeded(
    weights: &[f64],
    mu: &[f64],
    target: &[f64],
    out: &mut [i64],
    candidate: &[i64],
    radius: f64,
    budget: u64,
    first: &mut u64,
    second: &mut u64,
    real: &mut f64,
) -> u32
    ensures { SeededTold (table_at weights mu) (at_entry target) out.old (at_entry candidate) radius budget (told_at result first second real) out.new }
{
    read_integers(candidate);
    let answer = nearest_seeded(weights, mu, target, out, candidate, radius, budget);
    stored(nearest_report(answer), first, second, real)
}

// The nearest integer vector goes to out, from the nearest-plane point as candidate; first is the number of nodes, real the
// vector's distance.
//
// Refused: 2 to 7, 9, 11, 13 and 15.
pub fn snowgimmer_nearest_ml(
    weights: &[f64],
    mu: &[f64],
    target: &[f64],
    out: &mut [i64],
    budget: u64,
    first: &mut u64,
    second: &mut u64,
    real: &mut f64,
) -> u32
    ensures { MlTold (table_at weights mu) (at_entry target) out.old budget (told_at result first second real) out.new }
{
    let answer = nearest_ml(weights, mu, target, out, budget);
    stored(nearest_report(answer), first, second, real)
}

// The nearest integer vector to a target in the receiver's coordinates goes to out, in them: the search is that of
// snowgimmer_nearest_ml over the table's reduced coordinates, which transform maps to the receiver's and inverse maps
// back, n·n integers each, row by row. first is the number of nodes, real the distance of the vector before mapping.
//
// Refused: 2 to 5, 22, 23, 6, 7 (of the given target, then of the transformed one), 9, 11, 13, 15 and 24, in this order.
pub fn snowgimmer_prepared_nearest_ml(
    weights: &[f64],
    mu: &[f64],
    transform: &[i64],
    inverse: &[i64],
    target: &[f64],
    out: &mut [i64],
    budget: u64,
    first: &mut u64,
    second: &mut u64,
    real: &mut f64,
) -> u32
    ensures { PreparedTold (table_at weights mu) (at_entry transform) (at_entry inverse) (at_entry target) out.old budget (told_at result first second real) out.new }
{
    let answer = prepared_nearest_ml(weights, mu, transform, inverse, target, out, budget);
    stored(nearest_report(answer), first, second, real)
}

// snowgimmer_nearest for n up to 23, with a name from 1 to 8: a search whose budget runs out is kept in the block, which is
// lent as three slices, under the name, with its own copy of table and target, in the place of what was there.
//
// Refused: 25, 6 of the block's slices, 2 to 9, 15 and 16, in this order. 15 alone changes the block.
pub fn snowgimmer_nearest_named(
    reals: &mut [f64],
    integers: &mut [i64],
    counts: &mut [u64],
    name: u64,
    weights: &[f64],
    mu: &[f64],
    target: &[f64],
    out: &mut [i64],
    radius: f64,
    budget: u64,
    first: &mut u64,
    second: &mut u64,
    real: &mut f64,
) -> u32
    ensures { NamedTold (block reals.old integers.old counts.old) name (table_at weights mu) (at_entry target) out.old radius budget (told_at result first second real) out.new (block reals.new integers.new counts.new) }
{
    let answer = nearest_named(
        reals, integers, counts, name, weights, mu, target, out, radius, budget,
    );
    stored(nearest_report(answer), first, second, real)
}

// The search that the name holds goes on by a further budget: the answer is that of one search with all its budgets, and
// first is the number of all its nodes. If it is over the name is emptied, else it is kept again.
//
// Refused: 25, 6 of the block's slices, 26, 6 of out, 27, 15 and 16, in this order. 15 and 16 alone change the block.
pub fn snowgimmer_pick_up(
    reals: &mut [f64],
    integers: &mut [i64],
    counts: &mut [u64],
    name: u64,
    out: &mut [i64],
    budget: u64,
    first: &mut u64,
    second: &mut u64,
    real: &mut f64,
) -> u32
    ensures { PickUpTold (block reals.old integers.old counts.old) name out.old budget (told_at result first second real) out.new (block reals.new integers.new counts.new) }
{
    let answer = pick_up(reals, integers, counts, name, out, budget);
    stored(nearest_report(answer), first, second, real)
}

// A turn of the kept searches: the next held name after last, which becomes that name, is picked up with a slice of nodes,
// from 1 to 2^20. Before the first turn last is 0. name is the name served and n the n of its search, 0 and 0 if a check
// refuses the turn; the rest is told as by snowgimmer_pick_up, and a point goes to the first n places of out, which has 23.
// A search whose nodes and the slice together are above 2^60 is told by 15 as it stands, and its name is emptied.
//
// Refused: 28, 6 of the block's slices, 29, 6 of out, 15 and 16, in this order. Of these 15 and 16 alone change block and
// last.
pub fn snowgimmer_turn(
    reals: &mut [f64],
    integers: &mut [i64],
    counts: &mut [u64],
    last: &mut u64,
    out: &mut [i64],
    slice: u64,
    name: &mut u64,
    n: &mut u64,
    first: &mut u64,
    second: &mut u64,
    real: &mut f64,
) -> u32
    ensures { TurnTold (block reals.old integers.old counts.old) last.old out.old slice name.new n.new (told_at result first second real) out.new (block reals.new integers.new counts.new) last.new }
{
    let told = turn(reals, integers, counts, last, out, slice);
    *name = told.name;
    *n = told.n;
    stored(nearest_report(told.answer), first, second, real)
}

// Every integer vector that is admitted at the radius, in the order of `list`: first is the number of nodes, second
// that of points. What lies behind the last point stays as it was. From n = 24 on they are the vectors
// that the walk with running centres finds. It needs at most 1 MB of stack.
//
// Refused: 2 to 9, 14, 15 and 18.
pub fn snowgimmer_list(
    weights: &[f64],
    mu: &[f64],
    target: &[f64],
    distances: &mut [f64],
    points: &mut [i64],
    radius: f64,
    budget: u64,
    first: &mut u64,
    second: &mut u64,
    real: &mut f64,
) -> u32
    ensures { ListTold (table_at weights mu) (at_entry target) distances.old points.old radius budget (told_at result first second real) distances.new points.new }
{
    let answer = list(weights, mu, target, distances, points, radius, budget);
    stored(list_report(answer), first, second, real)
}

// The verdict on a list by the distances that it wrote at the radius, as many as it has points, and by the factors p and q:
// in first 0 for none, 1 for holds, 2 for fails, 3 for open. Of other distances it is the same formula.
//
// Refused: 21.
pub fn snowgimmer_ratio(
    distances: &[f64],
    radius: f64,
    p: u64,
    q: u64,
    first: &mut u64,
    second: &mut u64,
    real: &mut f64,
) -> u32
    ensures { RatioTold (at_entry distances) radius p q (told_at result first second real) }
{
    let answer = ratio_of(distances, radius, p, q);
    stored(ratio_report(answer), first, second, real)
}

// Each coefficient by itself is rounded to out.
//
// Refused: 6 and 7.
pub fn snowgimmer_round(
    coefficients: &[f64],
    out: &mut [i64],
    first: &mut u64,
    second: &mut u64,
    real: &mut f64,
) -> u32
    ensures { RoundTold (at_entry coefficients) out.old (told_at result first second real) out.new }
{
    let answer = round(coefficients, out);
    stored(verdict_report(answer), first, second, real)
}

// Babai's nearest plane goes to out, and t - z to the coefficients.
//
// Refused: 2 to 7.
pub fn snowgimmer_nearest_plane(
    weights: &[f64],
    mu: &[f64],
    coefficients: &mut [f64],
    out: &mut [i64],
    first: &mut u64,
    second: &mut u64,
    real: &mut f64,
) -> u32
    ensures { PlaneTold (table_at weights mu) coefficients.old out.old (told_at result first second real) coefficients.new out.new }
{
    let answer = nearest_plane(weights, mu, coefficients, out);
    stored(verdict_report(answer), first, second, real)
}

// The computed distance of a point, in real.
//
// Refused: 2 to 7, the point in the output's place, and 11 (total).
pub fn snowgimmer_distance(
    weights: &[f64],
    mu: &[f64],
    target: &[f64],
    point: &[i64],
    first: &mut u64,
    second: &mut u64,
    real: &mut f64,
) -> u32
    ensures { DistanceTold (table_at weights mu) (at_entry target) (at_entry point) (told_at result first second real) }
{
    stored(
        distance_report(weights, mu, target, point),
        first,
        second,
        real,
    )
}

// The reference satellite of a point becomes that of coordinate r, which turns into -a(r), and every other a(i) into
// a(i) - a(r). The point is read and written, and may have any length.
//
// Refused: 19 and 20.
pub fn snowgimmer_change_reference(
    point: &mut [i64],
    r: usize,
    first: &mut u64,
    second: &mut u64,
    real: &mut f64,
) -> u32
    ensures { ChangeTold point.old r (told_at result first second real) point.new }
{
    read_integers(point);
    let answer = change_reference(point, r);
    stored(verdict_report(answer), first, second, real)
}

// 3 and 4 of a table's entries, one at a time: the verdict on those handed in so far, this one included, and in first its
// index. number and at are the result and first of the call for the entry before; at the start 0, with any at. Hand in the
// entries that are read and no others, by rising index: n is not known here, so each one counts. 3 is final; a 4 becomes 3
// at a later entry that is not finite. A number other than 0, 3 and 4 is told again, with at.
pub fn snowgimmer_check_entry(
    number: u32,
    at: u64,
    index: usize,
    entry: f64,
    first: &mut u64,
    second: &mut u64,
    real: &mut f64,
) -> u32
    ensures { EntryTold number at (entry_of index entry) (told_at result first second real) }
{
    stored(entry_report(number, at, index, entry), first, second, real)
}
