// The list of the integer vectors within a radius.
#![tactic(auto)]

ghost use Rattle.std.specs.Prelude.{◌≡◌, ◌*◌, ◌≤◌, length};
ghost use Rattle.definitions.specs.Table.{table, largest_dimension, largest_list};
ghost use Rattle.definitions.specs.Lent.{at_entry, at_exit, table_at};
ghost use Rattle.definitions.specs.Calls as C;
ghost use Rattle.listing.specs.View.{ListAnswered, list_at};
ghost use Rattle.listing.specs.Ready.{RoomsReady, Rooms, ListFits, WithinReady, IntoReady};
ghost use Rattle.refusals.specs.declared.Refusal.TheVariants.{BudgetExhausted};

mod output;
mod walks;

use checks::{handed_on, list_check};
use definitions::{LARGEST_DIMENSION, LARGEST_LIST, LARGEST_LIST_POINTS, LARGEST_SEARCHED};
use output::write_first;
use refusals::Refusal;
use walks::{search_walk, walk_in_place};

// The places of a short list, as many as the job has, and its coordinates at n = 23, at n = 32 and at n = 64.
const SHORT_LIST: usize = 256;

const SHORT_LIST_POINTS: usize = SHORT_LIST * LARGEST_DIMENSION;

const BROAD_LIST_POINTS: usize = SHORT_LIST * 32;

const WIDE_LIST_POINTS: usize = SHORT_LIST * LARGEST_SEARCHED;

// The coordinates of a list of the middle size: all places at n = 8.
const MIDDLE_LIST_POINTS: usize = LARGEST_LIST * 8;

// What a list gives beside the slices that it writes: the number of nodes, and of points.
#[derive(Clone, Copy)]
pub struct ListFound {
    pub nodes: u64,
    pub points: usize,
}

// How far a list walk came whose budget ran out: its nodes, and the radius that stood.
#[derive(Clone, Copy)]
pub struct Exhausted {
    pub nodes: u64,
    pub radius: f64,
}

impl From<Exhausted> for Refusal {
    ghost from_gives = { λ x e. e ≡ BudgetExhausted x.nodes x.radius };

    fn from(x: Exhausted) -> Refusal {
        Refusal::BudgetExhausted(x.nodes, x.radius)
    }
}

// `list` once its checks have passed. What is found goes to measured and vectors; order and spare are room for the sort.
// Where there are places for more points than those have room for, and more are found, the walk is made again, straight
// into the places.
fn list_into(
    weights: &[f64],
    mu: &[f64],
    target: &[f64],
    measured: &mut [f64],
    vectors: &mut [i64],
    order: &mut [usize],
    spare: &mut [usize],
    distances: &mut [f64],
    points: &mut [i64],
    radius: f64,
    budget: u64,
) -> Result<ListFound, Refusal>
    requires { IntoReady (table weights.now mu.now) target.now distances.old points.old radius budget measured.old vectors.old order.old spare.old }
    ensures { ListAnswered (list_at weights mu target distances points radius budget) result distances.old distances.new points.old points.new }
{
    let n = weights.len();
    let start = handed_on(radius);
    let found = search_walk(weights, mu, target, measured, vectors, start, budget)?;
    let k = found.points;
    if k > distances.len() {
        return Err(Refusal::ListFull(k));
    }
    if k > measured.len() {
        let size = k * n;
        walk_in_place(
            weights,
            mu,
            target,
            &mut distances[..k],
            &mut points[..size],
            start,
            budget,
        );
        return Ok(found);
    }
    write_first(
        measured, vectors, n, k, start, order, spare, distances, points,
    );
    Ok(found)
}

// How many points so many coordinates have room for: as many as there are places, or fewer.
fn rooms(coordinates: usize, n: usize, places: usize) -> usize
    requires { RoomsReady n places }
    ensures { Rooms coordinates n places result }
{
    if places * n <= coordinates {
        return places;
    }
    coordinates / n
}

// `list_into` with as much of longer arrays as there are places, or as the coordinates have room for.
fn list_within(
    weights: &[f64],
    mu: &[f64],
    target: &[f64],
    measured: &mut [f64],
    vectors: &mut [i64],
    order: &mut [usize],
    spare: &mut [usize],
    distances: &mut [f64],
    points: &mut [i64],
    radius: f64,
    budget: u64,
) -> Result<ListFound, Refusal>
    requires { WithinReady (table weights.now mu.now) target.now distances.old points.old radius budget measured.old vectors.old order.old spare.old }
    ensures { ListAnswered (list_at weights mu target distances points radius budget) result distances.old distances.new points.old points.new }
{
    let room = rooms(vectors.len(), weights.len(), distances.len());
    let size = room * weights.len();
    list_into(
        weights,
        mu,
        target,
        &mut measured[..room],
        &mut vectors[..size],
        &mut order[..room],
        &mut spare[..room],
        distances,
        points,
        radius,
        budget,
    )
}

// `list` once its checks have passed, with arrays for so many places and coordinates: the shorter they are, the less there is
// to clear. It is not inlined: so the arrays of each size lie in a frame of their own, and a caller that lends few places does
// not need the stack of the long ones.
// Arrays, as nothing here is on a heap; distances and points are two slices, as C lends them.
#[inline(never)]
fn list_with<const PLACES: usize, const COORDINATES: usize>(
    weights: &[f64],
    mu: &[f64],
    target: &[f64],
    distances: &mut [f64],
    points: &mut [i64],
    radius: f64,
    budget: u64,
) -> Result<ListFound, Refusal>
    requires few { PLACES ≤ largest_list }
    requires short { COORDINATES ≤ largest_list * largest_dimension }
    requires fits { ListFits (table weights.now mu.now) target.now distances.old points.old radius budget PLACES }
    ensures { ListAnswered (list_at weights mu target distances points radius budget) result distances.old distances.new points.old points.new }
{
    let mut measured = [0.0; PLACES];
    let mut vectors = [0i64; COORDINATES];
    let mut order = [0usize; PLACES];
    let mut spare = [0usize; PLACES];
    list_within(
        weights,
        mu,
        target,
        &mut measured,
        &mut vectors,
        &mut order,
        &mut spare,
        distances,
        points,
        radius,
        budget,
    )
}

// Lists every integer vector that is admitted at the radius, in the order of their distances, and where these are equal
// in lexicographic order: the distances go to `distances`, n coordinates for each to `points`. The answer has the
// number of nodes and of points. What lies behind the last point stays as it was. From n = 24 on the vectors are those
// that the walk with running centres finds.
//
// Refused: 2 to 9, the table and the call; 14, too many places or points that don't match them (the distances' length);
// 15, the budget ran out (nodes, the radius); 18, more points than places (points). A refusal leaves both slices as
// they were. The call needs at most 1 MB of stack, with at most 256 places 0.25 MB, and 0.15 MB where the shortest arrays do.
pub fn list(
    weights: &[f64],
    mu: &[f64],
    target: &[f64],
    distances: &mut [f64],
    points: &mut [i64],
    radius: f64,
    budget: u64,
) -> Result<ListFound, Refusal>
    ensures { ListAnswered (list_at weights mu target distances points radius budget) result distances.old distances.new points.old points.new }
{
    list_check(
        LARGEST_SEARCHED,
        weights,
        mu,
        target,
        distances,
        points,
        radius,
        budget,
    )?;
    if distances.len() <= SHORT_LIST && points.len() <= SHORT_LIST_POINTS {
        return list_with::<SHORT_LIST, SHORT_LIST_POINTS>(
            weights, mu, target, distances, points, radius, budget,
        );
    }
    if distances.len() <= SHORT_LIST && points.len() <= BROAD_LIST_POINTS {
        return list_with::<SHORT_LIST, BROAD_LIST_POINTS>(
            weights, mu, target, distances, points, radius, budget,
        );
    }
    if distances.len() <= SHORT_LIST {
        return list_with::<SHORT_LIST, WIDE_LIST_POINTS>(
            weights, mu, target, distances, points, radius, budget,
        );
    }
    if points.len() <= MIDDLE_LIST_POINTS {
        return list_with::<LARGEST_LIST, MIDDLE_LIST_POINTS>(
            weights, mu, target, distances, points, radius, budget,
        );
    }
    list_with::<LARGEST_LIST, LARGEST_LIST_POINTS>(
        weights, mu, target, distances, points, radius, budget,
    )
}
