// The walk of nearest and of list with running centres, for n up to 64: each centre is kept from node to node and changed
// by what one coordinate changed by. The arrays are lent, as a struct of their size is slow to copy.
#![tactic(auto)]

ghost use Rattle.definitions.specs.Lent.{at_entry, at_exit, table_at};
ghost use Rattle.running.specs.Call.{call_of, call_at, exit_state, Ready, Returned};
ghost use Rattle.running.specs.Search.{SearchReady, Searched};

mod centers;
mod leaves;

use centers::{initialize_centers, update_centers};
use children::Children;
use definitions::LARGEST_SEARCHED;
use leaves::consider;
use search::push;

// The standing radius and the number of nodes. The point under trial and the best are lent beside it.
#[derive(Clone, Copy)]
pub struct Standing {
    pub radius: f64,
    pub nodes: u64,
}

// The walk with `depth` levels left, as `search::run`: an entry of `centers` is its level's centre for the coordinates that
// `point` holds. A level reads its own only when it is entered, and neither array is set back when the walk goes up. `listing`
// is a flag as there.
fn run(
    mu: &[f64],
    weights: &[f64],
    point: &mut [i64; LARGEST_SEARCHED],
    best: &mut [i64; LARGEST_SEARCHED],
    centers: &mut [f64; LARGEST_SEARCHED],
    distances: &mut [f64],
    points: &mut [i64],
    found: &mut u64,
    exhausted: &mut bool,
    listing: bool,
    budget: u64,
    depth: usize,
    partial: f64,
    mut s: Standing,
) -> Standing
    requires { Ready (call_of mu weights point best centers distances points found exhausted listing budget depth partial s) }
    ensures { Returned (call_at mu weights point best centers distances points found exhausted listing budget depth partial s) (exit_state point best centers distances points found exhausted listing result) }
{
    if depth == 0 {
        if listing {
            push(point, weights.len(), partial, distances, points, found);
            return s;
        }
        return consider(point, best, weights.len(), partial, found, s);
    }
    let level = depth - 1;
    let Some(made) = Children::new(centers[level], s.radius - partial, weights[level]) else {
        return s;
    };
    let Some((mut child, mut zigzag)) = made.first() else {
        return s;
    };
    loop {
        if s.nodes >= budget {
            *exhausted = true;
            return s;
        }
        s.nodes += 1;
        let sum = partial + child.term;
        update_centers(mu, weights, point, centers, level, child.z, child.value);
        let following = zigzag.next();
        let Some((trial, after)) = following else {
            if sum <= s.radius {
                return run(
                    mu, weights, point, best, centers, distances, points, found, exhausted,
                    listing, budget, level, sum, s,
                );
            }
            return s;
        };
        if sum <= s.radius {
            s = run(
                mu, weights, point, best, centers, distances, points, found, exhausted, listing,
                budget, level, sum, s,
            );
            if *exhausted {
                return s;
            }
            child = trial;
            zigzag = after;
            continue;
        }
        child = trial;
        zigzag = after;
    }
}

// The whole walk over a table and a target that passed their checks: of nearest, or with `listing` of list. `best` is
// written where a point is found, `distances` and `points` by list alone. `found` is 0 and `exhausted` false on entry.
pub fn search(
    mu: &[f64],
    weights: &[f64],
    target: &[f64],
    best: &mut [i64; LARGEST_SEARCHED],
    distances: &mut [f64],
    points: &mut [i64],
    found: &mut u64,
    exhausted: &mut bool,
    listing: bool,
    budget: u64,
    radius: f64,
) -> Standing
    requires { SearchReady weights.now mu.now target.now best.old distances.old points.old found.old exhausted.old budget }
    ensures { Searched listing (table_at weights mu) (at_entry target) radius budget distances.old points.old result best.new distances.new points.new found.new exhausted.new }
{
    let mut point = [0; LARGEST_SEARCHED];
    let mut centers = [0.0; LARGEST_SEARCHED];
    let n = weights.len();
    initialize_centers(mu, target, &mut centers[..n]);
    let start = Standing { radius, nodes: 0 };
    run(
        mu,
        weights,
        &mut point,
        best,
        &mut centers,
        distances,
        points,
        found,
        exhausted,
        listing,
        budget,
        n,
        0.0,
        start,
    )
}
