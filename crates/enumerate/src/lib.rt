// The searches: the nearest integer vector to a target in a triangular table's metric.
#![tactic(auto)]

ghost use Rattle.std.specs.Prelude.{◌≡◌, List, ℤ};
ghost use Rattle.definitions.specs.Table.{largest_dimension, largest_searched};
ghost use Rattle.definitions.specs.Shapes.{WalkShaped};
ghost use Rattle.definitions.specs.Lent.{at_entry, at_exit, table_at};
ghost use Rattle.definitions.specs.Nearest.{nearest_walk};
ghost use Rattle.definitions.specs.Running.{nearest_search};
ghost use Rattle.definitions.specs.Calls as C;
ghost use Rattle.enumerate.specs.View.{walked_of, nearest_answer, NearestWalked, NearestAnswered};

pub mod epoch;
mod large;

use checks::{handed_on, nearest_check};
use definitions::{LARGEST_DIMENSION, LARGEST_SEARCHED};
use large::running_walk;
use lists::copy;
use refusals::Refusal;
use search::{RecursiveSearch, run};

// What a nearest search gives beside the point that it writes.
#[derive(Clone, Copy)]
pub struct NearestPoint {
    pub nodes: u64,
    pub distance: f64,
}

// How a nearest walk ended: with a point, with none, or out of budget; each with the nodes and the radius that stood,
// which is the distance of a point found. Three ends, so neither an Option nor a Result; those of the definitions' walk.
#[derive(Clone, Copy)]
enum Ending {
    Point(u64, f64),
    Nothing(u64, f64),
    Exhausted(u64, f64),
}

// The nearest walk over a table and a target that passed their checks. A point found goes to out; otherwise out is left
// as it was.
fn nearest_walk(
    weights: &[f64],
    mu: &[f64],
    target: &[f64],
    out: &mut [i64],
    radius: f64,
    budget: u64,
) -> Ending
    requires { WalkShaped largest_dimension weights.now mu.now target.now out.old budget }
    ensures { NearestWalked (nearest_walk (table_at weights mu) (at_entry target) radius budget) out.old result out.new }
{
    let mut rest = [0.0; LARGEST_DIMENSION];
    let mut distances = [0.0; 0];
    let mut points = [0i64; 0];
    let mut found = 0;
    let mut exhausted = false;
    let end = run(
        mu,
        weights,
        target,
        &mut rest,
        &mut distances,
        &mut points,
        &mut found,
        &mut exhausted,
        false,
        budget,
        weights.len(),
        0.0,
        RecursiveSearch::new(radius),
    );
    if exhausted {
        return Ending::Exhausted(end.nodes, end.radius);
    }
    if found == 0 {
        return Ending::Nothing(end.nodes, end.radius);
    }
    copy(&end.best, out);
    Ending::Point(end.nodes, end.radius)
}

// The walk by n: with running centres from 24 on.
fn search_walk(
    weights: &[f64],
    mu: &[f64],
    target: &[f64],
    out: &mut [i64],
    radius: f64,
    budget: u64,
) -> Ending
    requires { WalkShaped largest_searched weights.now mu.now target.now out.old budget }
    ensures { NearestWalked (nearest_search (table_at weights mu) (at_entry target) radius budget) out.old result out.new }
{
    if weights.len() <= LARGEST_DIMENSION {
        return nearest_walk(weights, mu, target, out, radius, budget);
    }
    running_walk(weights, mu, target, out, radius, budget)
}

// The answer that the end of a walk from a radius gives.
fn answer_of(end: Ending, radius: f64) -> Result<NearestPoint, Refusal>
    ensures { (out : List ℤ) → nearest_answer result out ≡ C.end_of_nearest radius (walked_of end out) }
{
    match end {
        Ending::Point(nodes, distance) => Ok(NearestPoint { nodes, distance }),
        Ending::Nothing(_, _) => Err(Refusal::OutsideRadius(radius)),
        Ending::Exhausted(nodes, standing) => Err(Refusal::BudgetExhausted(nodes, standing)),
    }
}

// The search of `nearest`, `nearest_seeded` and `nearest_ml` once their checks have passed: the walk from a radius. A
// point found goes to out; otherwise out is left as it was.
pub fn nearest_within(
    weights: &[f64],
    mu: &[f64],
    target: &[f64],
    out: &mut [i64],
    radius: f64,
    budget: u64,
) -> Result<NearestPoint, Refusal>
    requires { WalkShaped largest_searched weights.now mu.now target.now out.old budget }
    ensures { NearestAnswered (C.nearest_within (table_at weights mu) (at_entry target) radius budget) out.old result out.new }
{
    let end = search_walk(weights, mu, target, out, radius, budget);
    answer_of(end, radius)
}

// Finds the nearest integer vector inside the radius and writes it to out, coordinate 0 first; tells the nodes and the
// point's distance. From n = 24 on that is the point at which the walk with running centres ends, and its distance there.
//
// Refused: 2 to 9, the table and the call; 15, the budget ran out (nodes, the radius that stood); 16, no vector is
// inside (radius). A refusal leaves out as it was.
pub fn nearest(
    weights: &[f64],
    mu: &[f64],
    target: &[f64],
    out: &mut [i64],
    radius: f64,
    budget: u64,
) -> Result<NearestPoint, Refusal>
    ensures { NearestAnswered (C.nearest (table_at weights mu) (at_entry target) out.old radius budget) out.old result out.new }
{
    nearest_check(LARGEST_SEARCHED, weights, mu, target, out, radius, budget)?;
    nearest_within(weights, mu, target, out, handed_on(radius), budget)
}
