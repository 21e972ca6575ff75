// The nearest searches from a candidate: one that the caller gives, and the nearest-plane point.
#![tactic(auto)]

ghost use Rattle.std.specs.Prelude.{◌≡◌};
ghost use Rattle.definitions.specs.Table.{largest_dimension};
ghost use Rattle.definitions.specs.Shapes.{Shaped, WalkShaped};
ghost use Rattle.definitions.specs.Lent.{at_entry, at_exit, table_at};
ghost use Rattle.definitions.specs.Calls as C;
ghost use Rattle.enumerate.specs.View.{NearestAnswered};
ghost use Rattle.seeded.specs.Candidates.{CandidateShaped, ml_search};

use babai::plane_levels;
use checks::{handed_on, ml_check, seeded_check, total_check, widened_radius};
use definitions::LARGEST_DIMENSION;
use distance::total;
use enumerate::{NearestPoint, nearest_within};
use lists::copy;
use refusals::Refusal;

// The search of `nearest`, at the widened radius.
fn widened_search(
    weights: &[f64],
    mu: &[f64],
    target: &[f64],
    out: &mut [i64],
    radius: f64,
    budget: u64,
) -> Result<NearestPoint, Refusal>
    requires { WalkShaped largest_dimension weights.now mu.now target.now out.old budget }
    ensures { NearestAnswered (C.widened_search (table_at weights mu) (at_entry target) radius budget) out.old result out.new }
{
    let wide = widened_radius(weights.len(), radius);
    nearest_within(weights, mu, target, out, wide, budget)
}

// Finds the nearest integer vector inside the widened radius, a candidate inside the radius being known; tells the nodes
// and the point's distance.
//
// Refused: 2 to 9, the table and the call; 10 to 13, the candidate and the radius; 15, the budget ran out (nodes, the
// radius that stood). A refusal leaves out as it was.
//
// Once the checks have passed, a budget with a node for every prefix opened at the widened radius always gives a point: the
// candidate is inside.
pub fn nearest_seeded(
    weights: &[f64],
    mu: &[f64],
    target: &[f64],
    out: &mut [i64],
    candidate: &[i64],
    radius: f64,
    budget: u64,
) -> Result<NearestPoint, Refusal>
    ensures { NearestAnswered (C.nearest_seeded (table_at weights mu) (at_entry target) out.old (at_entry candidate) radius budget) out.old result out.new }
{
    seeded_check(
        LARGEST_DIMENSION,
        weights,
        mu,
        target,
        out,
        candidate,
        radius,
        budget,
    )?;
    widened_search(weights, mu, target, out, handed_on(radius), budget)
}

// The distance of the nearest-plane point, which is left in `point`.
fn plane_total(
    weights: &[f64],
    mu: &[f64],
    target: &[f64],
    coefficients: &mut [f64],
    point: &mut [i64],
) -> f64
    requires { CandidateShaped weights.now mu.now target.now coefficients.old point.old }
    ensures { result ≡ C.ml_radius (table_at weights mu) (at_entry target) }
{
    copy(target, coefficients);
    plane_levels(weights, mu, coefficients, point);
    total(mu, weights, target, point)
}

// The radius of `nearest_ml`: the distance of the nearest-plane point.
fn ml_radius(weights: &[f64], mu: &[f64], target: &[f64]) -> f64
    requires { Shaped largest_dimension weights.now mu.now target.now }
    ensures { result ≡ C.ml_radius (table_at weights mu) (at_entry target) }
{
    let n = weights.len();
    let mut coefficients = [0.0; LARGEST_DIMENSION];
    let mut point = [0i64; LARGEST_DIMENSION];
    plane_total(weights, mu, target, &mut coefficients[..n], &mut point[..n])
}

// `nearest_ml` behind its first checks: 11 and 13, then the search at the widened radius.
pub fn ml_search(
    weights: &[f64],
    mu: &[f64],
    target: &[f64],
    out: &mut [i64],
    budget: u64,
) -> Result<NearestPoint, Refusal>
    requires { WalkShaped largest_dimension weights.now mu.now target.now out.old budget }
    ensures { NearestAnswered (ml_search (table_at weights mu) (at_entry target) budget) out.old result out.new }
{
    let radius = ml_radius(weights, mu, target);
    total_check(weights.len(), radius)?;
    widened_search(weights, mu, target, out, radius, budget)
}

// Finds the nearest integer vector; tells the nodes and the point's distance. The candidate is the nearest-plane point,
// and the radius is that point's distance.
//
// Refused: 2 to 7 and 9, the table and the call; 11 and 13, the candidate's distance; 15, the budget ran out (nodes, the
// radius that stood). A refusal leaves out as it was.
//
// Once the checks have passed, a budget with a node for every prefix opened at the widened radius always gives a point: the
// candidate is inside.
pub fn nearest_ml(
    weights: &[f64],
    mu: &[f64],
    target: &[f64],
    out: &mut [i64],
    budget: u64,
) -> Result<NearestPoint, Refusal>
    ensures { NearestAnswered (C.nearest_ml (table_at weights mu) (at_entry target) out.old budget) out.old result out.new }
{
    ml_check(LARGEST_DIMENSION, weights, mu, target, out, budget)?;
    ml_search(weights, mu, target, out, budget)
}
