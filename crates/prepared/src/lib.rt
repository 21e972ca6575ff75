// The nearest search in the receiver's coordinates: over a table of reduced ones, with the matrices between the two.
#![tactic(auto)]

ghost use Rattle.std.specs.Prelude.{◌≡◌, Ok, length};
ghost use Rattle.definitions.specs.Table.{largest_dimension};
ghost use Rattle.definitions.specs.Checks.{first_refusal};
ghost use Rattle.definitions.specs.Prepared as P;
ghost use Rattle.definitions.specs.Lent.{at_entry, at_exit, table_at};
ghost use Rattle.refusals.specs.Numbers.{verdict};
ghost use Rattle.enumerate.specs.View.{nearest_answer, NearestAnswered};
ghost use Rattle.prepared.specs.Shapes.{MapShaped, PreparedShaped};
ghost use Rattle.prepared.specs.Searched.{searched_at};

use checks::{table_check, target_budget_check, target_output_check};
use definitions::LARGEST_DIMENSION;
use enumerate::NearestPoint;
use matrices::{map_point, matrix_check, transform_target};
use refusals::Refusal;
use seeded::ml_search;

// 2 to 5, 22 and 23, 6 of the target and of the output, then 7 of the given target.
fn given_check(
    weights: &[f64],
    mu: &[f64],
    transform: &[i64],
    inverse: &[i64],
    target: &[f64],
    out: &[i64],
) -> Result<(), Refusal>
    ensures { verdict result ≡ first_refusal (P.given_checks largest_dimension (table_at weights mu) (at_entry transform) (at_entry inverse) (at_entry target) (at_entry out)) }
{
    table_check(LARGEST_DIMENSION, weights, mu)?;
    let n = weights.len();
    matrix_check(n, transform, inverse)?;
    target_output_check(n, target, out)
}

// The answer of a search over the table that found a point, with that point mapped to out, or 24.
fn mapped_answer(
    transform: &[i64],
    point: &[i64],
    found: NearestPoint,
    out: &mut [i64],
) -> Result<NearestPoint, Refusal>
    requires { MapShaped transform.now point.now out.old }
    ensures { NearestAnswered (P.mapped_answer (length out.old) (at_entry transform) (nearest_answer (Ok found) (at_entry point))) out.old result out.new }
{
    let n = out.len();
    let mut mapped = [0i64; LARGEST_DIMENSION];
    map_point(transform, point, &mut mapped[..n])?;
    out.copy_from_slice(&mapped[..n]);
    Ok(found)
}

// 7 of the transformed target and 9, then the search of `nearest_ml` there, its point mapped to out.
fn transformed_search(
    weights: &[f64],
    mu: &[f64],
    transform: &[i64],
    inverse: &[i64],
    target: &[f64],
    out: &mut [i64],
    budget: u64,
    transformed: &mut [f64],
    point: &mut [i64],
) -> Result<NearestPoint, Refusal>
    requires { PreparedShaped weights.now mu.now transform.now inverse.now target.now out.old transformed.old point.old }
    ensures { NearestAnswered (searched_at (table_at weights mu) (at_entry transform) (P.transformed_of (table_at weights mu) (at_entry inverse) (at_entry target)) budget) out.old result out.new }
{
    transform_target(inverse, target, transformed);
    target_budget_check(transformed, budget)?;
    let found = ml_search(weights, mu, transformed, point, budget)?;
    mapped_answer(transform, point, found, out)
}

// Finds the nearest integer vector to a target in the receiver's coordinates, and writes it in them: the search is that of
// `nearest_ml` over the table's reduced coordinates. Tells the nodes, and the distance of the point before mapping.
//
// transform maps reduced coordinates to the receiver's and inverse maps them back; both lie row by row, n·n elements each.
//
// Refused: 2 to 5, the table; 22 and 23, the matrices; 6, 7 and 9, the call, 7 of the given target and then of the
// transformed one; 11 and 13, the candidate's distance; 15, the budget ran out (nodes, the radius that stood); 24, a
// coordinate of the mapped point is no i64 (first column). A refusal leaves out as it was.
pub fn prepared_nearest_ml(
    weights: &[f64],
    mu: &[f64],
    transform: &[i64],
    inverse: &[i64],
    target: &[f64],
    out: &mut [i64],
    budget: u64,
) -> Result<NearestPoint, Refusal>
    ensures { NearestAnswered (P.prepared_nearest_ml (table_at weights mu) (at_entry transform) (at_entry inverse) (at_entry target) out.old budget) out.old result out.new }
{
    given_check(weights, mu, transform, inverse, target, out)?;
    let n = weights.len();
    let mut transformed = [0.0; LARGEST_DIMENSION];
    let mut point = [0i64; LARGEST_DIMENSION];
    transformed_search(
        weights,
        mu,
        transform,
        inverse,
        target,
        out,
        budget,
        &mut transformed[..n],
        &mut point[..n],
    )
}
