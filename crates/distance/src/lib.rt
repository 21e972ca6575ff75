// The computed distance of an integer vector from a target. The residuals target[j] - z[j], as doubles, are kept
// beside the coordinates, so that a centre converts nothing. Every function here is an inner one: its callers have
// checked the table, the target and the lengths. The table, here as everywhere, is lent as the two slices that C lends and the
// specification names, and not as a struct.
#![tactic(auto)]

ghost use Rattle.std.specs.Prelude.{◌≡◌, ◌+◌};
ghost use Rattle.std.specs.Float.{binary64};
ghost use Rattle.std.specs.Float.Ieee.{sub, mul};
ghost use Rattle.definitions.specs.Distance as D;
ghost use Rattle.definitions.specs.Seeds.{sum_from};
ghost use Rattle.lists.specs.Places.{places};
ghost use Rattle.definitions.specs.Table.{largest_dimension};
ghost use Rattle.definitions.specs.Lent.{at_entry, table_at};
ghost use Rattle.definitions.specs.Shapes.{ShapedOut};
ghost use Rattle.distance.specs.View.{distance_of, CenterReady};

use definitions::LARGEST_DIMENSION;
use rounding::{is_finite, to_double};

// `value` plus rest[j]·mu[j·n+level] for j from level + 1 to n - 1, rising: with `value` target[level] and `rest` the
// residuals above the level, its centre.
pub fn center(mu: &[f64], rest: &[f64], n: usize, level: usize, value: f64) -> f64
    requires { CenterReady mu.now rest.now n level }
    ensures { result ≡ sum_from n (at_entry mu) level (level + 1) (places n (level + 1) (at_entry rest)) value }
{
    let mut sum = value;
    let mut at = (level + 1) * n + level;
    for j in level + 1..n {
        sum += rest[j] * mu[at];
        at += n;
    }
    sum
}

// The term of a coordinate whose double is z: (weight·d)·d with d = center - z.
pub fn term(weight: f64, center: f64, z: f64) -> f64
    ensures { result ≡ mul binary64 (mul binary64 weight (sub binary64 center z)) (sub binary64 center z) }
{
    let d = center - z;
    weight * d * d
}

// The total of a distance that overflowed.
#[derive(Clone, Copy)]
pub struct Overflow {
    pub total: f64,
}

// The sum of the terms from level n - 1 down to 0: the computed distance, or an infinity where it overflows.
pub fn total(mu: &[f64], weights: &[f64], target: &[f64], point: &[i64]) -> f64
    requires { ShapedOut largest_dimension weights.now mu.now target.now point.now }
    ensures { result ≡ D.distance (table_at weights mu) (at_entry target) (at_entry point) }
{
    let n = weights.len();
    let mut rest = [0.0; LARGEST_DIMENSION];
    let mut sum = 0.0;
    for level in (0..n).rev() {
        let value = center(mu, &rest, n, level, target[level]);
        let z = to_double(point[level]);
        rest[level] = target[level] - z;
        sum += term(weights[level], value, z);
    }
    sum
}

// The computed distance of a point from the target, or the overflowing total.
pub fn triangular_distance(
    mu: &[f64],
    weights: &[f64],
    target: &[f64],
    point: &[i64],
) -> Result<f64, Overflow>
    requires { ShapedOut largest_dimension weights.now mu.now target.now point.now }
    ensures { result ≡ distance_of (D.distance (table_at weights mu) (at_entry target) (at_entry point)) }
{
    let sum = total(mu, weights, target, point);
    if is_finite(sum) {
        return Ok(sum);
    }
    Err(Overflow { total: sum })
}
