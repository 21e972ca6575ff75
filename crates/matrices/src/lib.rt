// The two matrices between a table's reduced coordinates and the receiver's: checks 22 and 23, the target in the
// table's coordinates, and a point in the receiver's.
#![tactic(auto)]

ghost use Rattle.std.specs.Prelude.{◌≡◌, ◌+◌, ◌≤◌, ◌<◌, pos, length, get_or};
ghost use Rattle.definitions.specs.Checks.{first_refusal, refuse_at_first, count_from};
ghost use Rattle.definitions.specs.Refusals.{matrix_range};
ghost use Rattle.definitions.specs.Prepared.{each_below, same_integer, product_element, identity_element, is_identity, transformed_sum, transformed_target, element_fault, inverse_check, matrix_checks};
ghost use Rattle.definitions.specs.Lent.{at_entry};
ghost use Rattle.refusals.specs.Numbers.{verdict};
ghost use Rattle.matrices.specs.Shapes.{Factors, TargetShaped, PointShaped};
ghost use Rattle.matrices.specs.Mapped.{Mapped};

use exact::dot;
use refusals::Refusal;
use rounding::to_double;

// Whether an element is above 2^52 in magnitude.
fn element_fault(z: i64) -> bool
    ensures { result ≡ element_fault z }
{
    z.unsigned_abs() > 4503599627370496
}

// 22 of a matrix's elements, whose indices are counted from `first` on.
fn range_check(elements: &[i64], first: usize) -> Result<(), Refusal>
    requires first_bound { first ≤ 4096 }
    requires elements_len_bound { length elements.now ≤ 4096 }
    ensures { verdict result ≡ refuse_at_first (λ k. element_fault (get_or (at_entry elements) k (pos 0))) (λ k. matrix_range (first + k)) (count_from 0 (length (at_entry elements))) }
{
    match elements.iter().position(|z| element_fault(*z)) {
        Some(k) => Err(Refusal::MatrixRange(first + k)),
        None => Ok(()),
    }
}

// An element of the identity.
fn identity_element(row: usize, column: usize) -> i64
    ensures { result ≡ identity_element row column }
{
    if row == column { 1 } else { 0 }
}

// Whether an element of the product a·b is the identity's.
fn element_agrees(n: usize, a: &[i64], b: &[i64], row: usize, column: usize) -> bool
    requires factors { Factors n a.now b.now }
    requires row_lt_n { row < n }
    requires column_lt_n { column < n }
    ensures { result ≡ same_integer (product_element n (at_entry a) (at_entry b) row column) (identity_element row column) }
{
    dot(a, row * n, b, n, column) == Some(identity_element(row, column))
}

// Whether a row of the product a·b is the identity's.
fn row_agrees(n: usize, a: &[i64], b: &[i64], row: usize) -> bool
    requires factors { Factors n a.now b.now }
    requires row_lt_n { row < n }
    ensures { result ≡ each_below n (λ column. same_integer (product_element n (at_entry a) (at_entry b) row column) (identity_element row column)) }
{
    (0..n).all(|column| element_agrees(n, a, b, row, column))
}

// Whether the product a·b is the identity.
fn is_identity(n: usize, a: &[i64], b: &[i64]) -> bool
    requires { Factors n a.now b.now }
    ensures { result ≡ is_identity n (at_entry a) (at_entry b) }
{
    (0..n).all(|row| row_agrees(n, a, b, row))
}

// 23: either product is not the identity.
#[tactic(auto, unfolding(definitions::specs::Prepared::inverse_check))]
fn inverse_check(n: usize, transform: &[i64], inverse: &[i64]) -> Result<(), Refusal>
    requires { Factors n transform.now inverse.now }
    ensures { verdict result ≡ inverse_check n (at_entry transform) (at_entry inverse) }
{
    if !is_identity(n, transform, inverse) || !is_identity(n, inverse, transform) {
        return Err(Refusal::NotInverse);
    }
    Ok(())
}

// 22, then 23. The elements are looked at once their number is known, and multiplied once their size is.
pub fn matrix_check(n: usize, transform: &[i64], inverse: &[i64]) -> Result<(), Refusal>
    requires { n ≤ 64 }
    ensures { verdict result ≡ first_refusal (matrix_checks n (at_entry transform) (at_entry inverse)) }
{
    let size = n * n;
    if transform.len() != size || inverse.len() != size {
        return Err(Refusal::MatrixRange(0));
    }
    range_check(transform, 0)?;
    range_check(inverse, size)?;
    inverse_check(n, transform, inverse)
}

// A coordinate of the transformed target: the sum of target[row] times inverse[row, column], from row 0 on.
#[tactic(auto, unfolding(definitions::specs::Prepared::transformed_sum))]
fn transformed_coordinate(n: usize, inverse: &[i64], target: &[f64], column: usize) -> f64
    requires target_shaped { TargetShaped n inverse.now target.now }
    requires column_lt_n { column < n }
    ensures { result ≡ transformed_sum n (at_entry inverse) (at_entry target) column n }
{
    let mut total = 0.0;
    for row in 0..n {
        total = total + target[row] * to_double(inverse[row * n + column]);
    }
    total
}

// Writes the transformed target.
#[tactic(auto, using(definitions::proofs::Prepared::transformed_is))]
pub fn transform_target(inverse: &[i64], target: &[f64], transformed: &mut [f64])
    requires { TargetShaped (length transformed.old) inverse.now target.now }
    ensures { transformed.new ≡ transformed_target (length transformed.old) (at_entry inverse) (at_entry target) }
{
    let n = transformed.len();
    for (column, place) in transformed.iter_mut().enumerate() {
        *place = transformed_coordinate(n, inverse, target, column);
    }
}

// Writes the mapped point, each coordinate an exact sum; 24 where one is no i64 (its column), with part of it written.
pub fn map_point(transform: &[i64], point: &[i64], mapped: &mut [i64]) -> Result<(), Refusal>
    requires { PointShaped (length mapped.old) transform.now point.now }
    ensures { Mapped (length mapped.old) (at_entry transform) (at_entry point) result mapped.new }
{
    let n = mapped.len();
    for (column, place) in mapped.iter_mut().enumerate() {
        *place = dot(point, 0, transform, n, column).ok_or(Refusal::MappedRange(column))?;
    }
    Ok(())
}
