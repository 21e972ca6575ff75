// Each check by itself: refusals 2, 5 to 14 and 30. A call's checks in their order stand in lib.rt. Where two differ in their
// refusal alone they stay two: one function that is told which refusal to make would be no plainer than its callers.
ghost use Rattle.std.specs.Prelude.{◌≡◌, [], ◌≤◌};
ghost use Rattle.definitions.specs.Checks.{weight_fault, target_fault, beyond_limit, table_size_check, weight_range_check, length_check, plane_length_check, target_check, finite_check, radius_check, budget_check, candidate_length_check, candidate_distance_check, candidate_outside_check, widened_radius_check, list_size_check};
ghost use Rattle.definitions.specs.Epochs.{epochs_size_check};
ghost use Rattle.definitions.specs.Lent.{at_entry, table_at};
ghost use Rattle.definitions.specs.Table.{table};
ghost use Rattle.refusals.specs.Numbers.{verdict};

use definitions::{LARGEST_BUDGET, LARGEST_COUNT, LARGEST_LIST};
use refusals::Refusal;
use rounding::{is_finite, magnitude};

// 2^52.
const COORD_LIMIT: f64 = 4503599627370496.0;

// Whether x is above 2^52 in magnitude; false of a NaN.
#[tactic(auto, using(rounding::proofs::Interface::limit_is))]
pub fn beyond_limit(x: f64) -> bool
    ensures { result ≡ beyond_limit x }
{
    magnitude(x) > COORD_LIMIT
}

// Whether refusal 5 holds of a weight.
fn weight_fault(w: f64) -> bool
    ensures { result ≡ weight_fault w }
{
    !is_finite(w) || !(w > 0.0)
}

// Whether refusal 7 holds of a target.
fn target_fault(x: f64) -> bool
    ensures { result ≡ target_fault x }
{
    !is_finite(x) || beyond_limit(x)
}

// 2: more than `largest` weights, or mu not as long as their number squared. It carries the weights' length.
pub fn table_size_check(largest: usize, weights: &[f64], mu: &[f64]) -> Result<(), Refusal>
    requires { largest ≤ 64 }
    ensures { verdict result ≡ table_size_check largest (table_at weights mu) }
{
    let n = weights.len();
    if n > largest || mu.len() != n * n {
        return Err(Refusal::TableSize(n));
    }
    Ok(())
}

// 5: each weight must be finite and positive. It carries the index of the first that is not.
pub fn weight_check(weights: &[f64]) -> Result<(), Refusal>
    ensures { verdict result ≡ weight_range_check (table (at_entry weights) []) }
{
    match weights.iter().position(|w| weight_fault(*w)) {
        Some(i) => Err(Refusal::WeightRange(i)),
        None => Ok(()),
    }
}

// 6: a length that is not the expected one (expected, found).
pub fn length_check(expected: usize, found: usize) -> Result<(), Refusal>
    ensures { verdict result ≡ length_check expected found }
{
    if expected != found {
        return Err(Refusal::LengthMismatch(expected, found));
    }
    Ok(())
}

// 6 in `nearest_plane`: coefficients or output not n long. It carries n and the coefficients' length, also where the
// output is the wrong one.
pub fn plane_length_check(n: usize, coefficients: usize, output: usize) -> Result<(), Refusal>
    ensures { verdict result ≡ plane_length_check n coefficients output }
{
    if n != coefficients || n != output {
        return Err(Refusal::LengthMismatch(n, coefficients));
    }
    Ok(())
}

// 7: a target that is not finite or above 2^52 in magnitude (first index).
pub fn target_check(target: &[f64]) -> Result<(), Refusal>
    ensures { verdict result ≡ target_check (at_entry target) }
{
    match target.iter().position(|x| target_fault(*x)) {
        Some(i) => Err(Refusal::NonFinite(i)),
        None => Ok(()),
    }
}

// 7 in `round` and `nearest_plane`: a coefficient that is not finite (first index).
pub fn finite_check(coefficients: &[f64]) -> Result<(), Refusal>
    ensures { verdict result ≡ finite_check (at_entry coefficients) }
{
    match coefficients.iter().position(|x| !is_finite(*x)) {
        Some(i) => Err(Refusal::NonFinite(i)),
        None => Ok(()),
    }
}

// 8: the radius must be finite and not below 0; minus zero passes. It carries the radius.
#[tactic(auto, using(rounding::proofs::Interface::zero_is), unfolding(definitions::specs::Checks::radius_check))]
pub fn radius_check(radius: f64) -> Result<(), Refusal>
    ensures { verdict result ≡ radius_check radius }
{
    if !is_finite(radius) || radius < 0.0 {
        return Err(Refusal::InvalidRadius(radius));
    }
    Ok(())
}

// 9: a budget above 2^60 (budget).
pub fn budget_check(budget: u64) -> Result<(), Refusal>
    ensures { verdict result ≡ budget_check budget }
{
    if budget > LARGEST_BUDGET {
        return Err(Refusal::BudgetRange(budget));
    }
    Ok(())
}

// 10: a candidate that is not as long as expected (expected, found).
pub fn candidate_length_check(expected: usize, found: usize) -> Result<(), Refusal>
    ensures { verdict result ≡ candidate_length_check expected found }
{
    if expected != found {
        return Err(Refusal::CandidateLength(expected, found));
    }
    Ok(())
}

// 11: a candidate's distance that is not finite (it).
pub fn candidate_distance_check(total: f64) -> Result<(), Refusal>
    ensures { verdict result ≡ candidate_distance_check total }
{
    if !is_finite(total) {
        return Err(Refusal::CandidateDistance(total));
    }
    Ok(())
}

// 12: a candidate's distance above the radius (radius).
#[tactic(auto, unfolding(definitions::specs::Checks::candidate_outside_check))]
pub fn candidate_outside_check(radius: f64, distance: f64) -> Result<(), Refusal>
    ensures { verdict result ≡ candidate_outside_check radius distance }
{
    if distance > radius {
        return Err(Refusal::CandidateOutside(radius));
    }
    Ok(())
}

// 13: a widened radius that is not finite (it).
pub fn widened_radius_check(radius: f64) -> Result<(), Refusal>
    ensures { verdict result ≡ widened_radius_check radius }
{
    if !is_finite(radius) {
        return Err(Refusal::WidenedRadius(radius));
    }
    Ok(())
}

// 14: at most 4,096 places for distances, and n coordinates for each. It carries the distances' length.
pub fn list_size_check(n: usize, distances: usize, points: usize) -> Result<(), Refusal>
    requires { n ≤ 64 }
    ensures { verdict result ≡ list_size_check n distances points }
{
    if distances > LARGEST_LIST || points != n * distances {
        return Err(Refusal::ListSize(distances));
    }
    Ok(())
}

// 30: at most 64 targets, and n places for each of them in the targets and in the output, whose lengths are given.
pub fn epochs_size_check(
    n: usize,
    count: usize,
    targets: usize,
    output: usize,
) -> Result<(), Refusal>
    requires { n ≤ 64 }
    ensures { verdict result ≡ epochs_size_check n count targets output }
{
    if count > LARGEST_COUNT || targets != n * count || output != n * count {
        return Err(Refusal::EpochsSize);
    }
    Ok(())
}
