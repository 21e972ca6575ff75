// The checks of the library's calls, in each call's order: refusals 2 to 14 and 30. A sequence gives the first refusal
// of its checks, number and values included, or a pass.
//
// In the proofs a sequence is computed, and joined sequences are taken apart by `first_append`.
#![tactic(auto, using(definitions::proofs::Verdicts::first_append), unfolding(definitions::specs::Checks::first_refusal))]

ghost use Rattle.std.specs.Prelude.{◌≡◌, [], ◌∷◌, ◌++◌, ◌≤◌};
ghost use Rattle.definitions.specs.Table.{largest_dimension};
ghost use Rattle.definitions.specs.Seeds.{widened};
ghost use Rattle.definitions.specs.Checks.{first_refusal, table_checks, target_check, handed_on, budget_check, candidate_distance_check, candidate_outside_check, widened_radius_check};
ghost use Rattle.definitions.specs.Calls as C;
ghost use Rattle.definitions.specs.Epochs.{checks_of_epochs, checks_of_epoch};
ghost use Rattle.definitions.specs.Lent.{at_entry, table_at};
ghost use Rattle.refusals.specs.Numbers.{verdict};

mod single;
pub mod triangle;

use definitions::LARGEST_SEARCHED;
use distance::total;
use refusals::Refusal;
use rounding::{max, to_double};
use single::{
    budget_check, candidate_distance_check, candidate_length_check, candidate_outside_check,
    epochs_size_check, finite_check, length_check, list_size_check, plane_length_check,
    radius_check, table_size_check, target_check, weight_check, widened_radius_check,
};
use triangle::triangle_check;

// 2^-52.
const EPSILON: f64 = 2.220446049250313e-16;

// 2 to 5, for at most `largest` weights. The entries are looked at once their number is known. `largest` is one of two
// constants, so each caller proves the bound on it at once, and a type for it would be no plainer.
#[tactic(auto, using(definitions::proofs::Verdicts::first_append), unfolding(definitions::specs::Checks::first_refusal, definitions::specs::Checks::table_checks))]
pub fn table_check(largest: usize, weights: &[f64], mu: &[f64]) -> Result<(), Refusal>
    requires { largest ≤ 64 }
    ensures { verdict result ≡ first_refusal (table_checks largest (table_at weights mu)) }
{
    table_size_check(largest, weights, mu)?;
    triangle_check(mu, weights.len())?;
    weight_check(weights)
}

// 6 of the target and of the output, which must be n long, then 7.
pub fn target_output_check(n: usize, target: &[f64], out: &[i64]) -> Result<(), Refusal>
    ensures { verdict result ≡ first_refusal (C.target_checks n (at_entry target) (at_entry out)) }
{
    length_check(n, target.len())?;
    length_check(n, out.len())?;
    target_check(target)
}

// 7 of a target whose length is right, then 9.
pub fn target_budget_check(target: &[f64], budget: u64) -> Result<(), Refusal>
    ensures { verdict result ≡ first_refusal (target_check (at_entry target) ∷ budget_check budget ∷ []) }
{
    target_check(target)?;
    budget_check(budget)
}

// 2 to 5, 6 of the target and of the output, then 7: what `nearest`, `nearest_seeded` and `nearest_ml` check first, and
// all that a distance's arguments are checked for.
#[tactic(auto, using(definitions::proofs::Verdicts::first_append), unfolding(definitions::specs::Checks::first_refusal, definitions::specs::Calls::search_checks))]
pub fn search_check(
    largest: usize,
    weights: &[f64],
    mu: &[f64],
    target: &[f64],
    out: &[i64],
) -> Result<(), Refusal>
    requires { largest ≤ 64 }
    ensures { verdict result ≡ first_refusal (C.search_checks largest (table_at weights mu) (at_entry target) (at_entry out)) }
{
    table_check(largest, weights, mu)?;
    target_output_check(weights.len(), target, out)
}

// The radius that a call hands on once check 8 has passed: its own, but plus zero where that is minus zero.
pub fn handed_on(radius: f64) -> f64
    ensures { result ≡ handed_on radius }
{
    if radius == 0.0 { 0.0 } else { radius }
}

// The checks of `nearest`: 2 to 9.
pub fn nearest_check(
    largest: usize,
    weights: &[f64],
    mu: &[f64],
    target: &[f64],
    out: &[i64],
    radius: f64,
    budget: u64,
) -> Result<(), Refusal>
    requires { largest ≤ 64 }
    ensures { verdict result ≡ first_refusal (C.checks_of_nearest largest (table_at weights mu) (at_entry target) (at_entry out) radius budget) }
{
    search_check(largest, weights, mu, target, out)?;
    radius_check(radius)?;
    budget_check(budget)
}

// The checks of `epochs` for the whole call: 2 to 5 and 30. The count is multiplied by n once the table has passed.
#[tactic(auto, using(definitions::proofs::Verdicts::first_append, definitions::proofs::Passed::table_checked), unfolding(definitions::specs::Checks::first_refusal))]
pub fn epochs_check(
    weights: &[f64],
    mu: &[f64],
    targets: &[f64],
    count: usize,
    out: &[i64],
) -> Result<(), Refusal>
    ensures { verdict result ≡ first_refusal (checks_of_epochs (table_at weights mu) (at_entry targets) count (at_entry out)) }
{
    table_check(LARGEST_SEARCHED, weights, mu)?;
    epochs_size_check(weights.len(), count, targets.len(), out.len())
}

// The checks of `epochs` for one target, whose length is right: 7 to 9.
pub fn epoch_check(target: &[f64], radius: f64, budget: u64) -> Result<(), Refusal>
    ensures { verdict result ≡ first_refusal (checks_of_epoch (at_entry target) radius budget) }
{
    target_check(target)?;
    radius_check(radius)?;
    budget_check(budget)
}

// The checks of `list`: 2 to 9 and 14. The places are multiplied by n once the table has passed.
#[tactic(auto, using(definitions::proofs::Verdicts::first_append, definitions::proofs::Passed::table_checked), unfolding(definitions::specs::Checks::first_refusal))]
pub fn list_check(
    largest: usize,
    weights: &[f64],
    mu: &[f64],
    target: &[f64],
    distances: &[f64],
    points: &[i64],
    radius: f64,
    budget: u64,
) -> Result<(), Refusal>
    requires { largest ≤ 64 }
    ensures { verdict result ≡ first_refusal (C.checks_of_list largest (table_at weights mu) (at_entry target) (at_entry distances) (at_entry points) radius budget) }
{
    let n = weights.len();
    table_check(largest, weights, mu)?;
    length_check(n, target.len())?;
    target_check(target)?;
    radius_check(radius)?;
    budget_check(budget)?;
    list_size_check(n, distances.len(), points.len())
}

// The widened radius, radius + (2^-52·max(radius, 1))·4n, each operation rounded in this order.
pub fn widened_radius(n: usize, radius: f64) -> f64
    requires { n ≤ 64 }
    ensures { result ≡ widened n radius }
{
    let levels = to_double((4 * n) as i64);
    radius + EPSILON * max(radius, 1.0) * levels
}

// 11 and 13 of a candidate's total that is itself the radius: the last checks of `nearest_ml`.
pub fn total_check(n: usize, sum: f64) -> Result<(), Refusal>
    requires { n ≤ 64 }
    ensures { verdict result ≡ first_refusal (candidate_distance_check sum ∷ widened_radius_check (widened n sum) ∷ []) }
{
    candidate_distance_check(sum)?;
    widened_radius_check(widened_radius(n, sum))
}

// 11 to 13: a candidate's total, the radius against it, and the radius widened.
fn candidate_check(n: usize, radius: f64, sum: f64) -> Result<(), Refusal>
    requires { n ≤ 64 }
    ensures { verdict result ≡ first_refusal (candidate_distance_check sum ∷ candidate_outside_check radius sum ∷ widened_radius_check (widened n radius) ∷ []) }
{
    candidate_distance_check(sum)?;
    candidate_outside_check(radius, sum)?;
    widened_radius_check(widened_radius(n, radius))
}

// The checks of `nearest_seeded`: 2 to 13. The candidate's distance is computed once its length is known.
pub fn seeded_check(
    largest: usize,
    weights: &[f64],
    mu: &[f64],
    target: &[f64],
    out: &[i64],
    candidate: &[i64],
    radius: f64,
    budget: u64,
) -> Result<(), Refusal>
    requires { largest ≤ largest_dimension }
    ensures { verdict result ≡ first_refusal (C.checks_of_seeded largest (table_at weights mu) (at_entry target) (at_entry out) (at_entry candidate) radius budget) }
{
    let n = weights.len();
    nearest_check(largest, weights, mu, target, out, radius, budget)?;
    candidate_length_check(n, candidate.len())?;
    let sum = total(mu, weights, target, candidate);
    candidate_check(n, handed_on(radius), sum)
}

// The checks of `nearest_ml` before its candidate is made: 2 to 7 and 9.
pub fn ml_check(
    largest: usize,
    weights: &[f64],
    mu: &[f64],
    target: &[f64],
    out: &[i64],
    budget: u64,
) -> Result<(), Refusal>
    requires { largest ≤ 64 }
    ensures { verdict result ≡ first_refusal (C.search_checks largest (table_at weights mu) (at_entry target) (at_entry out) ++ budget_check budget ∷ []) }
{
    search_check(largest, weights, mu, target, out)?;
    budget_check(budget)
}

// The checks of `round`: 6, then 7 without the limit.
pub fn round_check(coefficients: &[f64], out: &[i64]) -> Result<(), Refusal>
    ensures { verdict result ≡ first_refusal (C.checks_of_round (at_entry coefficients) (at_entry out)) }
{
    length_check(coefficients.len(), out.len())?;
    finite_check(coefficients)
}

// The checks of `nearest_plane`: 2 to 5, 6, then 7 without the limit.
pub fn plane_check(
    largest: usize,
    weights: &[f64],
    mu: &[f64],
    coefficients: &[f64],
    out: &[i64],
) -> Result<(), Refusal>
    requires { largest ≤ 64 }
    ensures { verdict result ≡ first_refusal (C.checks_of_plane largest (table_at weights mu) (at_entry coefficients) (at_entry out)) }
{
    table_check(largest, weights, mu)?;
    plane_length_check(weights.len(), coefficients.len(), out.len())?;
    finite_check(coefficients)
}
