// The verdict on a list, whether its first point stands out.
#![tactic(auto)]

ghost use Rattle.std.specs.Prelude.{◌≡◌, ◌≤◌};
ghost use Rattle.definitions.specs.Lent.{at_entry};
ghost use Rattle.definitions.specs.Settings.{largest_factor, FactorsInRange};
ghost use Rattle.definitions.specs.Ratio as D;
ghost use Rattle.ratio.specs.View.{verdict_of, answer_of};

pub mod settings;

use refusals::Refusal;
use rounding::is_finite;
use settings::factors_check;

#[derive(Clone, Copy)]
pub enum Ratio {
    // q times every other vector's distance is at least p·d1, each product rounded once.
    Holds,
    // q·d2 is below p·d1, or p·d1 overflows.
    Fails,
    // One point alone is listed, and q times the radius is below p·d1, or p·d1 overflows.
    Open,
    // There is no list, or no point in it.
    None,
}

// k·d, rounded once.
#[tactic(auto, unfolding(definitions::specs::Ratio::times))]
fn times(k: u64, d: f64) -> f64
    requires { k ≤ largest_factor }
    ensures { result ≡ D.times k d }
{
    k as f64 * d
}

// Whether q·d2 is at least p·d1, which must not overflow.
#[tactic(auto, unfolding(definitions::specs::Ratio::met))]
fn met(p: u64, q: u64, d1: f64, d2: f64) -> bool
    requires { FactorsInRange p q }
    ensures { result ≡ D.met p q d1 d2 }
{
    let least = times(p, d1);
    is_finite(least) && least <= times(q, d2)
}

// The verdict by the distances that a list at the radius wrote, with factors that pass their check.
#[tactic(auto, unfolding(definitions::specs::Ratio::ratio))]
pub fn verdict(distances: &[f64], radius: f64, p: u64, q: u64) -> Ratio
    requires { FactorsInRange p q }
    ensures { verdict_of result ≡ D.ratio p q (at_entry distances) radius }
{
    match distances {
        [] => Ratio::None,
        [d1] => {
            if met(p, q, *d1, radius) {
                Ratio::Holds
            } else {
                Ratio::Open
            }
        }
        [d1, d2, ..] => {
            if met(p, q, *d1, *d2) {
                Ratio::Holds
            } else {
                Ratio::Fails
            }
        }
    }
}

// The verdict by the distances that a list at the radius wrote, or by any others.
//
// Refused: 21.
#[tactic(auto, unfolding(definitions::specs::Ratio::ratio_call, definitions::specs::Calls::after))]
pub fn ratio_of(distances: &[f64], radius: f64, p: u64, q: u64) -> Result<Ratio, Refusal>
    ensures { answer_of result ≡ D.ratio_call p q (at_entry distances) radius }
{
    factors_check(p, q)?;
    Ok(verdict(distances, radius, p, q))
}
