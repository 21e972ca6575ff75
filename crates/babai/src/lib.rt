// Babai's rounding and nearest-plane algorithms: candidates for a search, found without one.
#![tactic(auto)]

ghost use Rattle.std.specs.Prelude.{◌≡◌, map, length};
ghost use Rattle.rounding.specs.Integers.{round_away};
ghost use Rattle.definitions.specs.Table.{largest_dimension};
ghost use Rattle.definitions.specs.Shapes.{ShapedOut};
ghost use Rattle.definitions.specs.Lent.{at_entry, at_exit, table_at};
ghost use Rattle.babai.specs.Answers.{RoundAnswered, PlaneAnswered, PlaneWritten};

use checks::{plane_check, round_check};
use definitions::LARGEST_DIMENSION;
use distance::center;
use refusals::Refusal;
use rounding::{round_away, to_double};

// Writes `round_away` of each coefficient to out.
fn round_all(coefficients: &[f64], out: &mut [i64])
    requires { length coefficients.now ≡ length out.old }
    ensures { out.new ≡ map round_away (at_entry coefficients) }
{
    for i in 0..out.len() {
        out[i] = round_away(coefficients[i]);
    }
}

// Rounds every coefficient by itself to the nearest integer, halves away from zero.
//
// Refused: 6, out not as long as coefficients (their length, out's); 7, a coefficient not finite (first index).
// A refusal leaves out as it was.
#[tactic(auto, using(definitions::proofs::Passed::round_passed), unfolding(definitions::specs::Calls::round, definitions::specs::Calls::round_output))]
pub fn round(coefficients: &[f64], out: &mut [i64]) -> Result<(), Refusal>
    ensures { RoundAnswered (at_entry coefficients) out.old result out.new }
{
    round_check(coefficients, out)?;
    round_all(coefficients, out);
    Ok(())
}

// The levels from n - 1 down to 0: the integers go to out, what is left to the coefficients.
pub fn plane_levels(weights: &[f64], mu: &[f64], coefficients: &mut [f64], out: &mut [i64])
    requires { ShapedOut largest_dimension weights.now mu.now coefficients.old out.old }
    ensures { PlaneWritten (table_at weights mu) coefficients.old coefficients.new out.new }
{
    let n = weights.len();
    for i in (0..n).rev() {
        let start = coefficients[i];
        let sum = center(mu, coefficients, n, i, start);
        let chosen = round_away(sum);
        out[i] = chosen;
        coefficients[i] = start - to_double(chosen);
    }
}

// Babai's nearest plane: from the last coordinate down, the nearest integer of each coefficient's sum over its
// level. The coefficients are left as t - z.
//
// Refused: 2 to 5, the table; 6, coefficients or out not n long (n, the coefficients' length); 7, a coefficient
// not finite (first index). A refusal leaves both slices as they were.
#[tactic(auto, using(definitions::proofs::Passed::plane_passed), unfolding(definitions::specs::Calls::plane, definitions::specs::Calls::plane_output, definitions::specs::Calls::plane_coefficients))]
pub fn nearest_plane(
    weights: &[f64],
    mu: &[f64],
    coefficients: &mut [f64],
    out: &mut [i64],
) -> Result<(), Refusal>
    ensures { PlaneAnswered (table_at weights mu) coefficients.old out.old result coefficients.new out.new }
{
    plane_check(LARGEST_DIMENSION, weights, mu, coefficients, out)?;
    plane_levels(weights, mu, coefficients, out);
    Ok(())
}
