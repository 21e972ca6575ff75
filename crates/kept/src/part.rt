// The two calls on the part of one name, once the name and the block have passed their checks.
ghost use Rattle.definitions.specs.Lent.{at_entry, at_exit, table_at};
ghost use Rattle.enumerate.specs.View.{NearestAnswered};
ghost use Rattle.parts.specs.Parts.{block, PartLengths};
ghost use Rattle.kept.specs.Part.{EndReady, over_answer, GoOnReady, WentOn, PartPickedUp, NamedReady, PartNamed};

use definitions::{LARGEST_BUDGET, LARGEST_DIMENSION, LARGEST_SQUARE};
use enumerate::NearestPoint;
use lists::copy;
use parts::{clear, is_sound, read_walk, write_table, write_walk};
use refusals::Refusal;
use resume::{Walk, begun, residuals_of, run_to};

// The answer of a walk from a radius that is over: its best goes to out.
fn end_of(s: Walk, radius: f64, out: &mut [i64]) -> Result<NearestPoint, Refusal>
    requires { EndReady s out.old }
    ensures { NearestAnswered (over_answer radius s out.old) out.old result out.new }
{
    if !s.found {
        return Err(Refusal::OutsideRadius(radius));
    }
    copy(&s.best, out);
    Ok(NearestPoint {
        nodes: s.nodes,
        distance: s.radius,
    })
}

// The walk of a sound part, gone on to a sum of budgets.
fn gone_on(reals: &[f64], integers: &[i64], counts: &[u64], sum: u64) -> Walk
    requires { GoOnReady (block reals.now integers.now counts.now) sum }
    ensures { WentOn (block (at_entry reals) (at_entry integers) (at_entry counts)) sum result }
{
    let n = counts[0] as usize;
    let mu_start = LARGEST_DIMENSION;
    let mu_end = mu_start + n * n;
    let target_start = mu_start + LARGEST_SQUARE;
    let target_end = target_start + n;
    let weights = &reals[..n];
    let mu = &reals[mu_start..mu_end];
    let target = &reals[target_start..target_end];
    let s = read_walk(reals, integers, counts);
    let mut rest = [0.0; LARGEST_DIMENSION];
    residuals_of(target, &s.point, &mut rest);
    run_to(mu, weights, target, &mut rest, sum, s)
}

// A pickup of what a part holds: 26, 6 of the output and 27, then the walk goes on. If it is over, the part is cleared;
// else it is put down again.
pub fn pick_up_part(
    reals: &mut [f64],
    integers: &mut [i64],
    counts: &mut [u64],
    out: &mut [i64],
    budget: u64,
) -> Result<NearestPoint, Refusal>
    requires { PartLengths (block reals.old integers.old counts.old) }
    ensures { PartPickedUp (block reals.old integers.old counts.old) out.old budget result out.new (block reals.new integers.new counts.new) }
{
    if !is_sound(counts) {
        return Err(Refusal::NameEmpty);
    }
    let n = counts[0] as usize;
    if out.len() != n {
        return Err(Refusal::LengthMismatch(n, out.len()));
    }
    let nodes = counts[1];
    if budget > LARGEST_BUDGET - nodes {
        return Err(Refusal::SumRange(nodes.saturating_add(budget)));
    }
    let radius = reals[575];
    let s = gone_on(reals, integers, counts, nodes + budget);
    if s.count == 0 {
        clear(reals, integers, counts);
        return end_of(s, radius, out);
    }
    write_walk(n, s, reals, integers, counts);
    Err(Refusal::BudgetExhausted(s.nodes, s.radius))
}

// The search of a named call, its checks having passed. If it is not over, it is put down in the part.
pub fn nearest_part(
    reals: &mut [f64],
    integers: &mut [i64],
    counts: &mut [u64],
    weights: &[f64],
    mu: &[f64],
    target: &[f64],
    out: &mut [i64],
    radius: f64,
    budget: u64,
) -> Result<NearestPoint, Refusal>
    requires { NamedReady (block reals.old integers.old counts.old) weights.now mu.now target.now out.old budget }
    ensures { PartNamed (block reals.old integers.old counts.old) (table_at weights mu) (at_entry target) out.old radius budget result out.new (block reals.new integers.new counts.new) }
{
    let first = begun(mu, weights, target, radius);
    let mut rest = [0.0; LARGEST_DIMENSION];
    let s = run_to(mu, weights, target, &mut rest, budget, first);
    if s.count == 0 {
        return end_of(s, radius, out);
    }
    write_table(weights, mu, target, radius, reals);
    write_walk(weights.len(), s, reals, integers, counts);
    Err(Refusal::BudgetExhausted(s.nodes, s.radius))
}
