// One target of several over a table: the search of `nearest` behind the table's checks.
ghost use Rattle.definitions.specs.Table.{largest_searched};
ghost use Rattle.definitions.specs.Shapes.{ShapedOut};
ghost use Rattle.definitions.specs.Lent.{at_entry, at_exit, table_at};
ghost use Rattle.definitions.specs.Epochs.{epoch_answer};
ghost use Rattle.enumerate.specs.View.{NearestAnswered};

use crate::{NearestPoint, nearest_within};
use checks::{epoch_check, handed_on};
use refusals::Refusal;

// The answer of a target over a table that has passed its checks: 7 to 9, then as by `nearest`. A point found goes to out,
// which has n places; a refusal leaves it as it was.
pub fn epoch(
    weights: &[f64],
    mu: &[f64],
    target: &[f64],
    out: &mut [i64],
    radius: f64,
    budget: u64,
) -> Result<NearestPoint, Refusal>
    requires { ShapedOut largest_searched weights.now mu.now target.now out.old }
    ensures { NearestAnswered (epoch_answer (table_at weights mu) (at_entry target) radius budget) out.old result out.new }
{
    epoch_check(target, radius, budget)?;
    nearest_within(weights, mu, target, out, handed_on(radius), budget)
}
