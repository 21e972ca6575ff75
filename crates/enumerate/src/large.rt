// The nearest walk with running centres, for every n that is searched.
ghost use Rattle.definitions.specs.Table.{largest_searched};
ghost use Rattle.definitions.specs.Shapes.{WalkShaped};
ghost use Rattle.definitions.specs.Lent.{at_entry, at_exit, table_at};
ghost use Rattle.definitions.specs.Running.{running_nearest};
ghost use Rattle.enumerate.specs.View.{NearestWalked};

use crate::Ending;
use definitions::LARGEST_SEARCHED;
use lists::copy;
use running::search;

// As `nearest_walk`: a point found goes to out; otherwise out is left as it was.
pub fn running_walk(
    weights: &[f64],
    mu: &[f64],
    target: &[f64],
    out: &mut [i64],
    radius: f64,
    budget: u64,
) -> Ending
    requires { WalkShaped largest_searched weights.now mu.now target.now out.old budget }
    ensures { NearestWalked (running_nearest (table_at weights mu) (at_entry target) radius budget) out.old result out.new }
{
    let mut best = [0i64; LARGEST_SEARCHED];
    let mut distances = [0.0; 0];
    let mut points = [0i64; 0];
    let mut found = 0;
    let mut exhausted = false;
    let end = search(
        mu,
        weights,
        target,
        &mut best,
        &mut distances,
        &mut points,
        &mut found,
        &mut exhausted,
        false,
        budget,
        radius,
    );
    if exhausted {
        return Ending::Exhausted(end.nodes, end.radius);
    }
    if found == 0 {
        return Ending::Nothing(end.nodes, end.radius);
    }
    copy(&best, out);
    Ending::Point(end.nodes, end.radius)
}
