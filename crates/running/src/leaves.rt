// The leaf of nearest over lent arrays. That of list is `search::push`.
ghost use Rattle.std.specs.Prelude.{◌≡◌};
ghost use Rattle.definitions.specs.Lent.{at_entry, at_exit};
ghost use Rattle.search.specs.View.{with_best};
ghost use Rattle.running.specs.Call.{search_of, ConsiderReady, ConsideredBy};

use crate::Standing;
use definitions::LARGEST_SEARCHED;
use search::replaces;

// The point under trial becomes the best, at that distance.
fn taken(
    point: &[i64; LARGEST_SEARCHED],
    best: &mut [i64; LARGEST_SEARCHED],
    distance: f64,
    s: Standing,
) -> Standing
    ensures { search_of (at_entry point) best.new result ≡ with_best (search_of (at_entry point) best.old s) distance }
{
    let p = *point;
    *best = p;
    Standing {
        radius: distance,
        nodes: s.nodes,
    }
}

// As `search::consider`: the point under trial becomes the best if it replaces that. `found` is 0 as long as there is none,
// and 1 then.
pub fn consider(
    point: &[i64; LARGEST_SEARCHED],
    best: &mut [i64; LARGEST_SEARCHED],
    n: usize,
    distance: f64,
    found: &mut u64,
    s: Standing,
) -> Standing
    requires { ConsiderReady n point.now best.old }
    ensures { ConsideredBy n (at_entry point) best.old s distance found.old best.new result found.new }
{
    if !replaces(point, best, n, *found > 0, distance, s.radius) {
        return s;
    }
    *found = 1;
    taken(point, best, distance, s)
}
