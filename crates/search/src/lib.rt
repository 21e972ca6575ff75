// The recursive walk of nearest and of list. They differ in what a leaf does, which a flag chooses.
#![tactic(auto)]

ghost use Rattle.std.specs.Prelude.{◌≡◌, ◌≤◌, ◌+◌, take};
ghost use Rattle.definitions.specs.Table.{weight, largest_dimension};
ghost use Rattle.definitions.specs.Lent.{at_entry, at_exit, table_at};
ghost use Rattle.definitions.specs.Nearest.{lexicographic, replaces};
ghost use Rattle.definitions.specs.Zigzag as Z;
ghost use Rattle.children.specs.View.{level_of};
ghost use Rattle.distance.specs.Residuals.{center_sum};
ghost use Rattle.search.specs.View.{best_where, with_best, new_search, BeforeReady, Considered, PushReady, Pushed, EnterReady};
ghost use Rattle.search.specs.Call.{call_of, call_at, exit_state, Ready, Returned};

use children::Children;
use definitions::LARGEST_DIMENSION;
use distance::center;
use lists::copy;

// The point under trial, the best so far, the standing radius and the number of nodes. Each call of the walk copies it, so
// nothing more belongs in it.
#[derive(Clone, Copy)]
pub struct RecursiveSearch {
    pub point: [i64; LARGEST_DIMENSION],
    pub best: [i64; LARGEST_DIMENSION],
    pub radius: f64,
    pub nodes: u64,
}

impl RecursiveSearch {
    // The start of a walk: no node, no best and no point found, and the radius standing.
    pub fn new(radius: f64) -> RecursiveSearch
        ensures { result ≡ new_search radius }
    {
        RecursiveSearch {
            point: [0; LARGEST_DIMENSION],
            best: [0; LARGEST_DIMENSION],
            radius,
            nodes: 0,
        }
    }
}

// Whether the point under trial is lexicographically smaller than the best, coordinate 0 first.
pub fn before<'a>(point: &'a [i64], best: &'a [i64], n: usize) -> bool
    requires { BeforeReady n point.now best.now }
    ensures { result ≡ lexicographic (take n (at_entry point)) (take n (at_entry best)) }
{
    // by `cmp`, as std's `<` at slices takes twice as long
    point[..n].cmp(&best[..n]).is_lt()
}

// Whether a leaf replaces the best: there is none, or the leaf is nearer, or as near and lexicographically first.
#[inline(always)]
pub fn replaces<'a>(
    point: &'a [i64],
    best: &'a [i64],
    n: usize,
    found: bool,
    distance: f64,
    radius: f64,
) -> bool
    requires { BeforeReady n point.now best.now }
    ensures { result ≡ replaces (take n (at_entry point)) distance (best_where found (take n (at_entry best))) radius }
{
    if !found || distance < radius {
        return true;
    }
    distance == radius && before(point, best, n)
}

// The search with the point under trial as its best, at that distance.
fn with_best(s: RecursiveSearch, distance: f64) -> RecursiveSearch
    ensures { result ≡ with_best s distance }
{
    let point = s.point;
    RecursiveSearch {
        best: point,
        radius: distance,
        ..s
    }
}

// The leaf of nearest: the point under trial becomes the best if it replaces that. `found` is 0 as long as there is none,
// and 1 then.
fn consider(s: RecursiveSearch, n: usize, distance: f64, found: &mut u64) -> RecursiveSearch
    requires { n ≤ largest_dimension }
    ensures { Considered n s distance found.old result found.new }
{
    if !replaces(&s.point, &s.best, n, *found > 0, distance, s.radius) {
        return s;
    }
    *found = 1;
    with_best(s, distance)
}

// The leaf of list: a point is counted, and stored with its distance if there is a place left.
pub fn push(
    point: &[i64],
    n: usize,
    distance: f64,
    distances: &mut [f64],
    points: &mut [i64],
    found: &mut u64,
)
    requires { PushReady n point.now found.old distances.old points.old }
    ensures { Pushed n (at_entry point) distance found.old found.new distances.old distances.new points.old points.new }
{
    let at = *found as usize;
    *found += 1;
    if at >= distances.len() {
        return;
    }
    distances[at] = distance;
    let start = at * n;
    let end = start + n;
    copy(point, &mut points[start..end]);
}

// A level's generator: its centre comes from the residuals above it.
fn enter(
    mu: &[f64],
    weights: &[f64],
    target: &[f64],
    rest: &[f64; LARGEST_DIMENSION],
    level: usize,
    remaining: f64,
) -> Option<Children>
    requires { EnterReady weights.now mu.now target.now rest.now level }
    ensures { result ≡ level_of (Z.start (center_sum (table_at weights mu) (at_entry target) (at_entry rest) level) remaining (weight (table_at weights mu) level)) }
{
    let value = center(mu, rest, weights.len(), level, target[level]);
    Children::new(value, remaining, weights[level])
}

// The walk with `depth` levels left, at whose foot `listing` chooses the leaf. `partial` is the sum of the terms above,
// and `rest` the residuals beside the point under trial. The list goes into `distances` and `points`, n coordinates for
// each distance, in the order of finding. `found` is the number of its points, or of nearest whether there is a best;
// `exhausted` whether the budget ran out.
//
// Both are lent: the struct is the call's result, and what it holds is copied at each call. `listing` is a flag, as the
// walk is proved once for both leaves, over what they keep together (specs/Kept.antt); as a const parameter it doesn't prove
// yet: the check refuses what it generates itself of a recursion that has one and is lent slices.
//
// A child is followed when the next one is known: the walk below the last child is the call's result, without a copy of
// the struct on the way back.
pub fn run(
    mu: &[f64],
    weights: &[f64],
    target: &[f64],
    rest: &mut [f64; LARGEST_DIMENSION],
    distances: &mut [f64],
    points: &mut [i64],
    found: &mut u64,
    exhausted: &mut bool,
    listing: bool,
    budget: u64,
    depth: usize,
    partial: f64,
    mut s: RecursiveSearch,
) -> RecursiveSearch
    requires { Ready (call_of mu weights target rest distances points found exhausted listing budget depth partial s) }
    ensures { Returned (call_at mu weights target rest distances points found exhausted listing budget depth partial s) (exit_state rest distances points found exhausted listing result) }
{
    if depth == 0 {
        if listing {
            push(&s.point, weights.len(), partial, distances, points, found);
            return s;
        }
        return consider(s, weights.len(), partial, found);
    }
    let level = depth - 1;
    let Some(made) = enter(mu, weights, target, rest, level, s.radius - partial) else {
        return s;
    };
    let Some((mut child, mut zigzag)) = made.first() else {
        return s;
    };
    loop {
        if s.nodes >= budget {
            *exhausted = true;
            return s;
        }
        s.nodes += 1;
        let sum = partial + child.term;
        let z = child.z;
        s.point[level] = z;
        rest[level] = target[level] - child.value;
        let following = zigzag.next();
        if sum <= s.radius {
            let Some((trial, after)) = following else {
                return run(
                    mu, weights, target, rest, distances, points, found, exhausted, listing,
                    budget, level, sum, s,
                );
            };
            s = run(
                mu, weights, target, rest, distances, points, found, exhausted, listing, budget,
                level, sum, s,
            );
            if *exhausted {
                return s;
            }
            child = trial;
            zigzag = after;
            continue;
        }
        let Some((trial, after)) = following else {
            return s;
        };
        child = trial;
        zigzag = after;
    }
}
