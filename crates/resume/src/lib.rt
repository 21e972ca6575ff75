// The nearest walk up to dimension 23 as a machine: a walk that can be put down and picked up. It holds its open levels
// itself, where `search::run` holds them in its calls.
#![tactic(auto)]

ghost use Rattle.std.specs.Prelude.{◌≡◌, ◌≤◌, ◌<◌};
ghost use Rattle.definitions.specs.Table.{weight, largest_dimension};
ghost use Rattle.definitions.specs.Lent.{at_entry, at_exit, table_at};
ghost use Rattle.definitions.specs.Shapes.{Shaped};
ghost use Rattle.definitions.specs.Zigzag as Z;
ghost use Rattle.distance.specs.Residuals.{center_sum};
ghost use Rattle.search.specs.View.{EnterReady};
ghost use Rattle.resume.specs.View.{generator_of, waiting_of, count_of, entered_of, with_best, considered_of};
ghost use Rattle.resume.specs.Ready.{RunReady, RanTo, Begun, ResidualsReady, ResidualsOf};

use children::{Children, Trial};
use definitions::LARGEST_DIMENSION;
use distance::{center, term};
use rounding::to_double;
use search::replaces;

// An open level: its number, the partial sum above it, its generator after the child that waits, and that child. Weight
// and coordinates are not kept: they are the table's and the point's.
#[derive(Clone, Copy)]
pub struct OpenLevel {
    pub level: usize,
    pub partial: f64,
    pub center: f64,
    pub remaining: f64,
    pub nearest: i64,
    pub step: u64,
    pub waiting: i64,
    pub positive_done: bool,
    pub negative_done: bool,
}

// A walk that is put down: the point under trial, the best so far, the open levels, of which there are `count`, the
// highest first, the standing radius, the nodes and whether there is a best. It is Copy, as each call takes and gives it, so
// the open levels are an array with their number beside it, no `ArrayVec`, and the best an array with a flag.
#[derive(Clone, Copy)]
pub struct Walk {
    pub point: [i64; LARGEST_DIMENSION],
    pub best: [i64; LARGEST_DIMENSION],
    pub levels: [OpenLevel; LARGEST_DIMENSION],
    pub count: usize,
    pub radius: f64,
    pub nodes: u64,
    pub found: bool,
}

// The walk with the point under trial as its best, at that distance.
fn with_best(s: Walk, distance: f64) -> Walk
    ensures { result ≡ with_best s distance }
{
    let point = s.point;
    Walk {
        best: point,
        radius: distance,
        found: true,
        ..s
    }
}

// The leaf: the point under trial becomes the best if it replaces that.
fn consider(s: Walk, n: usize, distance: f64) -> Walk
    requires { n ≤ largest_dimension }
    ensures { result ≡ considered_of n s distance }
{
    if replaces(&s.point, &s.best, n, s.found, distance, s.radius) {
        return with_best(s, distance);
    }
    s
}

// An open level with the child that waits and the generator after it, or `other` where there is no child.
fn waiting(
    level: usize,
    partial: f64,
    other: OpenLevel,
    following: Option<(Trial, Children)>,
) -> OpenLevel
    ensures { result ≡ waiting_of level partial other following }
{
    let Some((trial, g)) = following else {
        return other;
    };
    OpenLevel {
        level,
        partial,
        center: g.center,
        remaining: g.remaining,
        nearest: g.nearest,
        step: g.step,
        waiting: trial.z,
        positive_done: g.positive_done,
        negative_done: g.negative_done,
    }
}

// One open level more, if there is a child.
fn one_more(count: usize, following: Option<(Trial, Children)>) -> usize
    requires { count < largest_dimension }
    ensures { result ≡ count_of count following }
{
    count + usize::from(following.is_some())
}

// The generator of an open level, after the child that waits.
fn generator(f: OpenLevel, weight: f64) -> Children
    ensures { result ≡ generator_of weight f }
{
    Children {
        center: f.center,
        remaining: f.remaining,
        weight,
        nearest: f.nearest,
        step: f.step,
        emitted_nearest: true,
        positive_done: f.positive_done,
        negative_done: f.negative_done,
    }
}

// The first child of a level, or none. Its centre comes from the residuals above it.
fn entered(
    mu: &[f64],
    weights: &[f64],
    target: &[f64],
    rest: &[f64; LARGEST_DIMENSION],
    level: usize,
    remaining: f64,
) -> Option<(Trial, Children)>
    requires { EnterReady weights.now mu.now target.now rest.now level }
    ensures { result ≡ entered_of (Z.start (center_sum (table_at weights mu) (at_entry target) (at_entry rest) level) remaining (weight (table_at weights mu) level)) }
{
    let value = center(mu, rest, weights.len(), level, target[level]);
    let Some(made) = Children::new(value, remaining, weights[level]) else {
        return None;
    };
    made.first()
}

// The start of a walk: level n - 1 waits with its first child, if it has one. With n = 0 the walk is over, its best the
// empty point at distance 0.
pub fn begun(mu: &[f64], weights: &[f64], target: &[f64], radius: f64) -> Walk
    requires { Shaped largest_dimension weights.now mu.now target.now }
    ensures { Begun (at_entry weights) (at_entry mu) (at_entry target) radius result }
{
    let none = OpenLevel {
        level: 0,
        partial: 0.0,
        center: 0.0,
        remaining: 0.0,
        nearest: 0,
        step: 0,
        waiting: 0,
        positive_done: false,
        negative_done: false,
    };
    let mut s = Walk {
        point: [0; LARGEST_DIMENSION],
        best: [0; LARGEST_DIMENSION],
        levels: [none; LARGEST_DIMENSION],
        count: 0,
        radius,
        nodes: 0,
        found: false,
    };
    let n = weights.len();
    if n == 0 {
        return with_best(s, 0.0);
    }
    let rest = [0.0; LARGEST_DIMENSION];
    let first = entered(mu, weights, target, &rest, n - 1, radius - 0.0);
    s.levels[0] = waiting(n - 1, 0.0, none, first);
    s.count = one_more(0, first);
    s
}

// The residuals target[j] - point[j], as doubles, of a point with as many coordinates as the target: what a walk that is
// picked up needs beside it.
pub fn residuals_of(
    target: &[f64],
    point: &[i64; LARGEST_DIMENSION],
    rest: &mut [f64; LARGEST_DIMENSION],
)
    requires { ResidualsReady target.now point.now rest.old }
    ensures { ResidualsOf (at_entry target) (at_entry point) rest.new }
{
    for level in 0..target.len() {
        rest[level] = target[level] - to_double(point[level]);
    }
}

// On to a budget of nodes, counted from the start of the walk, or to its end. `rest` holds the residuals beside the point
// under trial.
//
// A turn takes the child that waits at the lowest open level. The stores have no branch, and the struct stays in the
// loop: to pass it to a function at each node would cost more than the rest of the node. Its condition is the walk's own
// count of nodes, so it is a `while`.
pub fn run_to(
    mu: &[f64],
    weights: &[f64],
    target: &[f64],
    rest: &mut [f64; LARGEST_DIMENSION],
    budget: u64,
    mut s: Walk,
) -> Walk
    requires { RunReady weights.now mu.now target.now rest.old budget s }
    ensures { RanTo (at_entry weights) (at_entry mu) (at_entry target) budget s rest.new result }
{
    while s.nodes < budget {
        if s.count == 0 {
            return s;
        }
        let top = s.count - 1;
        let f = s.levels[top];
        let level = f.level;
        let z = f.waiting;
        let value = to_double(z);
        let weight = weights[level];
        let partial = f.partial;
        let sum = partial + term(weight, f.center, value);
        s.nodes += 1;
        s.point[level] = z;
        rest[level] = target[level] - value;
        let following = generator(f, weight).next();
        s.levels[top] = waiting(level, partial, f, following);
        s.count = one_more(top, following);
        if sum <= s.radius {
            if level == 0 {
                s = consider(s, weights.len(), sum);
                continue;
            }
            let first = entered(mu, weights, target, rest, level - 1, s.radius - sum);
            let at = s.count;
            s.levels[at] = waiting(level - 1, sum, f, first);
            s.count = one_more(at, first);
        }
    }
    s
}
