// The integers of a level, in zigzag order from the centre outward.
#![tactic(auto)]

ghost use Rattle.std.specs.Prelude.{◌≡◌, false, cond, not, ◌||◌, ◌+◌, ◌<◌, ◌^◌, ◌%◌, eqb, pos, neg_ℤ, ◌+ℤ◌, ◌-ℤ◌};
ghost use Rattle.std.specs.Bool.{beq};
ghost use Rattle.definitions.specs.Zigzag as Z;
ghost use Rattle.children.specs.View.{zigzag, at_step, trial_of, level_of, child_of, moved_of, tested_of, FirstStep, LastStep};

use distance::term;
use rounding::{rounded_away, to_double};

// The state of a level's generator: the centre, what remained of the radius on entry and the weight, the integer
// nearest to the centre, the number of the next step, and what is over already.
#[derive(Clone, Copy)]
pub struct Children {
    pub center: f64,
    pub remaining: f64,
    pub weight: f64,
    pub nearest: i64,
    pub step: u64,
    pub emitted_nearest: bool,
    pub positive_done: bool,
    pub negative_done: bool,
}

// An integer with its double and its term.
#[derive(Clone, Copy)]
pub struct Trial {
    pub z: i64,
    pub value: f64,
    pub term: f64,
}

// A magnitude with the sign of its direction.
fn signed(magnitude: u64, positive: bool) -> i64
    requires { magnitude < 2 ^ 62 }
    ensures { result ≡ cond positive (pos magnitude) (neg_ℤ (pos magnitude)) }
{
    let m = magnitude as i64;
    if positive {
        return m;
    }
    0 - m
}

// A step's candidate, nearest + or - magnitude, where it is an i64. Far from the ends of i64, one sum serves both
// directions: which one it is, is hard to foresee.
fn candidate(nearest: i64, magnitude: u64, positive: bool) -> Option<i64>
    requires { magnitude < 2 ^ 63 }
    ensures { result ≡ moved_of (cond positive (nearest +ℤ pos magnitude) (nearest -ℤ pos magnitude)) }
{
    if magnitude < 4611686018427387904
        && nearest >= -4611686018427387904
        && nearest < 4611686018427387904
    {
        return Some(nearest + signed(magnitude, positive));
    }
    if positive {
        return nearest.checked_add_unsigned(magnitude);
    }
    nearest.checked_sub_unsigned(magnitude)
}

// The integer z with its double, and its term at a level of that weight and centre.
fn trial_of(weight: f64, center: f64, z: i64) -> Trial
    ensures { result ≡ trial_of weight center z }
{
    let value = to_double(z);
    Trial {
        z,
        value,
        term: term(weight, center, value),
    }
}

// Whether a step goes upward, `first` being whether the first step does: odd steps go where that goes.
fn upward(step: u64, first: bool) -> bool
    ensures { result ≡ beq (eqb (step % 2) 1) first }
{
    if step % 2 == 1 {
        return first;
    }
    !first
}

impl Children {
    // A level's generator before its first child, or None where the level has no children: the nearest integer's term is
    // not at most `remaining`.
    #[inline(always)]
    pub fn new(center: f64, remaining: f64, weight: f64) -> Option<Children>
        ensures { result ≡ level_of (Z.start center remaining weight) }
    {
        let nearest = rounded_away(center);
        if term(weight, center, nearest.double) <= remaining {
            return Some(Children {
                center,
                remaining,
                weight,
                nearest: nearest.integer,
                step: 1,
                emitted_nearest: false,
                positive_done: false,
                negative_done: false,
            });
        }
        None
    }

    // The first child of a generator that has given none, with the generator after it.
    pub fn first(self) -> Option<(Trial, Children)>
        requires { self.emitted_nearest ≡ false }
        ensures { result ≡ child_of (Z.next (zigzag self)) }
    {
        Some((
            trial_of(self.weight, self.center, self.nearest),
            Children {
                emitted_nearest: true,
                ..self
            },
        ))
    }

    // Whether a direction is closed.
    fn done(self, positive: bool) -> bool
        ensures { result ≡ cond positive self.positive_done self.negative_done }
    {
        if positive {
            self.positive_done
        } else {
            self.negative_done
        }
    }

    // The candidate at a magnitude in a direction, where it is an i64 and its term is at most what remained.
    fn tested(self, magnitude: u64, positive: bool) -> Option<Trial>
        requires { magnitude < 2 ^ 63 }
        ensures { result ≡ tested_of (zigzag self) (cond positive (self.nearest +ℤ pos magnitude) (self.nearest -ℤ pos magnitude)) }
    {
        let z = candidate(self.nearest, magnitude, positive)?;
        let t = trial_of(self.weight, self.center, z);
        if t.term <= self.remaining {
            return Some(t);
        }
        None
    }

    // The child of the second step that is tried, unless its direction is closed too: the first has closed the other one.
    #[inline(always)]
    fn last_tried(self, step: u64, positive: bool) -> Option<(Trial, Children)>
        requires { LastStep self step positive }
        ensures { result ≡ child_of (Z.second_step (Z.none (at_step self step (not positive || self.positive_done) (positive || self.negative_done)))) }
    {
        if self.done(positive) {
            return None;
        }
        let last = self.tested((step + 1) / 2, positive)?;
        Some((
            last,
            Children {
                step: step + 1,
                positive_done: !positive | self.positive_done,
                negative_done: positive | self.negative_done,
                ..self
            },
        ))
    }

    // The child of a step whose direction is open, or of the step after it, or the end.
    #[inline(always)]
    fn tried(self, step: u64, positive: bool) -> Option<(Trial, Children)>
        requires { FirstStep self step positive }
        ensures { result ≡ child_of (Z.second_step (Z.one_step (at_step self step self.positive_done self.negative_done))) }
    {
        let Some(t) = self.tested((step + 1) / 2, positive) else {
            return self.last_tried(step + 1, !positive);
        };
        Some((
            t,
            Children {
                step: step + 1,
                ..self
            },
        ))
    }

    // The next child with the generator after it, or None: both directions are closed. A child takes at most two steps,
    // so the bound on `step` lasts for 2^61 children.
    #[inline(always)]
    pub fn next(self) -> Option<(Trial, Children)>
        requires { self.step < 2 ^ 62 }
        ensures { result ≡ child_of (Z.next (zigzag self)) }
    {
        if !self.emitted_nearest {
            return self.first();
        }
        let positive_first = self.center >= to_double(self.nearest);
        if self.positive_done & self.negative_done {
            return None;
        }
        let positive = upward(self.step, positive_first);
        let skipped = self.done(positive);
        self.tried(self.step + u64::from(skipped), positive != skipped)
    }
}
