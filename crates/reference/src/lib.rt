// A change of the reference satellite: the cycles of a point, counted against one satellite, become cycles against another.
#![tactic(auto)]

ghost use Rattle.std.specs.Prelude.{◌≡◌, cond, ◌<◌, eqb, length, pos, ◌-ℤ◌};
ghost use Rattle.rounding.specs.Integers.{is_i64};
ghost use Rattle.definitions.specs.Checks.{first_refusal};
ghost use Rattle.definitions.specs.Reference.{cycles, changed_point, changed_range_check, checks_of_change, Accepted};
ghost use Rattle.definitions.specs.Lent.{at_entry, at_exit};
ghost use Rattle.refusals.specs.Numbers.{verdict};
ghost use Rattle.reference.specs.Answers.{ChangeAnswered};

use refusals::Refusal;

// Whether a - b is an i64.
fn difference_fits(a: i64, b: i64) -> bool
    ensures { result ≡ is_i64 (a -ℤ b) }
{
    a.checked_sub(b).is_some()
}

// What a(r) is subtracted from: a(i), and 0 in r's own place.
fn minuend(point: &[i64], r: usize, i: usize) -> i64
    requires { i < length point.now }
    ensures { result ≡ cond (eqb i r) (pos 0) (cycles (at_entry point) i) }
{
    if i == r { 0 } else { point[i] }
}

// 20: a coordinate that becomes no i64 (first index).
fn changed_range_check(point: &[i64], r: usize) -> Result<(), Refusal>
    requires { r < length point.now }
    ensures { verdict result ≡ changed_range_check (at_entry point) r }
{
    let subtrahend = point[r];
    for i in 0..point.len() {
        if !difference_fits(minuend(point, r, i), subtrahend) {
            return Err(Refusal::ChangedRange(i));
        }
    }
    Ok(())
}

// 19, r not below the length; then 20, once there is an a(r).
#[tactic(auto, using(definitions::proofs::References::index_outside, definitions::proofs::References::index_inside))]
fn change_check(point: &[i64], r: usize) -> Result<(), Refusal>
    ensures { verdict result ≡ first_refusal (checks_of_change (at_entry point) r) }
{
    if r >= point.len() {
        return Err(Refusal::ReferenceIndex);
    }
    changed_range_check(point, r)
}

// Changes each coordinate. a(r) is kept from before the first of them, since its own place changes too.
#[tactic(auto, using(definitions::proofs::References::point_changed))]
fn change_all(point: &mut [i64], r: usize)
    requires { Accepted point.old r }
    ensures { point.new ≡ changed_point point.old r }
{
    let subtrahend = point[r];
    for i in 0..point.len() {
        let own = minuend(point, r, i);
        point[i] = own - subtrahend;
    }
}

// Changes the reference satellite to that of coordinate r, which turns into -a(r), and every other a(i) into a(i) - a(r).
// The point may have any length.
//
// Refused: 19, r not below the length; 20, a coordinate that becomes no i64 (first index). A refusal leaves the point as
// it was.
#[tactic(auto, using(definitions::proofs::References::change_accepted), unfolding(definitions::specs::Reference::change_reference, definitions::specs::Reference::change_output))]
pub fn change_reference(point: &mut [i64], r: usize) -> Result<(), Refusal>
    ensures { ChangeAnswered point.old r result point.new }
{
    change_check(point, r)?;
    change_all(point, r);
    Ok(())
}
