// Turns of the kept searches at one computer: each serves the next held name after the one last served, with a slice of
// nodes.
#![tactic(auto)]

ghost use Rattle.std.specs.Prelude.{◌≡◌, ◌∷◌};
ghost use Rattle.definitions.specs.Checks.{first_refusal};
ghost use Rattle.definitions.specs.Block.{block_checks};
ghost use Rattle.definitions.specs.Lent.{at_entry, at_exit};
ghost use Rattle.definitions.specs.Turn.{slice_check};
ghost use Rattle.refusals.specs.Numbers.{verdict};
ghost use Rattle.parts.specs.Parts.{block};
ghost use Rattle.turns.specs.Turns.{refused_turn, PartReady, PartServed, ServeReady, NameServed, TurnAnswered};

mod names;

use definitions::{LARGEST_BUDGET, LARGEST_DIMENSION};
use enumerate::NearestPoint;
use kept::part::pick_up_part;
use kept::{COUNTS_OF_PART, INTEGERS_OF_PART, REALS_OF_PART, block_check};
use names::next_held;
use parts::clear;
use refusals::Refusal;

// 2^20.
const LARGEST_SLICE: u64 = 1048576;

// What a turn tells: the name that it served, the n of its search, and the answer. A turn that a check refuses serves no
// name: 0 and 0, and no Option, since C is told these numbers and the definitions' `Turn` has them (`TurnAnswered`).
#[derive(Clone, Copy)]
pub struct TurnAnswer {
    pub name: u64,
    pub n: u64,
    pub answer: Result<NearestPoint, Refusal>,
}

// A turn that a check refuses.
fn refused(e: Refusal) -> TurnAnswer
    ensures { result ≡ refused_turn e }
{
    TurnAnswer {
        name: 0,
        n: 0,
        answer: Err(e),
    }
}

// 28, then 6 of the block's three slices.
fn slice_check(reals: &[f64], integers: &[i64], counts: &[u64], slice: u64) -> Result<(), Refusal>
    ensures { verdict result ≡ first_refusal (slice_check slice ∷ block_checks (block (at_entry reals) (at_entry integers) (at_entry counts))) }
{
    if slice < 1 || slice > LARGEST_SLICE {
        return Err(Refusal::SliceRange);
    }
    block_check(reals, integers, counts, 1)
}

// A slice for the search of a part, out having its n places. If the sum of its budgets would pass the limit, it is told
// as it stands and the part is cleared; else it is picked up.
fn serve_part(
    reals: &mut [f64],
    integers: &mut [i64],
    counts: &mut [u64],
    out: &mut [i64],
    slice: u64,
) -> Result<NearestPoint, Refusal>
    requires { PartReady (block reals.old integers.old counts.old) out.old }
    ensures { PartServed (block reals.old integers.old counts.old) out.old slice result out.new (block reals.new integers.new counts.new) }
{
    let nodes = counts[1];
    if slice > LARGEST_BUDGET - nodes {
        let standing = reals[576];
        clear(reals, integers, counts);
        return Err(Refusal::BudgetExhausted(nodes, standing));
    }
    pick_up_part(reals, integers, counts, out, slice)
}

// Serves a held name: a point found goes to the first places of out.
fn serve(
    reals: &mut [f64],
    integers: &mut [i64],
    counts: &mut [u64],
    out: &mut [i64],
    name: u64,
    slice: u64,
) -> TurnAnswer
    requires { ServeReady (block reals.old integers.old counts.old) out.old name }
    ensures { NameServed (block reals.old integers.old counts.old) out.old name slice result out.new (block reals.new integers.new counts.new) }
{
    let at = (name - 1) as usize;
    let r = at * REALS_OF_PART;
    let i = at * INTEGERS_OF_PART;
    let c = at * COUNTS_OF_PART;
    let n = counts[c] as usize;
    let answer = serve_part(
        &mut reals[r..r + REALS_OF_PART],
        &mut integers[i..i + INTEGERS_OF_PART],
        &mut counts[c..c + COUNTS_OF_PART],
        &mut out[..n],
        slice,
    );
    TurnAnswer {
        name,
        n: n as u64,
        answer,
    }
}

// Serves the next held name after `last`, which becomes that name: its search goes on by a slice of nodes, as by a pickup,
// and a point found goes to the first places of out. A search whose sum would pass 2^60 is answered 15 as it stands, and
// its name is emptied.
//
// Refused: 28, the slice; 6, the block; 29, no name is held; 6, out has not 23 places; 15 and 16 as by a pickup. A refusal
// leaves out as it was, and one by a check the block and `last`.
pub fn turn(
    reals: &mut [f64],
    integers: &mut [i64],
    counts: &mut [u64],
    last: &mut u64,
    out: &mut [i64],
    slice: u64,
) -> TurnAnswer
    ensures { TurnAnswered (block reals.old integers.old counts.old) last.old out.old slice result out.new (block reals.new integers.new counts.new) last.new }
{
    // a turn tells a name beside its answer, so it gives a struct, and no `?` hands a refusal up
    if let Err(e) = slice_check(reals, integers, counts, slice) {
        return refused(e);
    }
    let Some(name) = next_held(counts, *last) else {
        return refused(Refusal::NoneHeld);
    };
    if out.len() != LARGEST_DIMENSION {
        return refused(Refusal::LengthMismatch(LARGEST_DIMENSION, out.len()));
    }
    *last = name;
    serve(reals, integers, counts, out, name, slice)
}
