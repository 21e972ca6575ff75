// Searches that are kept under the names 1 to 8, in a block of memory of the caller's: a nearest search that is put down
// when its budget runs out, and its pickup.
#![tactic(auto)]

ghost use Rattle.std.specs.Prelude.{◌≡◌, ◌∷◌};
ghost use Rattle.definitions.specs.Checks.{first_refusal};
ghost use Rattle.definitions.specs.Kept.{name_check};
ghost use Rattle.definitions.specs.Block.{block_checks};
ghost use Rattle.definitions.specs.Lent.{at_entry, at_exit, table_at};
ghost use Rattle.definitions.specs.Named as D;
ghost use Rattle.refusals.specs.Numbers.{verdict};
ghost use Rattle.parts.specs.Parts.{block};
ghost use Rattle.kept.specs.Calls.{KeptAnswered};

pub mod part;

use checks::{handed_on, nearest_check};
use definitions::LARGEST_DIMENSION;
use enumerate::NearestPoint;
use part::{nearest_part, pick_up_part};
use refusals::Refusal;

// The places of one name's part in each of the block's slices: `reals_of_part`, `integers_of_part`, `counts_of_part`. A
// block stays three slices, and no struct of them, since C lends it so; and each call cuts its part out of them itself,
// since a function that handed the three parts out would need a clause on loans that is longer than these lines.
pub const REALS_OF_PART: usize = 646;

pub const INTEGERS_OF_PART: usize = 92;

pub const COUNTS_OF_PART: usize = 96;

// The places of a block, which has a part for each of the names 1 to 8.
const REALS: usize = 8 * REALS_OF_PART;

const INTEGERS: usize = 8 * INTEGERS_OF_PART;

const COUNTS: usize = 8 * COUNTS_OF_PART;

// 25, then 6 of the block's three slices.
pub fn block_check(
    reals: &[f64],
    integers: &[i64],
    counts: &[u64],
    name: u64,
) -> Result<(), Refusal>
    ensures { verdict result ≡ first_refusal (name_check name ∷ block_checks (block (at_entry reals) (at_entry integers) (at_entry counts))) }
{
    if name < 1 || name > 8 {
        return Err(Refusal::NameRange);
    }
    if reals.len() != REALS {
        return Err(Refusal::LengthMismatch(REALS, reals.len()));
    }
    if integers.len() != INTEGERS {
        return Err(Refusal::LengthMismatch(INTEGERS, integers.len()));
    }
    if counts.len() != COUNTS {
        return Err(Refusal::LengthMismatch(COUNTS, counts.len()));
    }
    Ok(())
}

// Finds the nearest integer vector inside the radius, for n up to 23, and writes it to out; tells the nodes and the
// point's distance. If the budget runs out, the search is kept in the block under the name, with its own copy of table
// and target, in the place of what was there.
//
// Refused: 25, the name; 6, the block; 2 to 9, the table and the call; 15, the budget ran out (nodes, the radius that
// stood); 16, no vector is inside (radius). A refusal leaves out as it was, and every answer but 15 the block.
pub fn nearest_named(
    reals: &mut [f64],
    integers: &mut [i64],
    counts: &mut [u64],
    name: u64,
    weights: &[f64],
    mu: &[f64],
    target: &[f64],
    out: &mut [i64],
    radius: f64,
    budget: u64,
) -> Result<NearestPoint, Refusal>
    ensures { KeptAnswered (D.nearest_named (block reals.old integers.old counts.old) name (table_at weights mu) (at_entry target) out.old radius budget) (D.block_after_named (block reals.old integers.old counts.old) name (table_at weights mu) (at_entry target) out.old radius budget) out.old result out.new (block reals.new integers.new counts.new) }
{
    block_check(reals, integers, counts, name)?;
    nearest_check(LARGEST_DIMENSION, weights, mu, target, out, radius, budget)?;
    let at = (name - 1) as usize;
    let r = at * REALS_OF_PART;
    let i = at * INTEGERS_OF_PART;
    let c = at * COUNTS_OF_PART;
    nearest_part(
        &mut reals[r..r + REALS_OF_PART],
        &mut integers[i..i + INTEGERS_OF_PART],
        &mut counts[c..c + COUNTS_OF_PART],
        weights,
        mu,
        target,
        out,
        handed_on(radius),
        budget,
    )
}

// Goes on with the search that the name holds, by a further budget: the answer is that of one search with all its budgets.
// If it is over, the name is emptied; else it is kept again.
//
// Refused: 25, the name; 6, the block; 26, the name holds no search; 6, the output (n); 27, the sum of the budgets; 15
// and 16 as above. A refusal leaves out as it was, and one by a check the block.
pub fn pick_up(
    reals: &mut [f64],
    integers: &mut [i64],
    counts: &mut [u64],
    name: u64,
    out: &mut [i64],
    budget: u64,
) -> Result<NearestPoint, Refusal>
    ensures { KeptAnswered (D.pick_up (block reals.old integers.old counts.old) name out.old budget) (D.block_after_pick_up (block reals.old integers.old counts.old) name out.old budget) out.old result out.new (block reals.new integers.new counts.new) }
{
    block_check(reals, integers, counts, name)?;
    let at = (name - 1) as usize;
    let r = at * REALS_OF_PART;
    let i = at * INTEGERS_OF_PART;
    let c = at * COUNTS_OF_PART;
    pick_up_part(
        &mut reals[r..r + REALS_OF_PART],
        &mut integers[i..i + INTEGERS_OF_PART],
        &mut counts[c..c + COUNTS_OF_PART],
        out,
        budget,
    )
}
