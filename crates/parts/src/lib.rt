// The part of a name in the block: its soundness test, a walk read from it, a table and a walk written into it, and the
// part cleared.
#![tactic(auto)]

ghost use Rattle.std.specs.Prelude.{◌≡◌, cond, ◌++◌, length, take, drop};
ghost use Rattle.definitions.specs.Block.{counts_of_part, is_sound, written_table};
ghost use Rattle.definitions.specs.Lent.{at_entry, at_exit, table_at};
ghost use Rattle.parts.specs.Parts.{block, Holds, zeros, TableReady};
ghost use Rattle.parts.specs.Walks.{ReadReady, WalkRead, WriteReady, WalkWritten};

mod columns;
mod filling;
mod layout;
mod levels;

use columns::{write_counts, write_integers, write_reals};
use definitions::{LARGEST_BUDGET, LARGEST_DIMENSION, LARGEST_SQUARE};
use filling::{copy_padded, copy_places};
use layout::{BEST, DIMENSION, FOUND, NEAREST, NODES, OPEN, STANDING};
use levels::{levels_rise, read_levels};
use lists::copy;
use resume::Walk;

// Whether the counts are those of a search that is not over, of at most 23 levels and 2^60 nodes. They may hold any
// numbers.
pub fn is_sound(counts: &[u64]) -> bool
    requires { length counts.now ≡ counts_of_part }
    ensures { result ≡ is_sound (at_entry counts) }
{
    let n = counts[DIMENSION];
    let nodes = counts[NODES];
    let open = counts[OPEN];
    if n > LARGEST_DIMENSION as u64 || nodes > LARGEST_BUDGET || open < 1 || open > n {
        return false;
    }
    levels_rise(counts)
}

// The walk of a sound part.
pub fn read_walk(reals: &[f64], integers: &[i64], counts: &[u64]) -> Walk
    requires { ReadReady (block reals.now integers.now counts.now) }
    ensures { WalkRead (block (at_entry reals) (at_entry integers) (at_entry counts)) result }
{
    let n = counts[DIMENSION] as usize;
    let mut point = [0; LARGEST_DIMENSION];
    copy(integers, &mut point[..n]);
    let start = BEST;
    let end = start + n;
    let mut best = [0; LARGEST_DIMENSION];
    copy(&integers[start..end], &mut best[..n]);
    let levels = read_levels(reals, integers, counts);
    Walk {
        point,
        best,
        levels,
        count: counts[OPEN] as usize,
        radius: reals[STANDING],
        nodes: counts[NODES],
        found: counts[FOUND] != 0,
    }
}

// Writes what stays of a search as long as it is kept: weights, mu and target, each with zeros behind, and the radius.
pub fn write_table(weights: &[f64], mu: &[f64], target: &[f64], radius: f64, reals: &mut [f64])
    requires { TableReady weights.now mu.now target.now reals.old }
    ensures { reals.new ≡ written_table (table_at weights mu) (at_entry target) radius ++ drop 576 reals.old }
{
    let mu_start = LARGEST_DIMENSION;
    let mu_end = mu_start + LARGEST_SQUARE;
    let target_end = mu_end + LARGEST_DIMENSION;
    copy_padded(weights, &mut reals[..mu_start]);
    copy_padded(mu, &mut reals[mu_start..mu_end]);
    copy_padded(target, &mut reals[mu_end..target_end]);
    reals[target_end] = radius;
}

// So many coordinates of the best are written: none, if there is none.
fn best_size(found: bool, n: usize) -> usize
    ensures { result ≡ cond found n 0 }
{
    if found { n } else { 0 }
}

// Writes a walk of n levels that is not over, behind table, target and radius. Coordinates at and below the lowest open
// level are written as 0, and so are the best, if there is none, and the places behind the last open level.
pub fn write_walk(n: usize, s: Walk, reals: &mut [f64], integers: &mut [i64], counts: &mut [u64])
    requires { WriteReady n s (block reals.old integers.old counts.old) }
    ensures { WalkWritten n s (take 576 reals.old) reals.new integers.new counts.new }
{
    write_reals(s, reals);
    let top = s.count - 1;
    let f = s.levels[top];
    let start = BEST;
    let end = NEAREST;
    copy_places(&s.point, f.level + 1, n, &mut integers[..start]);
    copy_places(&s.best, 0, best_size(s.found, n), &mut integers[start..end]);
    write_integers(s, integers);
    write_counts(n, s, counts);
}

// Makes a part empty: every place is 0.
pub fn clear(reals: &mut [f64], integers: &mut [i64], counts: &mut [u64])
    ensures { Holds (zeros (block reals.old integers.old counts.old)) reals.new integers.new counts.new }
{
    reals.fill(0.0);
    integers.fill(0);
    counts.fill(0);
}
