// The open levels of a walk written into a part, the lowest first, with zeros behind the last.
ghost use Rattle.std.specs.Prelude.{◌≡◌, take};
ghost use Rattle.definitions.specs.Block.{reals_of_part, integers_of_part, counts_of_part, flag};
ghost use Rattle.definitions.specs.Lent.{at_entry, at_exit};
ghost use Rattle.parts.specs.Levels.{open_levels, reals_of, integers_behind, counts_of, ColumnsReady};

use crate::layout::{
    CENTERS, DIMENSION, DOWNWARD, FOUND, LEVELS, NEAREST, NODES, OPEN, PARTIALS, REMAINDERS,
    STANDING, STEPS, UPWARD, WAITING,
};
use resume::Walk;

fn flag_of(b: bool) -> u64
    ensures { result ≡ flag b }
{
    u64::from(b)
}

// The doubles of a walk, behind table, target and radius.
pub fn write_reals(s: Walk, reals: &mut [f64])
    requires { ColumnsReady reals_of_part s reals.old }
    ensures { reals.new ≡ reals_of (take 576 reals.old) s }
{
    reals[STANDING..].fill(0.0);
    reals[STANDING] = s.radius;
    for i in 0..s.count {
        let f = s.levels[s.count - 1 - i];
        reals[PARTIALS + i] = f.partial;
        reals[CENTERS + i] = f.center;
        reals[REMAINDERS + i] = f.remaining;
    }
}

// The integers of its open levels, behind the point under trial and the best.
pub fn write_integers(s: Walk, integers: &mut [i64])
    requires { ColumnsReady integers_of_part s integers.old }
    ensures { integers.new ≡ integers_behind (take 46 integers.old) (open_levels s) }
{
    integers[NEAREST..].fill(0);
    for i in 0..s.count {
        let f = s.levels[s.count - 1 - i];
        integers[NEAREST + i] = f.nearest;
        integers[WAITING + i] = f.waiting;
    }
}

// The counts of a walk of n levels.
pub fn write_counts(n: usize, s: Walk, counts: &mut [u64])
    requires { ColumnsReady counts_of_part s counts.old }
    ensures { counts.new ≡ counts_of n s }
{
    counts.fill(0);
    counts[DIMENSION] = n as u64;
    counts[NODES] = s.nodes;
    counts[FOUND] = flag_of(s.found);
    counts[OPEN] = s.count as u64;
    for i in 0..s.count {
        let f = s.levels[s.count - 1 - i];
        counts[LEVELS + i] = f.level as u64;
        counts[STEPS + i] = f.step;
        counts[UPWARD + i] = flag_of(f.positive_done);
        counts[DOWNWARD + i] = flag_of(f.negative_done);
    }
}
