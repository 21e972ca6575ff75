// The open levels of a part, which lie there the lowest first.
ghost use Rattle.std.specs.Prelude.{◌≡◌};
ghost use Rattle.definitions.specs.Block.{part_open, levels_rise};
ghost use Rattle.definitions.specs.Lent.{at_entry};
ghost use Rattle.parts.specs.Parts.{block, RiseReady};
ghost use Rattle.parts.specs.Levels.{level_in, LevelsRead};
ghost use Rattle.parts.specs.Walks.{LevelReady, ReadReady};

use crate::layout::{
    CENTERS, DIMENSION, DOWNWARD, LEVELS, NEAREST, NODES, OPEN, PARTIALS, REMAINDERS, STEPS,
    UPWARD, WAITING,
};
use definitions::LARGEST_DIMENSION;
use resume::OpenLevel;

// Whether the open levels rise, stay below n, and none has made more steps than the nodes allow.
pub fn levels_rise(counts: &[u64]) -> bool
    requires { RiseReady counts.now }
    ensures { result ≡ levels_rise (at_entry counts) 0 0 (part_open (at_entry counts)) }
{
    let n = counts[DIMENSION];
    let most = 2 * counts[NODES] + 1;
    let open = counts[OPEN] as usize;
    let mut low = 0;
    for i in 0..open {
        let level = counts[LEVELS + i];
        if level < low || level >= n || counts[STEPS + i] > most {
            return false;
        }
        low = level + 1;
    }
    true
}

// The i-th open level of a part, the lowest being 0.
fn read_level(reals: &[f64], integers: &[i64], counts: &[u64], i: usize) -> OpenLevel
    requires { LevelReady (block reals.now integers.now counts.now) i }
    ensures { result ≡ level_in (block (at_entry reals) (at_entry integers) (at_entry counts)) i }
{
    OpenLevel {
        level: counts[LEVELS + i] as usize,
        partial: reals[PARTIALS + i],
        center: reals[CENTERS + i],
        remaining: reals[REMAINDERS + i],
        nearest: integers[NEAREST + i],
        step: counts[STEPS + i],
        waiting: integers[WAITING + i],
        positive_done: counts[UPWARD + i] != 0,
        negative_done: counts[DOWNWARD + i] != 0,
    }
}

// The open levels of a part as a walk has them, the highest first.
pub fn read_levels(
    reals: &[f64],
    integers: &[i64],
    counts: &[u64],
) -> [OpenLevel; LARGEST_DIMENSION]
    requires { ReadReady (block reals.now integers.now counts.now) }
    ensures { LevelsRead (block (at_entry reals) (at_entry integers) (at_entry counts)) result }
{
    let open = counts[OPEN] as usize;
    let lowest = read_level(reals, integers, counts, 0);
    let mut levels = [lowest; LARGEST_DIMENSION];
    for i in 0..open {
        levels[i] = read_level(reals, integers, counts, open - 1 - i);
    }
    levels
}
