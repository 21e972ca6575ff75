// Which name a turn serves.
ghost use Rattle.std.specs.Prelude.{◌≡◌, ◌-◌, ◌*◌, length};
ghost use Rattle.definitions.specs.Block.{counts_of_part, from, is_sound};
ghost use Rattle.definitions.specs.Turn.{next_name};
ghost use Rattle.definitions.specs.Lent.{at_entry};
ghost use Rattle.turns.specs.Names.{HeldReady, ServedBy};

use kept::COUNTS_OF_PART;
use parts::is_sound;

// The name after a name: 1 after 8, and after a number that is no name.
fn next_name(name: u64) -> u64
    ensures { result ≡ next_name name }
{
    if name < 8 {
        return name + 1;
    }
    1
}

// Whether the name holds a search.
fn is_held(counts: &[u64], name: u64) -> bool
    requires { HeldReady counts.now name }
    ensures { result ≡ is_sound (from ((name - 1) * counts_of_part) counts_of_part (at_entry counts)) }
{
    let c = (name - 1) as usize * COUNTS_OF_PART;
    is_sound(&counts[c..c + COUNTS_OF_PART])
}

// The next held name after the one last served, if one is held.
pub fn next_held(counts: &[u64], last: u64) -> Option<u64>
    requires { length counts.now ≡ 768 }
    ensures { ServedBy (at_entry counts) last result }
{
    let mut name = last;
    for _ in 0..8u64 {
        name = next_name(name);
        if is_held(counts, name) {
            return Some(name);
        }
    }
    None
}
