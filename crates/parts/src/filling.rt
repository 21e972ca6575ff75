// Slices filled with what another slice holds, and with zeros in the other places.
ghost use Rattle.std.specs.Prelude.{◌≡◌, ◌≤◌, length, replicate, pos};
ghost use Rattle.definitions.specs.Block.{padded};
ghost use Rattle.definitions.specs.Lent.{at_entry, at_exit};
ghost use Rattle.definitions.specs.Table.{plus_zero};
ghost use Rattle.parts.specs.Levels.{coordinates, PlacesReady};

use lists::copy;

// Two calls of the library each, as functions since their clauses have the block's words.

// Copies a slice, with zeros in the places behind it.
pub fn copy_padded(from: &[f64], to: &mut [f64])
    requires { length from.now ≤ length to.old }
    ensures { to.new ≡ padded plus_zero (length to.old) (at_entry from) }
{
    to.fill(0.0);
    copy(from, &mut to[..from.len()]);
}

// Copies the places from `low` to `end`, with zeros in the others.
pub fn copy_places(from: &[i64], low: usize, end: usize, to: &mut [i64])
    requires { PlacesReady from.now low end to.old }
    ensures { to.new ≡ coordinates (length to.old) low end (at_entry from) }
{
    to.fill(0);
    copy(&from[low..end], &mut to[low..end]);
}
