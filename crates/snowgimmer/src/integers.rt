// The logic knows of an i64 that is read that it has 64 bits, and of a slice that is only lent on nothing.
ghost use Rattle.std.specs.Prelude.{T};
ghost use Rattle.definitions.specs.Admitted.{all_i64};
ghost use Rattle.definitions.specs.Lent.{at_entry};

// Reads each integer, for what its contract says of them; it computes nothing.
pub fn read_integers(values: &[i64])
    ensures { T (all_i64 (at_entry values)) }
{
    for &value in values {
        let _ = value;
    }
}
