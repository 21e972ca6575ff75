// Lists that crates share: definitions in specs/, laws in proofs/, and a copy of a slice.
#![tactic(auto)]

ghost use Rattle.std.specs.Prelude.{◌≡◌, ◌≤◌, length, take};

// Copies as many elements of `from` as `to` has.
pub fn copy<T: Copy>(from: &[T], to: &mut [T])
    requires { length to.old ≤ length from.now }
    ensures { to.new ≡ take (length to.old) from.now }
{
    to.copy_from_slice(&from[..to.len()]);
}
