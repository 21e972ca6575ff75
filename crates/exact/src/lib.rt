// Sums of up to 64 products of a signed 64-bit integer with an integer of at most 2^52 in magnitude, without loss: a
// product is at most 2^115 in magnitude and 64 of them at most 2^121, so nothing wraps on the way.
#![tactic(auto)]

ghost use Rattle.std.specs.Prelude.{◌≡◌, ◌+◌, ◌*◌, ◌≤◌, ◌<◌, length};
ghost use Rattle.exact.specs.Value.{exact_of, products, Bounded};

// The dot product of n integers of `left`, from `first` on, with a column of an n·n matrix that lies row by row, as an
// i64 where it is one.
pub fn dot(left: &[i64], first: usize, matrix: &[i64], n: usize, column: usize) -> Option<i64>
    requires n_bound { n ≤ 64 }
    requires n_in_bounds { first + n ≤ length left.now }
    requires matrix_len { length matrix.now ≡ n * n }
    requires column_lt_n { column < n }
    requires bounded { Bounded matrix.now }
    ensures { result ≡ exact_of (products n left.now first matrix.now column) }
{
    let mut sum: i128 = 0;
    for row in 0..n {
        sum += i128::from(left[first + row]) * i128::from(matrix[row * n + column]);
    }
    i64::try_from(sum).ok()
}
