// Doubles and signed 64-bit integers: rounding from the one to the other, and what Rust's `is_finite`, `abs`, `max`
// and `total_cmp` give.
#![tactic(auto)]

ghost use Rattle.std.specs.Prelude.{◌≡◌, ◌^◌, ◌<◌, false, from_bits, to_bits};
ghost use Rattle.std.specs.Int.Signed.{mag};
ghost use Rattle.std.specs.Float.{binary64};
ghost use Rattle.std.specs.Float.Ieee.Scale.{finite};
ghost use Rattle.rounding.specs.Integers.{round_away, to_double};
ghost use Rattle.rounding.specs.Doubles as D;
ghost use Rattle.rounding.specs.Ordering.{ordering_of};
ghost use Rattle.rounding.specs.Rounded.{InRange, Rounds, IntegerAndDouble};

use std::cmp::Ordering;

// The nearest integer to an x above 0 and below 2^63, a half upward. The sum x + x is exact, so the halves that it
// counts are those of x.
fn rounded(x: f64) -> u64
    requires { InRange x }
    ensures { Rounds x result }
{
    let halves = std::num::truncating_f64_to_u64(x + x);
    halves / 2 + halves % 2
}

// The nearest integer; of two equally near ones that with the larger magnitude. What is too large for an i64, plus
// infinity too, gives i64::MAX; what is too small, minus infinity too, i64::MIN; a NaN and either zero give 0. It is worked
// out here, as the customer asks in place of a cast that saturates.
pub fn round_away(v: f64) -> i64
    ensures { result ≡ round_away v }
{
    if v > 0.0 {
        if v < 9223372036854775808.0 {
            return rounded(v) as i64;
        }
        return i64::MAX;
    }
    if v < 0.0 {
        let w = -v;
        if w < 9223372036854775808.0 {
            return 0 - (rounded(w) as i64);
        }
        return i64::MIN;
    }
    0
}

// The double nearest to n, ties to the even one: exact up to 2^53 either way, rounded beyond. 0 gives plus zero.
pub fn to_double(n: i64) -> f64
    ensures { result ≡ to_double n }
{
    if n >= -9007199254740992 && n <= 9007199254740992 {
        return n as f64;
    }
    std::num::nearest_i64_to_f64(n)
}

// An integer with its double.
#[derive(Clone, Copy)]
pub struct RoundedAway {
    pub integer: i64,
    pub double: f64,
}

// An integer that may be the nearest to v. A sum from 2^52 to 2^53 counts the whole numbers by its last digits, so these
// tell it for a v below 2^51; elsewhere it is any.
fn guessed(v: f64) -> i64
    ensures { mag result < 2 ^ 52 }
{
    let bits = to_bits(v + 6755399441055744.0);
    if bits < 4841369599423283200 {
        return 0;
    }
    let digits = bits - 4841369599423283200;
    if digits < 4503599627370496 {
        return digits as i64 - 2251799813685248;
    }
    0
}

// `round_away` of v, and `to_double` of that. A guess is taken that is nearer to v than a half; a half itself, and what
// no guess meets, is worked out.
#[inline(always)]
pub fn rounded_away(v: f64) -> RoundedAway
    ensures { IntegerAndDouble v result }
{
    let near = guessed(v);
    let double = to_double(near);
    let off = v - double;
    if off < 0.5 && off > -0.5 {
        return RoundedAway {
            integer: near,
            double,
        };
    }
    let integer = round_away(v);
    RoundedAway {
        integer,
        double: to_double(integer),
    }
}

// Whether x is finite: false of the two infinities and of a NaN, true of all else.
pub fn is_finite(x: f64) -> bool
    ensures { result ≡ finite x }
{
    x.is_finite()
}

// x without its sign: minus zero gives plus zero, minus infinity plus infinity, and a NaN a NaN.
pub fn magnitude(x: f64) -> f64
    ensures { result ≡ D.magnitude x }
{
    x.abs()
}

// The larger of x and y; x where they are equal, as plus and minus zero are. Where one of them is a NaN it gives the
// other one, and so a NaN only of two. (`f64::max` gives either of two equal ones.)
pub fn max(x: f64, y: f64) -> f64
    ensures { result ≡ D.larger x y }
{
    if x < y || x.is_nan() {
        return y;
    }
    x
}

// The double of a bit pattern, a NaN for each of a NaN's patterns: those that are, but for the sign, above infinity's.
// (`f64::from_bits` asks that it is none of these, and `f64::to_bits` that x is no NaN.)
pub fn from_bits(bits: u64) -> f64
    ensures { result ≡ from_bits binary64 bits }
{
    if bits % 9223372036854775808 > 9218868437227405312 {
        return 0.0 / 0.0;
    }
    f64::from_bits(bits)
}

// The bit pattern of a double; for a NaN, the quiet one with no sign and no payload.
pub fn to_bits(x: f64) -> u64
    ensures { result ≡ to_bits binary64 x }
{
    if x.is_nan() {
        return 9221120237041090560;
    }
    f64::to_bits(x)
}

// How x stands to y: by value, minus zero below plus zero, and a NaN above every number and equal to a NaN. It is
// Rust's `total_cmp` but for the signs and payloads of NaNs, which are not seen.
pub fn total_cmp(x: f64, y: f64) -> Ordering
    ensures { result ≡ ordering_of (D.total_cmp x y) }
{
    let (first, second) = (x.is_nan(), y.is_nan());
    if first || second {
        return first.cmp(&second);
    }
    x.total_cmp(&y)
}

// Whether x stands before y in `total_cmp`'s order: by value, minus zero before plus zero, and a NaN after every
// number. No x stands before itself.
pub fn precedes(x: f64, y: f64) -> bool
    ensures { result ≡ D.precedes x y }
{
    total_cmp(x, y).is_lt()
}
