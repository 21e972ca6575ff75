// Values at the ends of the domain, and tables for calls, which the test programs share.

// The largest double, and the smallest above 0.
pub const LARGEST: f64 = 1.7976931348623157e308;

pub const SMALLEST: f64 = 5e-324;

// 2^52, the limit of entries and targets, and the next double.
pub const LIMIT: f64 = 4503599627370496.0;

pub const BEYOND: f64 = 4503599627370497.0;

// 2^63.
pub const TOP: f64 = 9223372036854775808.0;

// The largest budget, 2^60.
pub const MOST: u64 = 1152921504606846976;

// The largest u64.
pub const EVERY: u64 = 18446744073709551615;

pub fn infinity() -> f64 {
    1.0 / 0.0
}

pub fn nan() -> f64 {
    0.0 / 0.0
}

// mu of dimension 2. Only the entry at 2 is read.
pub fn mu_of_two(entry: f64) -> [f64; 4] {
    [nan(), -infinity(), entry, LARGEST]
}

// mu of dimension 3. Only the entries at 3, 6 and 7 are read.
pub fn mu_of_three(entries: [f64; 3]) -> [f64; 9] {
    [
        nan(),
        -LARGEST,
        nan(),
        entries[0],
        infinity(),
        nan(),
        entries[1],
        entries[2],
        nan(),
    ]
}

// mu of dimension 23. The entry at 22 is not read.
pub fn mu_of_23() -> [f64; 529] {
    let mut mu = [0.2; 529];
    mu[22] = nan();
    mu[23] = -0.7;
    mu[253] = 0.3;
    mu[506] = -4.0;
    mu[527] = 0.9;
    mu
}

// A target of dimension 23.
pub fn target_of_23() -> [f64; 23] {
    let mut target = [0.7; 23];
    target[1] = -0.3;
    target[5] = 1.9;
    target[13] = -1.2;
    target[22] = 0.4;
    target
}

// The entry k of a mu of dimension n, or NaN if that is not read: on or above the diagonal.
fn read_or_nan(entry: f64, k: usize, n: usize) -> f64 {
    if n == 0 {
        return nan();
    }
    if k % n < k / n {
        return entry;
    }
    nan()
}

// Makes every entry of a mu of dimension n that is not read NaN.
pub fn hide_unread(mu: &mut [f64], n: usize) {
    for (k, entry) in mu.iter_mut().enumerate() {
        *entry = read_or_nan(*entry, k, n);
    }
}

// mu of dimension 24: the entries at 24, 49, 74 and 97, and 0 elsewhere. What is not read is NaN.
pub fn mu_of_24(entries: [f64; 4]) -> [f64; 576] {
    let mut mu = [0.0; 576];
    mu[24] = entries[0];
    mu[49] = entries[1];
    mu[74] = entries[2];
    mu[97] = entries[3];
    hide_unread(&mut mu, 24);
    mu
}

// A target of dimension 24: its first coordinates, and 0 elsewhere.
pub fn target_of_24(first: [f64; 5]) -> [f64; 24] {
    let mut target = [0.0; 24];
    target[0..5].copy_from_slice(&first);
    target
}

// mu of dimension 64. What is not read is NaN.
pub fn mu_of_64() -> [f64; 4096] {
    let mut mu = [0.03; 4096];
    mu[64] = -0.7;
    mu[2048] = 1.3;
    mu[2079] = -0.6;
    mu[4032] = -4.0;
    mu[4062] = 0.4;
    mu[4094] = 0.9;
    hide_unread(&mut mu, 64);
    mu
}

// A target of dimension 64.
pub fn target_of_64() -> [f64; 64] {
    let mut target = [3.1; 64];
    target[0] = 0.4;
    target[1] = -0.3;
    target[31] = 1.9;
    target[32] = -5.2;
    target[62] = -1.1;
    target[63] = 2.2;
    target
}
