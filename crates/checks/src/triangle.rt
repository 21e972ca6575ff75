// The check of the triangle, 3 and 4 in one pass: a state that is fed an entry at a time, by rising index. Every state can
// be handed in; the start is `Clean`.
ghost use Rattle.std.specs.Prelude.{◌≡◌, ◌+◌, ◌≤◌, length};
ghost use Rattle.definitions.specs.Checks.{pass, count_from, read_indices};
ghost use Rattle.definitions.specs.Entries.{entry_of, fed, fed_all, entries_at, entries_verdict};
ghost use Rattle.definitions.specs.Lent.{at_entry};
ghost use Rattle.refusals.specs.Numbers.{verdict};
ghost use Rattle.checks.specs.Triangle.{triangle_verdict, Square};

use crate::single::beyond_limit;
use refusals::Refusal;
use rounding::is_finite;

// What has been seen of the entries so far: the index of the first that is not finite or, where there is none, of the first
// above 2^52 in magnitude. It stays an enum: an `Option` or a `Result` is no plainer for three states of which one refusal
// may still become the other.
#[derive(Clone, Copy)]
pub enum Triangle {
    Clean,
    Range(usize),
    NonFinite(usize),
}

// One entry more, with its index in the n·n slice. The tests stay inside the arms: with guards at them a table's check takes
// 1.4 times as long.
pub fn feed(s: Triangle, index: usize, x: f64) -> Triangle
    ensures { triangle_verdict result ≡ fed (triangle_verdict s) (entry_of index x) }
{
    match s {
        Triangle::NonFinite(_) => s,
        Triangle::Range(_) => {
            if is_finite(x) {
                s
            } else {
                Triangle::NonFinite(index)
            }
        }
        Triangle::Clean => {
            if !is_finite(x) {
                Triangle::NonFinite(index)
            } else if beyond_limit(x) {
                Triangle::Range(index)
            } else {
                s
            }
        }
    }
}

// The verdict that the state stands for.
pub fn triangle_verdict(s: Triangle) -> Result<(), Refusal>
    ensures { verdict result ≡ triangle_verdict s }
{
    match s {
        Triangle::NonFinite(k) => Err(Refusal::MuNonFinite(k)),
        Triangle::Range(k) => Err(Refusal::MuRange(k)),
        Triangle::Clean => Ok(()),
    }
}

// The entries of mu from `first` on, so many, in turn.
#[tactic(auto, using(crate::proofs::Entries::row_more), unfolding(definitions::specs::Entries::fed_all, definitions::specs::Checks::count_from))]
fn feed_row(mu: &[f64], first: usize, count: usize, start: Triangle) -> Triangle
    requires { first + count ≤ length mu.now }
    ensures { triangle_verdict result ≡ fed_all (triangle_verdict start) (entries_at (at_entry mu) (count_from first count)) }
{
    let mut s = start;
    for k in 0..count {
        s = feed(s, first + k, mu[first + k]);
    }
    s
}

// All entries that are read: row j has j, from j·n on.
#[tactic(auto, using(crate::proofs::Entries::rows_more), unfolding(definitions::specs::Entries::fed_all, definitions::specs::Checks::read_indices))]
fn feed_rows(mu: &[f64], n: usize) -> Triangle
    requires { Square n mu.now }
    ensures { triangle_verdict result ≡ fed_all pass (entries_at (at_entry mu) (read_indices n n)) }
{
    let mut s = Triangle::Clean;
    for j in 0..n {
        s = feed_row(mu, j * n, j, s);
    }
    s
}

// 3, then 4, over the entries that are read. It carries the first index in the n·n slice.
#[tactic(auto, using(definitions::proofs::Entries::fed_verdict))]
pub fn triangle_check(mu: &[f64], n: usize) -> Result<(), Refusal>
    requires { Square n mu.now }
    ensures { verdict result ≡ entries_verdict (at_entry mu) (read_indices n n) }
{
    triangle_verdict(feed_rows(mu, n))
}
