// The triangle's check over the C interface, an entry at a time: the verdict so far is handed in and told as a number and an
// index.
ghost use Rattle.std.specs.Prelude.{◌≡◌};
ghost use Rattle.definitions.specs.Entries.{entry_of, fed};
ghost use Rattle.checks.specs.Triangle.{triangle_verdict};
ghost use Rattle.snowgimmer.specs.Reports.{of_verdict};
ghost use Rattle.snowgimmer.specs.Entries.{entry_report};

use crate::report::{Report, told, verdict_report};
use checks::triangle::{Triangle, feed, triangle_verdict};

// The report of the verdict after one entry more.
fn fed_report(s: Triangle, index: usize, x: f64) -> Report
    ensures { result ≡ of_verdict (fed (triangle_verdict s) (entry_of index x)) }
{
    verdict_report(triangle_verdict(feed(s, index, x)))
}

// The same, the verdict so far being given by its number and the index that it carries. A number that is no verdict of this
// check is told again, so that it is not taken for a pass.
pub fn entry_report(number: u32, at: u64, index: usize, x: f64) -> Report
    ensures { result ≡ entry_report number at (entry_of index x) }
{
    match number {
        0 => fed_report(Triangle::Clean, index, x),
        3 => fed_report(Triangle::NonFinite(at as usize), index, x),
        4 => fed_report(Triangle::Range(at as usize), index, x),
        _ => told(number, at, 0, 0.0),
    }
}
