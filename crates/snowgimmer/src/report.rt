// What a call tells beside the slices that it is lent: 0 or a refusal's number, and three values.
ghost use Rattle.std.specs.Prelude.{◌≡◌, List, ℤ};
ghost use Rattle.definitions.specs.Lent.{at_entry, table_at};
ghost use Rattle.refusals.specs.Numbers.{numbered, verdict};
ghost use Rattle.enumerate.specs.View as N;
ghost use Rattle.listing.specs.View as L;
ghost use Rattle.ratio.specs.View.{verdict_of, answer_of};
ghost use Rattle.snowgimmer.specs.Reports as R;
ghost use Rattle.definitions.specs.Calls.{point_distance};

use checks::search_check;
use definitions::LARGEST_DIMENSION;
use distance::triangular_distance;
use enumerate::NearestPoint;
use listing::ListFound;
use ratio::Ratio;
use refusals::{Carried, Refusal};

#[derive(Clone, Copy)]
pub struct Report {
    pub number: u32,
    pub first: u64,
    pub second: u64,
    pub real: f64,
}

// A report of these parts.
pub fn told(number: u32, first: u64, second: u64, real: f64) -> Report
    ensures { result ≡ R.told number first second real }
{
    Report {
        number,
        first,
        second,
        real,
    }
}

// A refusal's number and values.
impl From<Refusal> for Report {
    ghost from_gives = { λ e report. report ≡ R.of_refusal (numbered e) };

    fn from(e: Refusal) -> Report
        ensures { result ≡ R.of_refusal (numbered e) }
    {
        let n = Carried::from(e);
        told(n.number, n.first, n.second, n.real.unwrap_or(0.0))
    }
}

// The report of a nearest search: its nodes, and the distance of its point.
pub fn nearest_report(answer: Result<NearestPoint, Refusal>) -> Report
    ensures { (out : List ℤ) → result ≡ R.of_nearest (N.nearest_answer answer out) }
{
    match answer {
        Ok(p) => told(0, p.nodes, 0, p.distance),
        Err(e) => Report::from(e),
    }
}

// The report of a list: its nodes, and how many points.
pub fn list_report(answer: Result<ListFound, Refusal>) -> Report
    ensures { result ≡ R.of_counts (L.list_answer answer) }
{
    match answer {
        Ok(f) => told(0, f.nodes, f.points as u64, 0.0),
        Err(e) => Report::from(e),
    }
}

// A verdict on a list as a number: the C interface's.
fn ratio_number(ratio: Ratio) -> u64
    ensures { result ≡ R.ratio_number (verdict_of ratio) }
{
    match ratio {
        Ratio::None => 0,
        Ratio::Holds => 1,
        Ratio::Fails => 2,
        Ratio::Open => 3,
    }
}

// The report of a verdict on a list: its number.
pub fn ratio_report(answer: Result<Ratio, Refusal>) -> Report
    ensures { result ≡ R.of_ratio (answer_of answer) }
{
    match answer {
        Ok(ratio) => told(0, ratio_number(ratio), 0, 0.0),
        Err(e) => Report::from(e),
    }
}

// The report of a call that either succeeds or refuses, and no more.
pub fn verdict_report(v: Result<(), Refusal>) -> Report
    ensures { result ≡ R.of_verdict (verdict v) }
{
    match v {
        Ok(()) => told(0, 0, 0, 0.0),
        Err(e) => Report::from(e),
    }
}

// The report of a point's computed distance: 2 to 7, the point in the output's place, then 11. It gives a report and no
// Result, so there is nothing for a `?` to hand up.
pub fn distance_report(weights: &[f64], mu: &[f64], target: &[f64], point: &[i64]) -> Report
    ensures { result ≡ R.of_distance (point_distance (table_at weights mu) (at_entry target) (at_entry point)) }
{
    if let Err(e) = search_check(LARGEST_DIMENSION, weights, mu, target, point) {
        return Report::from(e);
    }
    match triangular_distance(mu, weights, target, point) {
        Ok(d) => told(0, 0, 0, d),
        Err(e) => Report::from(Refusal::CandidateDistance(e.total)),
    }
}

// Writes a report's values where the caller asked, and answers its number.
pub fn stored(report: Report, first: &mut u64, second: &mut u64, real: &mut f64) -> u32
    ensures { R.told_at result first second real ≡ report }
{
    *first = report.first;
    *second = report.second;
    *real = report.real;
    report.number
}
