// The numbers and the sections in a job's bytes.
#![tactic(auto)]

ghost use Rattle.std.specs.Prelude.{◌≡◌, eqb, Ok, ◌+◌, ◌*◌, ◌^◌, ◌≤◌, ◌<◌, length};
ghost use Rattle.definitions.specs.Table.{largest_dimension};
ghost use Rattle.definitions.specs.JobLayout.{items_at, doubles, mu_rows, job};
ghost use Rattle.definitions.specs.JobLayout as D;
ghost use Rattle.definitions.specs.Lent.{at_entry};
ghost use Rattle.reading.specs.View.{within, section_of, SectionIs, section_end, settings_in, SettingsWithin, JobBytes, LayoutIs, job_at, settings_read, JobIs};
ghost use Rattle.reading.specs.Parts.{NumberWithin, NumberIs, ItemsWithin, RowsWithin, ArrayHolds};

use definitions::{DEFAULT_P, DEFAULT_PLACES, DEFAULT_Q, LARGEST_DIMENSION, LARGEST_SQUARE};
use rounding::from_bits;

// Why bytes are no job: the value of refusal 1.
#[derive(Clone, Copy)]
pub struct LayoutFault {
    pub value: usize,
}

// A section: its number of items and the offset after it.
#[derive(Clone, Copy)]
pub struct Section {
    pub count: usize,
    pub end: usize,
}

// The number in `size` bytes from an offset on, little-endian. Four bytes and eight are read by one loop, where
// `from_le_bytes` would need an array of each size.
fn number_at(input: &[u8], offset: usize, size: usize) -> u64
    requires { NumberWithin input.now offset size }
    ensures { NumberIs (at_entry input) offset size result }
{
    let mut value = 0u64;
    for left in (0..size).rev() {
        value = value * 256 + input[offset + left] as u64;
    }
    value
}

// Where a section of so many items ends.
fn section_end(offset: usize, count: usize) -> usize
    requires { section_end offset count < 2 ^ 64 }
    ensures { result ≡ section_end offset count }
{
    offset + 4 + 8 * count
}

// The section at an offset, whose count is to be from `low` to `high`.
fn section_at(input: &[u8], low: usize, high: usize, offset: usize) -> Result<Section, LayoutFault>
    requires { offset ≤ length input.now }
    ensures { SectionIs (at_entry input) (section_of (D.section (at_entry input) (within low high) offset)) result }
{
    let size = input.len();
    if size < offset + 4 {
        return Err(LayoutFault { value: size });
    }
    let count = number_at(input, offset, 4) as usize;
    if count < low || count > high {
        return Err(LayoutFault { value: offset });
    }
    let end = section_end(offset, count);
    if size < end {
        return Err(LayoutFault { value: size });
    }
    Ok(Section { count, end })
}

// The section at an offset, by its count.
fn next_section(input: &[u8], count: usize, offset: usize) -> Result<Section, LayoutFault>
    requires { offset ≤ length input.now }
    ensures { SectionIs (at_entry input) (section_of (D.section (at_entry input) (eqb count) offset)) result }
{
    section_at(input, count, count, offset)
}

// The settings' section at an offset. Where no bytes are left it stands for the three default settings and has no bytes.
fn next_settings(input: &[u8], offset: usize) -> Result<Section, LayoutFault>
    requires { offset ≤ length input.now }
    ensures { SectionIs (at_entry input) (section_of (D.settings_section (at_entry input) offset)) result }
{
    if offset < input.len() {
        return section_at(input, 3, 3, offset);
    }
    Ok(Section {
        count: 3,
        end: offset,
    })
}

// n(n-1)/2.
fn triangle(n: usize) -> usize
    requires { n ≤ largest_dimension }
    ensures { result ≡ D.triangle n }
{
    if n == 0 {
        return 0;
    }
    n * (n - 1) / 2
}

// The n of a job's bytes by their layout: five sections, settings if bytes are left, then nothing left over.
fn layout_at(input: &[u8]) -> Result<usize, LayoutFault>
    ensures { LayoutIs (at_entry input) (D.job_of (at_entry input)) result }
{
    let weights = section_at(input, 0, LARGEST_DIMENSION, 0)?;
    let n = weights.count;
    let mu = next_section(input, triangle(n), weights.end)?;
    let target = next_section(input, n, mu.end)?;
    let radius = next_section(input, 1, target.end)?;
    let budget = next_section(input, 1, radius.end)?;
    let settings = next_settings(input, budget.end)?;
    if settings.end < input.len() {
        return Err(LayoutFault {
            value: settings.end,
        });
    }
    Ok(n)
}

// The doubles from an offset on, by their bits, go to out.
fn doubles_at(input: &[u8], offset: usize, out: &mut [f64])
    requires { offset + 8 * length out.old ≤ length input.now }
    ensures { out.new ≡ doubles (items_at (at_entry input) offset (length out.old)) }
{
    for i in 0..out.len() {
        out[i] = from_bits(number_at(input, offset + 8 * i, 8));
    }
}

// mu's rows in a section, each of as many entries as its number, go to the n·n zeros of mu.
fn rows_at(input: &[u8], section: usize, n: usize, mu: &mut [f64])
    requires { RowsWithin input.now section n mu.old }
    ensures { mu.new ≡ mu_rows n (doubles (items_at (at_entry input) (section + 4) (D.triangle n))) n }
{
    let mut at = section + 4;
    for j in 0..n {
        let start = j * n;
        let end = start + j;
        doubles_at(input, at, &mut mu[start..end]);
        at += 8 * j;
    }
}

// The n doubles of a section, before zeros.
fn vector_at(input: &[u8], section: usize, n: usize) -> [f64; LARGEST_DIMENSION]
    requires { ItemsWithin input.now section n n }
    ensures { ArrayHolds largest_dimension n (doubles (items_at (at_entry input) (section + 4) n)) result }
{
    let mut out = [0.0; LARGEST_DIMENSION];
    doubles_at(input, section + 4, &mut out[..n]);
    out
}

// The n·n entries of mu, out of its rows in a section, before zeros.
fn mu_at(input: &[u8], section: usize, n: usize) -> [f64; LARGEST_SQUARE]
    requires { ItemsWithin input.now section n (D.triangle n) }
    ensures { ArrayHolds (largest_dimension * largest_dimension) (n * n) (mu_rows n (doubles (items_at (at_entry input) (section + 4) (D.triangle n))) n) result }
{
    let mut out = [0.0; LARGEST_SQUARE];
    let size = n * n;
    rows_at(input, section, n, &mut out[..size]);
    out
}

// The settings of a job.
#[derive(Clone, Copy)]
pub struct Settings {
    pub p: u64,
    pub q: u64,
    pub places: u64,
}

// The settings in a section, or the default ones where no bytes are left for it.
fn settings_at(input: &[u8], section: usize) -> Settings
    requires { SettingsWithin input.now section }
    ensures { settings_read result ≡ settings_in (at_entry input) section }
{
    if section < input.len() {
        let p = number_at(input, section + 4, 8);
        let q = number_at(input, section + 12, 8);
        let places = number_at(input, section + 20, 8);
        return Settings { p, q, places };
    }
    Settings {
        p: DEFAULT_P,
        q: DEFAULT_Q,
        places: DEFAULT_PLACES,
    }
}

// A job as it was read: the first n weights and targets and the first n·n entries of mu are the job's.
#[derive(Clone, Copy)]
pub struct Job {
    pub n: usize,
    pub weights: [f64; LARGEST_DIMENSION],
    pub mu: [f64; LARGEST_SQUARE],
    pub target: [f64; LARGEST_DIMENSION],
    pub radius: f64,
    pub budget: u64,
    pub settings: Settings,
}

// The job of n weights in bytes that have its layout.
fn job_at(input: &[u8], n: usize) -> Job
    requires { JobBytes input.now n }
    ensures { JobIs (job (job_at (at_entry input) n)) (Ok result) }
{
    let mu_section = section_end(0, n);
    let target_section = section_end(mu_section, triangle(n));
    let radius_section = section_end(target_section, n);
    let budget_section = section_end(radius_section, 1);
    let settings_section = section_end(budget_section, 1);
    let weights = vector_at(input, 0, n);
    let mu = mu_at(input, mu_section, n);
    let target = vector_at(input, target_section, n);
    let radius = from_bits(number_at(input, radius_section + 4, 8));
    let budget = number_at(input, budget_section + 4, 8);
    let settings = settings_at(input, settings_section);
    Job {
        n,
        weights,
        mu,
        target,
        radius,
        budget,
        settings,
    }
}

// Reads a job's bytes: the job, or the value of refusal 1.
pub fn read(input: &[u8]) -> Result<Job, LayoutFault>
    ensures { JobIs (D.job_of (at_entry input)) result }
{
    let n = layout_at(input)?;
    Ok(job_at(input, n))
}
