// A job's bytes to the text that the job program prints.
#![tactic(auto)]

ghost use Rattle.std.specs.Prelude.{◌≡◌, ◌+◌, ◌*◌, ◌≤◌, length, take};
ghost use Rattle.definitions.specs.Table.{largest_dimension};
ghost use Rattle.definitions.specs.Lent.{at_entry};
ghost use Rattle.definitions.specs.Rows.{rows};
ghost use Rattle.definitions.specs.JobText as J;
ghost use Rattle.enumerate.specs.View.{nearest_answer};
ghost use Rattle.ratio.specs.View.{verdict_of};
ghost use Rattle.reading.specs.View.{job_read, layout_read};
ghost use Rattle.writing.specs.Appended.{Appended};
ghost use Rattle.job_answer.specs.Sizes.{nearest_size, listed_size, list_size, ratio_size, list_part_size, output_size};
ghost use Rattle.job_answer.specs.Texts.{listed_line, list_text, points_of, list_part};
ghost use Rattle.job_answer.specs.Room.{Room, LinesRoom, LayoutRoom, JobRoom, ListRoom};
ghost use Rattle.job_answer.specs.Answer.{JobAnswered, BufferRead, InputAnswered};

use definitions::{LARGEST_DIMENSION, LARGEST_PLACES};
use enumerate::{NearestPoint, nearest};
use listing::{ListFound, list};
use ratio::settings::settings_check;
use ratio::{Ratio, verdict};
use reading::{Job, LayoutFault, read};
use refusals::{Carried, Refusal};
use writing::{COORDINATE_SIZE, DECIMAL_SIZE, HEXADECIMAL_SIZE, Text};

// The most bytes of a job's nearest line: `nearest_size`.
const NEAREST_SIZE: usize = 8
    + DECIMAL_SIZE
    + 1
    + HEXADECIMAL_SIZE
    + COORDINATE_SIZE * LARGEST_DIMENSION
    + 1;

// Of a listed point's line: `listed_size`.
const LISTED_SIZE: usize = HEXADECIMAL_SIZE + COORDINATE_SIZE * LARGEST_DIMENSION + 1;

// Of the list's lines: `list_size`.
const LIST_SIZE: usize = 5 + DECIMAL_SIZE + 1 + DECIMAL_SIZE + 1 + LISTED_SIZE * LARGEST_PLACES;

// Of the ratio's line: `ratio_size`.
const RATIO_SIZE: usize = 12;

// Of a whole text: `output_size`, 134,499.
pub const OUTPUT_SIZE: usize = NEAREST_SIZE + LIST_SIZE + RATIO_SIZE;

// The output is too short for a job's text, which needs so many bytes.
#[derive(Clone, Copy)]
pub struct TooShort {
    pub needed: usize,
}

// Writes the line of a nearest search, whose point is zs.
fn nearest_line(text: &mut Text<OUTPUT_SIZE>, answer: Result<NearestPoint, Refusal>, zs: &[i64])
    requires { Room text.old nearest_size (length zs.now) largest_dimension }
    ensures { Appended text.old (J.nearest_line (nearest_answer answer (at_entry zs))) nearest_size text.new }
{
    match answer {
        Ok(f) => {
            text.put(b"nearest ");
            text.decimal(f.nodes);
            text.put(b" ");
            text.hexadecimal(f.distance);
            text.point(zs);
            text.put(b"\n");
        }
        Err(e) => text.refusal_line(b"nearest", Carried::from(e).number as u64),
    }
}

// Writes the line of a listed point.
fn listed_line(text: &mut Text<OUTPUT_SIZE>, distance: f64, zs: &[i64])
    requires { Room text.old listed_size (length zs.now) largest_dimension }
    ensures { Appended text.old (listed_line distance (at_entry zs)) listed_size text.new }
{
    text.hexadecimal(distance);
    text.point(zs);
    text.put(b"\n");
}

// Writes the lines of the first k points in the slices, n coordinates for each.
fn listed_lines(text: &mut Text<OUTPUT_SIZE>, n: usize, k: usize, distances: &[f64], points: &[i64])
    requires { LinesRoom text.old (listed_size * k) n k distances.now points.now }
    ensures { Appended text.old (J.listed_lines (rows n k (at_entry distances) (at_entry points))) (listed_size * k) text.new }
{
    for i in 0..k {
        let start = i * n;
        listed_line(text, distances[i], &points[start..start + n]);
    }
}

// Writes the lines of a list, whose points are in the slices.
fn list_lines(
    text: &mut Text<OUTPUT_SIZE>,
    answer: Result<ListFound, Refusal>,
    n: usize,
    distances: &[f64],
    points: &[i64],
)
    requires { LinesRoom text.old (list_size (points_of answer)) n (points_of answer) distances.now points.now }
    ensures { Appended text.old (list_text answer n (at_entry distances) (at_entry points)) (list_size (points_of answer)) text.new }
{
    match answer {
        Ok(f) => {
            text.put(b"list ");
            text.decimal(f.nodes);
            text.put(b" ");
            text.decimal(f.points as u64);
            text.put(b"\n");
            listed_lines(text, n, f.points, distances, points);
        }
        Err(e) => text.refusal_line(b"list", Carried::from(e).number as u64),
    }
}

// How many points a list has: none where there is no list.
fn points_of(answer: Result<ListFound, Refusal>) -> usize
    ensures { result ≡ points_of answer }
{
    answer.map_or(0, |f| f.points)
}

// Writes the ratio's line.
fn ratio_line(text: &mut Text<OUTPUT_SIZE>, ratio: Ratio)
    requires { length text.old + ratio_size ≤ output_size }
    ensures { Appended text.old (J.ratio_line (verdict_of ratio)) ratio_size text.new }
{
    match ratio {
        Ratio::Holds => text.put(b"ratio holds\n"),
        Ratio::Fails => text.put(b"ratio fails\n"),
        Ratio::Open => text.put(b"ratio open\n"),
        Ratio::None => text.put(b"ratio none\n"),
    }
}

// Writes the nearest line of a job.
fn nearest_part(text: &mut Text<OUTPUT_SIZE>, job: &Job)
    requires { JobRoom text.old nearest_size job.now }
    ensures { Appended text.old (J.nearest_line (J.job_nearest (job_read (at_entry job)))) nearest_size text.new }
{
    let n = job.n;
    let size = n * n;
    let mut zs = [0i64; LARGEST_DIMENSION];
    let answer = nearest(
        &job.weights[..n],
        &job.mu[..size],
        &job.target[..n],
        &mut zs[..n],
        job.radius,
        job.budget,
    );
    nearest_line(text, answer, &zs[..n]);
}

// Writes the list's lines of a job and the ratio's.
fn list_part(text: &mut Text<OUTPUT_SIZE>, job: &Job)
    requires { ListRoom text.old list_part_size job.now }
    ensures { Appended text.old (list_part (job_read (at_entry job))) list_part_size text.new }
{
    let n = job.n;
    let size = n * n;
    let places = job.settings.places as usize;
    let coordinates = n * places;
    // arrays of these sizes, as the customer asks
    let mut points = [0i64; 5888];
    let mut distances = [0.0; 256];
    let answer = list(
        &job.weights[..n],
        &job.mu[..size],
        &job.target[..n],
        &mut distances[..places],
        &mut points[..coordinates],
        job.radius,
        job.budget,
    );
    list_lines(
        text,
        answer,
        n,
        &distances[..places],
        &points[..coordinates],
    );
    let found = points_of(answer);
    let ratio = verdict(
        &distances[..found],
        job.radius,
        job.settings.p,
        job.settings.q,
    );
    ratio_line(text, ratio);
}

// Writes the text of a job that was read, or that of bytes that are none.
fn job_text(text: &mut Text<OUTPUT_SIZE>, layout: &Result<Job, LayoutFault>)
    requires { LayoutRoom text.old output_size layout.now }
    ensures { Appended text.old (J.job_text (layout_read (at_entry layout))) output_size text.new }
{
    let Ok(job) = layout else {
        return text.refusal_line(b"job", 1);
    };
    match settings_check(job.settings.p, job.settings.q, job.settings.places) {
        Ok(()) => {
            nearest_part(text, job);
            list_part(text, job);
        }
        Err(e) => text.refusal_line(b"job", Carried::from(e).number as u64),
    }
}

// Answers a job: reads its bytes and writes its text over the first places of `out`, and gives the number of its bytes. An
// output that is too short for the text stays as it is; one of OUTPUT_SIZE bytes is never too short. The call needs less
// than 0.5 MB of stack.
pub fn answer_job(input: &[u8], out: &mut [u8]) -> Result<usize, TooShort>
    ensures { JobAnswered (J.job_output (at_entry input)) out.old result out.new }
{
    let mut text: Text<OUTPUT_SIZE> = Text::new();
    job_text(&mut text, &read(input));
    let bytes = text.as_slice();
    let count = bytes.len();
    if out.len() < count {
        return Err(TooShort { needed: count });
    }
    out[..count].copy_from_slice(bytes);
    Ok(count)
}

// Answers an input by its first 4,096 bytes, or all if it has fewer: the first `count` of a buffer of that size. The text is
// that of the whole input.
pub fn answer_input(buffer: &[u8], count: usize, out: &mut [u8]) -> Result<usize, TooShort>
    requires { BufferRead buffer.now count }
    ensures { InputAnswered (take count (at_entry buffer)) out.old result out.new }
{
    answer_job(&buffer[..count], out)
}
