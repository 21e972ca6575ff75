// The running centres: each level's centre for the coordinates that the point under trial holds.
ghost use Rattle.std.specs.Prelude.{◌≡◌, ◌≤◌, length};
ghost use Rattle.definitions.specs.Lent.{at_entry, at_exit, table_at};
ghost use Rattle.definitions.specs.Table.{table};
ghost use Rattle.definitions.specs.Running.{add_row};
ghost use Rattle.running.specs.Centers.{InitializeReady, start_centers, UpdateReady, Updated};

use definitions::LARGEST_SEARCHED;
use lists::copy;
use rounding::to_double;

// Adds a row's entries, times the factor, to the first centres.
fn add_row(row: &[f64], factor: f64, centers: &mut [f64])
    requires { length row.now ≤ length centers.old }
    ensures { centers.new ≡ add_row factor (at_entry row) centers.old }
{
    for i in 0..row.len() {
        centers[i] += factor * row[i];
    }
}

// The centres of all levels where every coordinate is 0.
pub fn initialize_centers(mu: &[f64], target: &[f64], centers: &mut [f64])
    requires { InitializeReady mu.now target.now centers.old }
    ensures { centers.new ≡ start_centers (at_entry mu) (at_entry target) }
{
    let n = target.len();
    copy(target, centers);
    for j in 0..n {
        let start = j * n;
        let end = start + j;
        add_row(&mu[start..end], target[j], centers);
    }
}

// A level takes the integer z, whose double is `value`, and the centres below it change with its coordinate. Where that is
// z already they must stay: adding a zero can change the sign of a zero.
pub fn update_centers(
    mu: &[f64],
    weights: &[f64],
    point: &mut [i64; LARGEST_SEARCHED],
    centers: &mut [f64; LARGEST_SEARCHED],
    level: usize,
    z: i64,
    value: f64,
)
    requires { UpdateReady (table weights.now mu.now) point.old centers.old level z value }
    ensures { Updated (table_at weights mu) level z point.old point.new centers.old centers.new }
{
    let old = point[level];
    if old == z {
        return;
    }
    let start = level * weights.len();
    let end = start + level;
    add_row(&mu[start..end], to_double(old) - value, centers);
    point[level] = z;
}
