// What a list writes: the points found, in the list's order.
ghost use Rattle.std.specs.Prelude.{◌≡◌, List, map, ℕ, length, get_or, Float};
ghost use Rattle.std.specs.Float.{nan};
ghost use Rattle.definitions.specs.Lent.{at_entry, at_exit};
ghost use Rattle.definitions.specs.Listing.{sorted};
ghost use Rattle.definitions.specs.Calls.{written, coordinates};
ghost use Rattle.definitions.specs.Rows.{row, rows};
ghost use Rattle.listing.specs.Ready.{DistancesReady, PointsReady, WriteReady, FirstReady, ListWritten};

use sorting::sort_places;

// Writes the distances at the places of order, in that order, over the first ones.
fn write_distances(found: &[f64], order: &[usize], distances: &mut [f64])
    requires { DistancesReady found.now order.now distances.old }
    ensures { distances.new ≡ written (map (λ (i : ℕ). get_or (at_entry found) i nan) (at_entry order)) distances.old }
{
    for (i, &place) in order.iter().enumerate() {
        distances[i] = found[place];
    }
}

// Writes the coordinates of the points at the places of order, in that order, over the first ones.
fn write_points(found: &[i64], order: &[usize], n: usize, points: &mut [i64])
    requires { PointsReady found.now order.now n points.old }
    ensures { (ds : List Float) → points.new ≡ written (coordinates (map (row n ds (at_entry found)) (at_entry order))) points.old }
{
    for (i, &place) in order.iter().enumerate() {
        let from = place * n;
        let from_end = from + n;
        let to = i * n;
        let to_end = to + n;
        points[to..to_end].copy_from_slice(&found[from..from_end]);
    }
}

// Sorts what was found by the list's order and writes it over the first places. The limit is a bound of the distances, for
// speed alone. Order and spare are room for the sort; what is left in them says nothing.
fn write_list(
    measured: &[f64],
    vectors: &[i64],
    n: usize,
    limit: f64,
    order: &mut [usize],
    spare: &mut [usize],
    distances: &mut [f64],
    points: &mut [i64],
)
    requires { WriteReady n measured.now vectors.now order.old spare.old distances.old points.old }
    ensures { ListWritten (sorted (rows n (length (at_entry measured)) (at_entry measured) (at_entry vectors))) distances.old distances.new points.old points.new }
{
    sort_places(measured, vectors, n, limit, order, spare);
    write_distances(measured, order, distances);
    write_points(vectors, order, n, points);
}

// `write_list` of the first k points of those found.
pub fn write_first(
    measured: &[f64],
    vectors: &[i64],
    n: usize,
    k: usize,
    limit: f64,
    order: &mut [usize],
    spare: &mut [usize],
    distances: &mut [f64],
    points: &mut [i64],
)
    requires { FirstReady n k measured.now vectors.now order.old spare.old distances.old points.old }
    ensures { ListWritten (sorted (rows n k (at_entry measured) (at_entry vectors))) distances.old distances.new points.old points.new }
{
    let size = k * n;
    write_list(
        &measured[..k],
        &vectors[..size],
        n,
        limit,
        &mut order[..k],
        &mut spare[..k],
        distances,
        points,
    );
}
