// The list walk over a table and a target that passed their checks. The points found go to the slices in the order of
// finding, as far as there are places.
ghost use Rattle.std.specs.Prelude.{length};
ghost use Rattle.definitions.specs.Table.{largest_dimension, largest_searched};
ghost use Rattle.definitions.specs.Lent.{at_entry, at_exit, table_at};
ghost use Rattle.definitions.specs.Listing.{list_walk};
ghost use Rattle.definitions.specs.Running.{running_list, list_search};
ghost use Rattle.listing.specs.Ready.{WalkReady, ListWalked, InPlaceReady, InPlace};

use crate::{Exhausted, ListFound};
use definitions::{LARGEST_DIMENSION, LARGEST_SEARCHED};
use running::search;
use search::{RecursiveSearch, run};
use selection::sort_rows;

// Up to dimension 23.
fn list_walk(
    weights: &[f64],
    mu: &[f64],
    target: &[f64],
    distances: &mut [f64],
    points: &mut [i64],
    radius: f64,
    budget: u64,
) -> Result<ListFound, Exhausted>
    requires { WalkReady largest_dimension weights.now mu.now target.now distances.old points.old budget }
    ensures { ListWalked (length (at_entry weights)) (length distances.old) (list_walk (table_at weights mu) (at_entry target) radius budget) result distances.new points.new }
{
    let mut rest = [0.0; LARGEST_DIMENSION];
    let mut found = 0;
    let mut exhausted = false;
    let end = run(
        mu,
        weights,
        target,
        &mut rest,
        distances,
        points,
        &mut found,
        &mut exhausted,
        true,
        budget,
        weights.len(),
        0.0,
        RecursiveSearch::new(radius),
    );
    if exhausted {
        return Err(Exhausted {
            nodes: end.nodes,
            radius: end.radius,
        });
    }
    Ok(ListFound {
        nodes: end.nodes,
        points: found as usize,
    })
}

// With running centres, for every n that is searched.
fn running_walk(
    weights: &[f64],
    mu: &[f64],
    target: &[f64],
    distances: &mut [f64],
    points: &mut [i64],
    radius: f64,
    budget: u64,
) -> Result<ListFound, Exhausted>
    requires { WalkReady largest_searched weights.now mu.now target.now distances.old points.old budget }
    ensures { ListWalked (length (at_entry weights)) (length distances.old) (running_list (table_at weights mu) (at_entry target) radius budget) result distances.new points.new }
{
    let mut best = [0i64; LARGEST_SEARCHED];
    let mut found = 0;
    let mut exhausted = false;
    let end = search(
        mu,
        weights,
        target,
        &mut best,
        distances,
        points,
        &mut found,
        &mut exhausted,
        true,
        budget,
        radius,
    );
    if exhausted {
        return Err(Exhausted {
            nodes: end.nodes,
            radius: end.radius,
        });
    }
    Ok(ListFound {
        nodes: end.nodes,
        points: found as usize,
    })
}

// The walk by n: with running centres from 24 on.
pub fn search_walk(
    weights: &[f64],
    mu: &[f64],
    target: &[f64],
    distances: &mut [f64],
    points: &mut [i64],
    radius: f64,
    budget: u64,
) -> Result<ListFound, Exhausted>
    requires { WalkReady largest_searched weights.now mu.now target.now distances.old points.old budget }
    ensures { ListWalked (length (at_entry weights)) (length distances.old) (list_search (table_at weights mu) (at_entry target) radius budget) result distances.new points.new }
{
    if weights.len() <= LARGEST_DIMENSION {
        return list_walk(weights, mu, target, distances, points, radius, budget);
    }
    running_walk(weights, mu, target, distances, points, radius, budget)
}

// A walk that is known to find as many points as there are places: they are sorted where they lie.
pub fn walk_in_place(
    weights: &[f64],
    mu: &[f64],
    target: &[f64],
    distances: &mut [f64],
    points: &mut [i64],
    radius: f64,
    budget: u64,
)
    requires { InPlaceReady weights.now mu.now target.now distances.old points.old radius budget }
    ensures { InPlace (list_search (table_at weights mu) (at_entry target) radius budget) distances.new points.new }
{
    // the walk that counted the points came to its end, and this one is the same
    let _ = search_walk(weights, mu, target, distances, points, radius, budget);
    sort_rows(distances, points, weights.len());
}
