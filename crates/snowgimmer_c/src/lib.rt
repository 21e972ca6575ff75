// The library's calls as symbols for C, in libsnowgimmer.a: each is the call of the same name in `snowgimmer`, which says what it
// answers.
#![tactic(auto)]

ghost use Rattle.std.specs.Prelude.{◌≡◌};
ghost use Rattle.rounding.specs.Integers.{round_away};
ghost use Rattle.definitions.specs.Lent.{at_entry, at_exit, table_at};
ghost use Rattle.definitions.specs.Calls as C;
ghost use Rattle.definitions.specs.Entries.{entry_of};
ghost use Rattle.parts.specs.Parts.{block};
ghost use Rattle.snowgimmer.specs.Reports.{told_at};
ghost use Rattle.snowgimmer.specs.Told.{DistanceTold, NearestTold, SeededTold, MlTold, PreparedTold, ListTold, RatioTold, RoundTold, PlaneTold, ChangeTold, EntryTold, NamedTold, PickUpTold, TurnTold};

#[unsafe(no_mangle)]
pub extern "C" fn snowgimmer_round_away(x: f64) -> i64
    ensures { result ≡ round_away x }
{
    snowgimmer::snowgimmer_round_away(x)
}

#[unsafe(no_mangle)]
pub extern "C" fn snowgimmer_nearest(
    weights: &[f64],
    mu: &[f64],
    target: &[f64],
    out: &mut [i64],
    radius: f64,
    budget: u64,
    first: &mut u64,
    second: &mut u64,
    real: &mut f64,
) -> u32
    ensures { NearestTold (table_at weights mu) (at_entry target) out.old radius budget (told_at result first second real) out.new }
{
    snowgimmer::snowgimmer_nearest(
        weights, mu, target, out, radius, budget, first, second, real,
    )
}

#[unsafe(no_mangle)]
pub extern "C" fn snowgimmer_nearest_seeded(
    weights: &[f64],
    mu: &[f64],
    target: &[f64],
    out: &mut [i64],
    candidate: &[i64],
    radius: f64,
    budget: u64,
    first: &mut u64,
    second: &mut u64,
    real: &mut f64,
) -> u32
    ensures { SeededTold (table_at weights mu) (at_entry target) out.old (at_entry candidate) radius budget (told_at result first second real) out.new }
{
    snowgimmer::snowgimmer_nearest_seeded(
        weights, mu, target, out, candidate, radius, budget, first, second, real,
    )
}

#[unsafe(no_mangle)]
pub extern "C" fn snowgimmer_nearest_ml(
    weights: &[f64],
    mu: &[f64],
    target: &[f64],
    out: &mut [i64],
    budget: u64,
    first: &mut u64,
    second: &mut u64,
    real: &mut f64,
) -> u32
    ensures { MlTold (table_at weights mu) (at_entry target) out.old budget (told_at result first second real) out.new }
{
    snowgimmer::snowgimmer_nearest_ml(weights, mu, target, out, budget, first, second, real)
}

#[unsafe(no_mangle)]
pub extern "C" fn snowgimmer_prepared_nearest_ml(
    weights: &[f64],
    mu: &[f64],
    transform: &[i64],
    inverse: &[i64],
    target: &[f64],
    out: &mut [i64],
    budget: u64,
    first: &mut u64,
    second: &mut u64,
    real: &mut f64,
) -> u32
    ensures { PreparedTold (table_at weights mu) (at_entry transform) (at_entry inverse) (at_entry target) out.old budget (told_at result first second real) out.new }
{
    snowgimmer::snowgimmer_prepared_nearest_ml(
        weights, mu, transform, inverse, target, out, budget, first, second, real,
    )
}

#[unsafe(no_mangle)]
pub extern "C" fn snowgimmer_nearest_named(
    reals: &mut [f64],
    integers: &mut [i64],
    counts: &mut [u64],
    name: u64,
    weights: &[f64],
    mu: &[f64],
    target: &[f64],
    out: &mut [i64],
    radius: f64,
    budget: u64,
    first: &mut u64,
    second: &mut u64,
    real: &mut f64,
) -> u32
    ensures { NamedTold (block reals.old integers.old counts.old) name (table_at weights mu) (at_entry target) out.old radius budget (told_at result first second real) out.new (block reals.new integers.new counts.new) }
{
    snowgimmer::snowgimmer_nearest_named(
        reals, integers, counts, name, weights, mu, target, out, radius, budget, first, second,
        real,
    )
}

#[unsafe(no_mangle)]
pub extern "C" fn snowgimmer_pick_up(
    reals: &mut [f64],
    integers: &mut [i64],
    counts: &mut [u64],
    name: u64,
    out: &mut [i64],
    budget: u64,
    first: &mut u64,
    second: &mut u64,
    real: &mut f64,
) -> u32
    ensures { PickUpTold (block reals.old integers.old counts.old) name out.old budget (told_at result first second real) out.new (block reals.new integers.new counts.new) }
{
    snowgimmer::snowgimmer_pick_up(
        reals, integers, counts, name, out, budget, first, second, real,
    )
}

#[unsafe(no_mangle)]
pub extern "C" fn snowgimmer_turn(
    reals: &mut [f64],
    integers: &mut [i64],
    counts: &mut [u64],
    last: &mut u64,
    out: &mut [i64],
    slice: u64,
    name: &mut u64,
    n: &mut u64,
    first: &mut u64,
    second: &mut u64,
    real: &mut f64,
) -> u32
    ensures { TurnTold (block reals.old integers.old counts.old) last.old out.old slice name.new n.new (told_at result first second real) out.new (block reals.new integers.new counts.new) last.new }
{
    snowgimmer::snowgimmer_turn(
        reals, integers, counts, last, out, slice, name, n, first, second, real,
    )
}

#[unsafe(no_mangle)]
pub extern "C" fn snowgimmer_list(
    weights: &[f64],
    mu: &[f64],
    target: &[f64],
    distances: &mut [f64],
    points: &mut [i64],
    radius: f64,
    budget: u64,
    first: &mut u64,
    second: &mut u64,
    real: &mut f64,
) -> u32
    ensures { ListTold (table_at weights mu) (at_entry target) distances.old points.old radius budget (told_at result first second real) distances.new points.new }
{
    snowgimmer::snowgimmer_list(
        weights, mu, target, distances, points, radius, budget, first, second, real,
    )
}

#[unsafe(no_mangle)]
pub extern "C" fn snowgimmer_ratio(
    distances: &[f64],
    radius: f64,
    p: u64,
    q: u64,
    first: &mut u64,
    second: &mut u64,
    real: &mut f64,
) -> u32
    ensures { RatioTold (at_entry distances) radius p q (told_at result first second real) }
{
    snowgimmer::snowgimmer_ratio(distances, radius, p, q, first, second, real)
}

#[unsafe(no_mangle)]
pub extern "C" fn snowgimmer_round(
    coefficients: &[f64],
    out: &mut [i64],
    first: &mut u64,
    second: &mut u64,
    real: &mut f64,
) -> u32
    ensures { RoundTold (at_entry coefficients) out.old (told_at result first second real) out.new }
{
    snowgimmer::snowgimmer_round(coefficients, out, first, second, real)
}

#[unsafe(no_mangle)]
pub extern "C" fn snowgimmer_nearest_plane(
    weights: &[f64],
    mu: &[f64],
    coefficients: &mut [f64],
    out: &mut [i64],
    first: &mut u64,
    second: &mut u64,
    real: &mut f64,
) -> u32
    ensures { PlaneTold (table_at weights mu) coefficients.old out.old (told_at result first second real) coefficients.new out.new }
{
    snowgimmer::snowgimmer_nearest_plane(weights, mu, coefficients, out, first, second, real)
}

#[unsafe(no_mangle)]
pub extern "C" fn snowgimmer_distance(
    weights: &[f64],
    mu: &[f64],
    target: &[f64],
    point: &[i64],
    first: &mut u64,
    second: &mut u64,
    real: &mut f64,
) -> u32
    ensures { DistanceTold (table_at weights mu) (at_entry target) (at_entry point) (told_at result first second real) }
{
    snowgimmer::snowgimmer_distance(weights, mu, target, point, first, second, real)
}

#[unsafe(no_mangle)]
pub extern "C" fn snowgimmer_change_reference(
    point: &mut [i64],
    r: usize,
    first: &mut u64,
    second: &mut u64,
    real: &mut f64,
) -> u32
    ensures { ChangeTold point.old r (told_at result first second real) point.new }
{
    snowgimmer::snowgimmer_change_reference(point, r, first, second, real)
}

#[unsafe(no_mangle)]
pub extern "C" fn snowgimmer_check_entry(
    number: u32,
    at: u64,
    index: usize,
    entry: f64,
    first: &mut u64,
    second: &mut u64,
    real: &mut f64,
) -> u32
    ensures { EntryTold number at (entry_of index entry) (told_at result first second real) }
{
    snowgimmer::snowgimmer_check_entry(number, at, index, entry, first, second, real)
}
