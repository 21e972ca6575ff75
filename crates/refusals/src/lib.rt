// The numbered refusals of the library's calls, with what each carries, and the one function that takes them apart. A check gives
// `Ok(())` or `Err` of one of them. Number 1 belongs to the job program. specs/Numbers.antt gives each case's number and values.
#![tactic(auto)]

ghost use Rattle.std.specs.Prelude.{◌≡◌};
ghost use Rattle.refusals.specs.Numbers.{numbered, carried_by, carrying};

#[derive(Clone, Copy)]
pub enum Refusal {
    // 2: more weights than the largest dimension, or mu of another length than n·n (the weights' length).
    TableSize(usize),
    // 3: an entry that is read is not finite (its index in the n·n slice).
    MuNonFinite(usize),
    // 4: an entry that is read is above 2^52 in magnitude (its index in the n·n slice).
    MuRange(usize),
    // 5: a weight is not finite or not above 0 (its index).
    WeightRange(usize),
    // 6: a slice is not as long as expected (expected, found).
    LengthMismatch(usize, usize),
    // 7: a target is not finite or above 2^52 in magnitude; a coefficient is not finite (its index).
    NonFinite(usize),
    // 8: the radius is negative or not finite (radius).
    InvalidRadius(f64),
    // 9: the budget is above 2^60 (budget).
    BudgetRange(u64),
    // 10: the candidate is not n long (expected, found).
    CandidateLength(usize, usize),
    // 11: the candidate's distance overflows (total).
    CandidateDistance(f64),
    // 12: the candidate's distance is above the radius (radius).
    CandidateOutside(f64),
    // 13: the widened radius is not finite (it).
    WidenedRadius(f64),
    // 14: more than 4,096 places for distances, or the wrong number of coordinates for them (the distances' length).
    ListSize(usize),
    // 15: the budget ran out (nodes, and the radius that stood).
    BudgetExhausted(u64, f64),
    // 16: no point inside the radius (radius).
    OutsideRadius(f64),
    // 17 is free, and no refusal is to be given it.
    // 18: more points than places (points).
    ListFull(usize),
    // 19: the index of the new reference satellite is not below the point's length.
    ReferenceIndex,
    // 20: a coordinate against the new reference satellite is no i64 (its index).
    ChangedRange(usize),
    // 21: a setting is out of range (its index: 0 of p, 1 of q, 2 of the places).
    SettingRange(usize),
    // 22: a matrix that is not n·n long (0), or an element above 2^52 in magnitude (its index; the inverse's follow the transform's).
    MatrixRange(usize),
    // 23: the two matrices are not inverse to each other.
    NotInverse,
    // 24: a coordinate of the mapped point is no i64 (its column).
    MappedRange(usize),
    // 25: the name is not from 1 to 8.
    NameRange,
    // 26: the name holds no search.
    NameEmpty,
    // 27: the sum of a kept search's budgets is above 2^60 (the sum, or 2^64-1 if it is larger).
    SumRange(u64),
    // 28: the slice is not from 1 to 2^20.
    SliceRange,
    // 29: no name holds a search.
    NoneHeld,
    // 30: more than 64 targets, or targets or output without n places for each of them.
    EpochsSize,
}

// A refusal as numbers: which it is, its whole numbers in their order and how many they are, and its double, if it has one.
// A whole number that it does not carry is 0.
#[derive(Clone, Copy)]
pub struct Carried {
    pub number: u32,
    pub wholes: u32,
    pub first: u64,
    pub second: u64,
    pub real: Option<f64>,
}

// Nothing beside the number.
fn nothing(number: u32) -> Carried
    ensures { result ≡ carrying number 0 0 0 None }
{
    Carried {
        number,
        wholes: 0,
        first: 0,
        second: 0,
        real: None,
    }
}

// One whole number.
fn whole(number: u32, first: u64) -> Carried
    ensures { result ≡ carrying number 1 first 0 None }
{
    Carried {
        number,
        wholes: 1,
        first,
        second: 0,
        real: None,
    }
}

// Two whole numbers.
fn pair(number: u32, first: u64, second: u64) -> Carried
    ensures { result ≡ carrying number 2 first second None }
{
    Carried {
        number,
        wholes: 2,
        first,
        second,
        real: None,
    }
}

// A double.
fn double(number: u32, real: f64) -> Carried
    ensures { result ≡ carrying number 0 0 0 (Some real) }
{
    Carried {
        number,
        wholes: 0,
        first: 0,
        second: 0,
        real: Some(real),
    }
}

// A whole number and a double.
fn whole_and_double(number: u32, first: u64, real: f64) -> Carried
    ensures { result ≡ carrying number 1 first 0 (Some real) }
{
    Carried {
        number,
        wholes: 1,
        first,
        second: 0,
        real: Some(real),
    }
}

// A refusal's number and what it carries.
impl From<Refusal> for Carried {
    ghost from_gives = { λ e carried. carried ≡ carried_by (numbered e) };

    fn from(e: Refusal) -> Carried
        ensures { result ≡ carried_by (numbered e) }
    {
        match e {
            Refusal::TableSize(n) => whole(2, n as u64),
            Refusal::MuNonFinite(i) => whole(3, i as u64),
            Refusal::MuRange(i) => whole(4, i as u64),
            Refusal::WeightRange(i) => whole(5, i as u64),
            Refusal::LengthMismatch(n, m) => pair(6, n as u64, m as u64),
            Refusal::NonFinite(i) => whole(7, i as u64),
            Refusal::InvalidRadius(x) => double(8, x),
            Refusal::BudgetRange(b) => whole(9, b),
            Refusal::CandidateLength(n, m) => pair(10, n as u64, m as u64),
            Refusal::CandidateDistance(x) => double(11, x),
            Refusal::CandidateOutside(x) => double(12, x),
            Refusal::WidenedRadius(x) => double(13, x),
            Refusal::ListSize(n) => whole(14, n as u64),
            Refusal::BudgetExhausted(m, x) => whole_and_double(15, m, x),
            Refusal::OutsideRadius(x) => double(16, x),
            Refusal::ListFull(k) => whole(18, k as u64),
            Refusal::ReferenceIndex => nothing(19),
            Refusal::ChangedRange(i) => whole(20, i as u64),
            Refusal::SettingRange(i) => whole(21, i as u64),
            Refusal::MatrixRange(i) => whole(22, i as u64),
            Refusal::NotInverse => nothing(23),
            Refusal::MappedRange(i) => whole(24, i as u64),
            Refusal::NameRange => nothing(25),
            Refusal::NameEmpty => nothing(26),
            Refusal::SumRange(s) => whole(27, s),
            Refusal::SliceRange => nothing(28),
            Refusal::NoneHeld => nothing(29),
            Refusal::EpochsSize => nothing(30),
        }
    }
}
