// docs/SPECIFICATION.md as definitions, in specs/, and its limits as constants for the code. A contract that has to do
// with one of them cites the definition, so a constant that differs from it is refused where it is used.
#![tactic(auto)]

// The largest n: `largest_dimension`.
pub const LARGEST_DIMENSION: usize = 23;

// The largest n of `nearest`, `list` and `epochs`: `largest_searched`.
pub const LARGEST_SEARCHED: usize = 64;

// The most targets of one call: `largest_count`.
pub const LARGEST_COUNT: usize = 64;

// The entries mu of the largest table.
pub const LARGEST_SQUARE: usize = LARGEST_DIMENSION * LARGEST_DIMENSION;

// The most places that a list is lent, and the coordinates of its points at the largest n: `largest_list`.
pub const LARGEST_LIST: usize = 4096;

pub const LARGEST_LIST_POINTS: usize = LARGEST_LIST * LARGEST_DIMENSION;

// 2^60: `largest_budget`.
pub const LARGEST_BUDGET: u64 = 1152921504606846976;

// The largest of the ratio's factors: `largest_factor`.
pub const LARGEST_FACTOR: u64 = 1000;

// The most places of a job's list: `largest_places`.
pub const LARGEST_PLACES: usize = 256;

// The settings of a job that gives none: `defaults`.
pub const DEFAULT_P: u64 = 3;

pub const DEFAULT_Q: u64 = 1;

pub const DEFAULT_PLACES: u64 = 256;
