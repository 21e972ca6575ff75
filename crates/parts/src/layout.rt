// Where a part has what: docs/SPECIFICATION.md, "The block". Each column has a place for each of 23 levels. Columns, and not
// structs: C lends the block as three slices, and may keep it in a file.

// Doubles: behind table, target and radius.
pub const STANDING: usize = 576;

pub const PARTIALS: usize = 577;

pub const CENTERS: usize = 600;

pub const REMAINDERS: usize = 623;

// Integers: behind the point under trial.
pub const BEST: usize = 23;

pub const NEAREST: usize = 46;

pub const WAITING: usize = 69;

// Counts.
pub const DIMENSION: usize = 0;

pub const NODES: usize = 1;

pub const FOUND: usize = 2;

pub const OPEN: usize = 3;

pub const LEVELS: usize = 4;

pub const STEPS: usize = 27;

pub const UPWARD: usize = 50;

pub const DOWNWARD: usize = 73;
