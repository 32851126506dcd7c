// Loops: a list of points that are known to be good, cut at each that it comes back to, in working memory that is lent.
#![tactic(auto)]

mod buffer;

pub use buffer::{LoopTotals, SplitMemory, split_loops};

// How many points are split at most, how many coordinates these have, and how many bins there are for them: one more, so that there is always one.
pub const MOST: usize = 2048;

pub const COORDINATES: usize = 2 * MOST;

pub const HEADS: usize = MOST + 1;

// The same for as many points as a small drawing has ends.
pub const SMALL: usize = 2 * segm::SMALL;

pub const SMALL_COORDINATES: usize = 2 * SMALL;

pub const SMALL_HEADS: usize = SMALL + 1;
