// The paths of a clip run by the line bits of links: walked, written to lent lists, and what they come to.
#![tactic(auto)]

mod links;
mod path;
mod sums;

pub use links::clip_links;
pub use sums::lines;

// How many paths, points and steps a run found, and their travel.
#[derive(Clone, Copy)]
pub struct Totals {
    pub paths: usize,
    pub points: usize,
    pub steps: usize,
    pub travel: u64,
}
