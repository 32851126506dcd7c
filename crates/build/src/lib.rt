// From a drawing to its fills and to the line bits of a clip run.
#![tactic(auto)]

mod filter;
mod run;

pub use filter::{Filter, filter_of, keeps_sides, masked_bits};
pub use run::fills;
