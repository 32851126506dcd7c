// The memory of first sightings: a map from points to numbers, by hash.
#![tactic(auto)]

mod store;

pub use store::{BinMemory, BinStore, Seen, clear, sight_point};
