// The place of the first of each name in a list, found in the time of a few comparisons.
#![tactic(auto)]

mod places;

pub use places::{Places, places_of};
