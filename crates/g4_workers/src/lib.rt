//! Workers that do a work on files, many at once, each with a state of its own: an outcome for each file, in its place.
#![tactic(auto)]

mod finish;
mod place;
mod run;
mod work;
mod worker;

pub use run::{Finished, run_all};
pub use work::Work;
