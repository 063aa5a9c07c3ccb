//! Workers that claim files, read what is learned and learn, as a machine of single steps, without threads: what each step changes, and
//! what holds after every schedule of steps.
#![tactic(auto)]

mod changes;
mod event;
mod law;
mod machine;
mod sights;

pub use event::{Change, Effect, Entry, Event, Given, Phase, Place, Progress, Slot};
pub use law::schedules;
pub use machine::{Core, StepFault};
