// Sets of Unicode characters, and the reading of what is between the brackets of a set.
#![tactic(auto)]

mod building;
mod char_set;
mod escape;
mod item;
mod law;
mod part;
mod property;
mod range;
mod set_text;

pub use char_set::CharSet;
pub use escape::{Context, Escape, Meaning, read_escape};
pub use law::{one_form, one_reading};
pub use range::Range;
pub use set_text::{SetFault, read_set};
