// The start set of a decision, the next set on a symbol, and what is left of the alternatives after it.
#![tactic(auto)]

mod ahead;
mod closure;
mod exploring;
mod filling;
mod framed;
mod left;
mod lookahead;
mod marks;
mod returns;

pub use framed::{framed_advance, framed_start, lower};
pub use left::{Left, left_after};
pub use lookahead::{advance, start};
