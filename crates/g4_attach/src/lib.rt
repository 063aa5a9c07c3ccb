// A parser grammar with the lexer grammar that gives its tokens, as one grammar.
#![tactic(auto)]

mod attaching;
mod fault;
mod law;

pub use attaching::{Attached, attach};
pub use fault::AttachFault;
pub use law::{lexer_types_kept, one_attached};
