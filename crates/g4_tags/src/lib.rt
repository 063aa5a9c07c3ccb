// The text of a tree pattern as plain texts and tags.
#![tactic(auto)]

mod fault;
mod joining;
mod law;
mod pieces;
mod sign;
mod tag;
#[cfg(test)]
mod tests;

pub use fault::TagFault;
pub use law::{one_fault, one_plain_text, one_reading, pieces_or_fault};
pub use pieces::{Piece, Pieced, PlacedTag, PlainText, read_pieces};
pub use tag::Tag;
