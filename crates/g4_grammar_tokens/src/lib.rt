// The tokens of a grammar text, with their places.
#![tactic(auto)]

mod character;
mod comment;
mod enclosed;
mod law;
mod nesting;
mod piece;
mod position;
mod quote;
mod scanner;
mod spelling;
mod statement;
mod token;

pub use law::one_scan;
pub use scanner::{ScanFault, scan};
pub use spelling::literal_characters;
pub use token::{Kind, Token};
