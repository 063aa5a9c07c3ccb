// Classes of symbols that no edge of a parser's network distinguishes. A class is named by its least symbol.
#![tactic(auto)]

mod classes;
mod columns;
mod index;
mod law;
mod least;
mod partition;

pub use classes::{Classes, classes_of};
pub use columns::{Columns, columns_of};
pub use law::one_classes;
