// What reading the rules of a grammar text needs: a cursor over its tokens, its options and prequels, and what is passed over.
#![tactic(auto)]

mod cursor;
mod options;
mod passing;
mod prequel;
mod spelling;

pub use cursor::{Cursor, Halt, Taken};
pub use options::optional_element_options;
pub use passing::{
    pass_block_prequel, pass_handlers, pass_modifier, pass_optional_options, pass_rule_prequels,
};
pub use prequel::prequels;
pub use spelling::{characters, characters_of, literal, token_at};
