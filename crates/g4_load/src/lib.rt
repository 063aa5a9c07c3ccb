// Grammars by the names of their files: read with all that they import and with their vocabularies, numbered and checked; with the
// networks of their rules, to parse with or to list.
#![tactic(auto)]

mod derivations;
mod fault;
mod interpreter;
mod law;
mod listing;
mod loading;
mod locating;
mod stop;
mod whole;

pub use derivations::lists_are_derived_by_name;
pub use fault::GrammarFault;
pub use interpreter::{Interpreter, build_interpreter};
pub use law::{
    commands_are_carried_out, one_built, one_listed, one_loaded, predicates_have_their_trees,
};
pub use listing::list_named;
pub use loading::{Loaded, load};
pub use stop::{Halt, Stop};
