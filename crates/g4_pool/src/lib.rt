//! The files of a run, parsed by many workers at once with one store of learned automata.
#![tactic(auto)]

mod file_work;
mod inputs_left;
mod lexer_home;
mod pool;
mod worker_state;

pub use inputs_left::{InputsHome, InputsLeft};
pub use lexer_home::{LexerHome, OwnMatcher};
pub use pool::parse_all;
pub use worker_state::WorkerState;
