// From the words of a command line to the command that they are: `clap` reads them, and what it accepts is a command of
// named fields.
#![tactic(auto)]

mod app;
mod command;
mod law;
mod reading;

pub use command::{
    Atn, Check, Command, DEFAULT_JOBS, DEFAULT_ROWS, MOST_FILES, MOST_JOBS, MOST_ROWS, Output,
    Parse,
};
pub use law::{one_command, some_command};
pub use reading::{WordsFault, read_words};
