//! What becomes of a file by a grammar: its tree or its first fault, and the lines that are written of it.
#![tactic(auto)]

mod fault_lines;
mod file_report;
mod grammar;
mod input;
mod line;
mod outcome;
mod outcome_lines;
mod predicates;

pub use fault_lines::{large, not_utf8, push, start_line, to_err};
pub use file_report::{FileReport, report_file};
pub use grammar::Grammar;
pub use input::Input;
pub use line::Line;
pub use outcome::Outcome;
