// The tool: from a command line and named files to what is written and the status.
#![tactic(auto)]

mod cells;
mod files;
mod inputs;
mod law;
mod messages;
mod report;
mod rule_messages;
mod status;
mod stop;
mod tool;
mod write;

pub use law::{files_are_accepted_by_text, one_end};
pub use status::Status;
pub use tool::run;
