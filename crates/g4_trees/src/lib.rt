// Trees of files as lists of items: how they grow, their text, their events, their nodes; and the lines of tokens.
// A node that becomes the first child of a new one is not moved.
#![tactic(auto)]

mod builder;
mod events;
mod law;
mod line;
mod lines;
mod nodes;
mod text;
mod texts;
mod tree;
mod unwinding;

pub use builder::TreeBuilder;
pub use events::{Event, push_event};
pub use law::one_tree;
pub use lines::push_token_lines;
pub use text::{push_shown_bytes, push_token, push_token_text};
pub use tree::{Item, Tree};
