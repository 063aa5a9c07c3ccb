// Laws: what looking ahead says of the alternatives of a decision that fit the rest of the word.
#![tactic(auto)]

mod law;

pub use law::{fitting_by_full_stacks, fitting_by_sll, leave_fits};
