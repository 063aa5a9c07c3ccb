// Looking ahead in a parser's network: whether a rule can end at once from a state, and laws of what every decision finds.
// No decision looks past END, a decision has one verdict, and full stacks choose an alternative that covers the others or can be
// decided nearby.
#![tactic(auto)]

mod covering;
mod law;
mod ways;

pub use covering::{covering_chooses, full_stacks_choose, near_chooses};
pub use law::{no_decision_goes_past_end, one_verdict};
pub use ways::ends_at_once;
