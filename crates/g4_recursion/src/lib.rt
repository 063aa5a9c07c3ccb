// How rules call each other before anything is read: the first rule that cannot be run for it is reported.
// Which rules derive the empty word, and which call which before anything is read, follows from Horn clauses.
#![tactic(auto)]

mod calls;
mod checking;
mod clauses;
mod direct;
mod empty_rules;
mod grammar;
mod law;
mod lead;
mod leads;
mod loops;
mod numbers;
mod own;

pub use calls::left_calls;
pub use checking::{RecursionFault, check_recursion};
pub use empty_rules::nullable;
pub use law::one_recursion;
pub use lead::{Lead, LeadRule};
pub use loops::{are_nullable, has_empty_loop};
pub use own::after_call;
