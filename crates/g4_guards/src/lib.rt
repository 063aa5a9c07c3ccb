// Which alternatives of a decision may be taken under a condition, what prediction chooses among them, and laws of that. A condition is the
// level of the open rule, or the truth values of the tests with which the alternatives begin.
#![tactic(auto)]

mod allowed;
mod law;
mod tests;

pub use allowed::allowed_at;
pub use law::{
    Alternatives, choice_over_the_same, chooses_what_fits, chooses_what_is_allowed, one_choice,
    verdict_of_the_allowed,
};
pub use tests::{MOST_TESTED, Tests, count_tests, is_test_at, tests_of};
