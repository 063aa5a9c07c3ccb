// Schedules of workers over an automaton of numbers.
#![tactic(auto)]

mod numbers;
#[cfg(test)]
mod schedules;
