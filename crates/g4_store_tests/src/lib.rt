// Stores over an automaton of numbers: two threads that learn and walk at once, and many rows; and columns of symbols.
#![tactic(auto)]

#[cfg(test)]
mod columns;
mod numbers;
#[cfg(test)]
mod overlap;
