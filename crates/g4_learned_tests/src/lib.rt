// Tests of what a decision asks of a network by look-ups, and of what a parser's store learns.
#![tactic(auto)]

#[cfg(test)]
mod asking;
#[cfg(test)]
mod overlap;
#[cfg(test)]
mod parsing;
#[cfg(test)]
mod tables;
