// Patterns: where they match in trees that are worked out by hand, and in large ones.
#![tactic(auto)]

#[cfg(test)]
mod large;
#[cfg(test)]
mod notation;
#[cfg(test)]
mod rows;
#[cfg(test)]
mod trees;
