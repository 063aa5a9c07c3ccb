// Runs over files in memory, also of many files by many workers, and the paths of prediction on the networks of grammars.
#![tactic(auto)]

#[cfg(test)]
mod commands;
#[cfg(test)]
mod holding;
#[cfg(test)]
mod many;
#[cfg(test)]
mod paths;
