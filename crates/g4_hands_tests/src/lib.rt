// Hands that take files, and workers that work on them: one after the other, and many at once.
#![tactic(auto)]

#[cfg(test)]
mod taking;
#[cfg(test)]
mod working;
