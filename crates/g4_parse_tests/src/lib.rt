// Tests of the parse call: files parsed one after another by one pass of a store, and what is learned then.
#![tactic(auto)]

#[cfg(test)]
mod files;
