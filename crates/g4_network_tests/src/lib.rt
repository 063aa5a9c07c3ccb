// Networks: the classes of their symbols and their checks; large sets of stacks and of configurations; and which trees rules have.
#![tactic(auto)]

#[cfg(test)]
mod classes;
#[cfg(test)]
mod codes;
#[cfg(test)]
mod net_checks;
#[cfg(test)]
mod rows;
#[cfg(test)]
mod snapshots;
#[cfg(test)]
mod stacks;
#[cfg(test)]
mod tree_checks;
#[cfg(test)]
mod trees;
