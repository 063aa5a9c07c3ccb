// One group of configurations.

/// The configurations of a state and an alternative with the stacks of a set, given by its number.
#[derive(Clone, Copy)]
pub struct Group {
    pub state: u32,
    pub alternative: u32,
    pub stacks: u32,
}
