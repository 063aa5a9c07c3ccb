// How far the items of a pattern have been found in a tree.

/// A node that has just begun, in the pattern and in the tree: its rule, and its place in the tree.
#[derive(Clone, Copy)]
pub(crate) struct Opened {
    pub(crate) rule: u32,
    pub(crate) node: u32,
}

/// The place of the next item of the tree, and the node that has just begun there, if one has.
#[derive(Clone, Copy)]
pub(crate) struct Stand {
    pub(crate) at: usize,
    pub(crate) opened: Option<Opened>,
}

/// What comes of an item of the pattern: where its next item is looked for, and what this one is bound to, if it is a tag.
#[derive(Clone, Copy)]
pub(crate) struct Step {
    pub(crate) next: Stand,
    pub(crate) bound: Option<u32>,
}
