// What a tag of a pattern is bound to.
use g4_base::{Octets, Sequence};

/// A tag's name, which is its label where it has one, and the tree that it is bound to: a node or a token, by the place of its first
/// item.
#[derive(Drop)]
pub struct Binding {
    pub name: Octets,
    pub node: u32,
}

/// The bindings of a pattern's tags, in the order of the pattern.
pub type Bindings = Sequence<Binding>;
