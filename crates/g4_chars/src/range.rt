// Ranges of characters.

/// The characters from the first to the last, both of them in it.
#[derive(Clone, Copy, Debug, PartialEq, Eq)]
pub struct Range {
    pub first: char,
    pub last: char,
}
