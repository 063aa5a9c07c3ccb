// What matches go by.
ghost use Rattle.std.specs.Prelude.{◌≡◌, [], slice_index_or};

use g4_base::Sequence;
use g4_ordered::{LexerNetwork, Start};

/// A network, and for each mode where a match may begin.
#[derive(Clone, Copy)]
pub(crate) struct Modes<'a> {
    pub net: &'a LexerNetwork,
    pub starts: &'a [Sequence<Start>],
}

impl<'a> Modes<'a> {
    /// Where a match may begin in a mode; nowhere, if there is no such mode.
    pub fn starts_in(&self, mode: u32) -> &[Start]
        ensures { result.now ≡ slice_index_or self.now.starts.now mode [] }
    {
        match self.starts.get(mode as usize) {
            Some(starts) => starts.as_slice(),
            None => &[],
        }
    }
}
