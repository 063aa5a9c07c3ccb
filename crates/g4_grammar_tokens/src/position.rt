// Where a piece of a text begins.
ghost use Rattle.std.specs.Prelude.{◌≡◌, ◌≤◌, ◌<◌, ◌+◌, ◌*◌, ◌^◌, length};
ghost use Rattle.std.specs.Char.{len_utf8};
ghost use Rattle.g4_grammar_tokens.specs.Positions.{byte_count, position_past};
ghost use Rattle.g4_base.specs.declared.limits.TheConstants.{MOST_BYTES};

use g4_base::Place;

/// A place, and the index of its byte in the text.
#[derive(Clone, Copy)]
pub struct Position {
    pub place: Place,
    pub index: usize,
}

/// How many bytes the characters take.
fn byte_count(characters: &[char]) -> usize
    requires fits { length characters.now ≤ MOST_BYTES }
    ensures value { result ≡ byte_count characters.now }
    ensures within { result ≤ 4 * length characters.now }
{
    let mut count = 0;
    for c in characters {
        count += c.len_utf8();
    }
    count
}

impl Position {
    /// The position after these characters.
    pub fn past(self, characters: &[char]) -> Position
        requires fits { length characters.now ≤ MOST_BYTES }
        requires lines { self.place.line + length characters.now < 2 ^ 32 }
        requires columns { self.place.column + length characters.now < 2 ^ 32 }
        requires bytes { self.index + 4 * length characters.now < 2 ^ 32 }
        ensures value { result ≡ position_past self characters.now }
        ensures lines { result.place.line ≤ self.place.line + length characters.now }
        ensures columns { result.place.column ≤ self.place.column + length characters.now }
        ensures bytes { result.index ≤ self.index + 4 * length characters.now }
    {
        Position {
            place: self.place.behind(characters),
            index: self.index + byte_count(characters),
        }
    }
}
