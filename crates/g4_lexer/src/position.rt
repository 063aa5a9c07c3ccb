// Positions in a file.
use g4_base::Place;

/// Where a match begins: how many bytes are before it, and its place.
#[derive(Clone, Copy)]
pub struct Position {
    pub offset: u32,
    pub place: Place,
}

impl Position {
    ghost use Rattle.std.specs.Prelude.{◌≡◌, ◌<◌, ◌^◌, ◌+◌, ◌*◌, length};
    ghost use Rattle.g4_lexer.specs.Positions.{position_after};

    /// The start of a file.
    pub const START: Position = Position {
        offset: 0,
        place: Place::START,
    };

    /// The position after these characters.
    pub fn after(self, characters: &[char]) -> Position
        requires bytes { self.offset + 4 * length characters.now < 2 ^ 32 }
        requires lines { self.place.line + length characters.now < 2 ^ 32 }
        requires columns { self.place.column + length characters.now < 2 ^ 32 }
        ensures { result ≡ position_after self characters.now }
    {
        let mut offset = self.offset;
        for character in characters {
            offset += character.len_utf8() as u32;
        }
        Position {
            offset,
            place: self.place.behind(characters),
        }
    }
}
