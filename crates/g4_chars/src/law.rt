// What holds of all sets and texts.
ghost use Rattle.std.specs.Prelude.{◌≡◌, ◌≢◌, ℕ, List, Result, Err};
ghost use Rattle.g4_chars.specs.declared.range.Range.{Range};
ghost use Rattle.g4_chars.specs.declared.set_text.SetFault.{SetFault};
ghost use Rattle.g4_chars.specs.declared.set_text.SetFault.TheVariants.{NoMemory};
ghost use Rattle.g4_chars.specs.CharSets.{HaveSame, IsCanonical};
ghost use Rattle.g4_chars.specs.SetText.{IsReading};

/// Two sets with the same characters have the same ranges.
pub fn one_form()
    ensures { (rs ss : List Range) → IsCanonical rs → IsCanonical ss → HaveSame rs ss → rs ≡ ss }
{}

/// A text has one reading, where memory suffices: one set, or one fault.
pub fn one_reading()
    ensures { (text : List ℕ) (a b : Result (List Range) SetFault) → IsReading text a → IsReading text b → a ≢ Err NoMemory
        → b ≢ Err NoMemory → a ≡ b }
{}
