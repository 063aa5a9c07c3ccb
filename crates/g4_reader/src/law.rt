// What holds of all readings.
ghost use Rattle.std.specs.Prelude.{◌≡◌, ◌≢◌, ℕ, List, Result};
ghost use Rattle.g4_source.specs.declared.source.Source.{Source};
ghost use Rattle.g4_reader.specs.Reading.{IsReading};
ghost use Rattle.g4_reader.specs.declared.reader.ReadFault.{ReadFault};
ghost use Rattle.g4_reader.specs.declared.reader.ReadFault.TheVariants.{NoMemory};

/// A text has one reading, where memory suffices.
pub fn one_reading()
    ensures { (text : List ℕ) (a b : Result Source ReadFault) → IsReading text a → IsReading text b → a ≢ Err NoMemory
        → b ≢ Err NoMemory → a ≡ b }
{}

/// Each text has a reading: it is a grammar or it has a first fault.
pub fn some_reading()
    ensures { (text : List ℕ) → (result : Result Source ReadFault) × IsReading text result × (result ≢ Err NoMemory) }
{}
