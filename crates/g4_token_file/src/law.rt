// What the definition of a table implies.
ghost use Rattle.std.specs.Prelude.{◌≡◌, ◌≢◌, ℕ, List, Some, Result, Ok, Err, Contains};
ghost use Rattle.g4_token_file.specs.Files.{IsTokenFile, file_lines};
ghost use Rattle.g4_token_file.specs.Keys.{number_of};
ghost use Rattle.g4_token_file.specs.Lines.{IsTokenLine};
ghost use Rattle.g4_token_file.specs.declared.entry.TokenEntry.{TokenEntry};
ghost use Rattle.g4_token_file.specs.declared.fault.TokenFileFault.{TokenFileFault};
ghost use Rattle.g4_token_file.specs.declared.fault.TokenFileFault.TheVariants.{NoMemory};

/// A file has at most one answer: its table, or its first fault, unless memory runs out.
pub fn one_table()
    ensures { (bytes : List ℕ) (a b : Result (List TokenEntry) TokenFileFault) → IsTokenFile bytes a → IsTokenFile bytes b
        → a ≢ Err NoMemory → b ≢ Err NoMemory → a ≡ b }
{}

/// What a line says is in the table.
pub fn numbers_kept()
    ensures { (bytes : List ℕ) (table : List TokenEntry) (line : List ℕ) (entry : TokenEntry) → IsTokenFile bytes (Ok table)
        → Contains (file_lines bytes) line → IsTokenLine line entry → number_of table entry.key ≡ Some entry.number }
{}

/// What is in the table, a line says.
pub fn numbers_given()
    ensures { (bytes : List ℕ) (table : List TokenEntry) (entry : TokenEntry) → IsTokenFile bytes (Ok table) → Contains table entry
        → (line : List ℕ) × Contains (file_lines bytes) line × IsTokenLine line entry }
{}
