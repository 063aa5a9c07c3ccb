// What holds of all names of rules, and of all token types.
ghost use Rattle.std.specs.Prelude.{◌≡◌, ◌≢◌, ◌<◌, ℕ, [], List, Result, Some, ⊤, Contains, length, map};
ghost use Rattle.std.specs.List.{range_with_len};
ghost use Rattle.g4_source.specs.declared.rule.Rule.{Rule};
ghost use Rattle.g4_source.specs.declared.source.Source.{Source};
ghost use Rattle.g4_token_file.specs.Keys.{greatest_number, number_of};
ghost use Rattle.g4_token_file.specs.declared.entry.TokenEntry.{TokenEntry};
ghost use Rattle.g4_token_file.specs.declared.entry.TokenKey.{TokenKey};
ghost use Rattle.g4_vocab.specs.Names.{HasOwnNames};
ghost use Rattle.g4_vocab.specs.Numbering.{types_of};
ghost use Rattle.g4_vocab.specs.declared.twice.NameFault.{NameFault};
ghost use Rattle.g4_vocab.specs.declared.twice.NameFault.TheVariants.{NoMemory};

/// What is reported of the names of rules is one answer, where memory suffices.
pub fn one_naming()
    ensures { (rules : List Rule) (a b : Result ⊤ NameFault) → HasOwnNames rules a → HasOwnNames rules b → a ≢ Err NoMemory
        → b ≢ Err NoMemory → a ≡ b }
{}

/// What a table gives a number keeps it.
pub fn given_numbers_kept()
    ensures { (table : List TokenEntry) (source : Source) (key : TokenKey) (number : ℕ) → number_of table key ≡ Some number
        → number_of (types_of table source) key ≡ Some number }
{}

/// A number past those of the table is of one name or of one literal alone: a lexer rule's name and the literal that names its token share
/// one, which is then the name's, and the literal has no entry.
pub fn new_numbers_differ()
    ensures { (table : List TokenEntry) (source : Source) (a b : TokenEntry) → Contains (types_of table source) a
        → Contains (types_of table source) b → a.number ≡ b.number → greatest_number table < a.number → a ≡ b }
{}

/// Without a table the types are 1, 2, 3 and so on, in the order in which they are given.
pub fn types_count_from_one()
    ensures { (source : Source) → map (λ entry. entry.number) (types_of [] source) ≡ range_with_len 1 (length (types_of [] source)) }
{}
