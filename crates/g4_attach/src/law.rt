// What holds of every parser grammar with its lexer grammar.
ghost use Rattle.std.specs.Prelude.{◌≡◌, ◌≢◌, ◌≤◌, ℕ, List, Option, Some, Result, Err};
ghost use Rattle.g4_source.specs.declared.source.Source.{Source};
ghost use Rattle.g4_token_file.specs.Keys.{greatest_number, number_of};
ghost use Rattle.g4_token_file.specs.declared.entry.TokenEntry.{TokenEntry};
ghost use Rattle.g4_token_file.specs.declared.entry.TokenKey.{TokenKey};
ghost use Rattle.g4_vocab.specs.Numbering.{types_of};
ghost use Rattle.g4_attach.specs.Attaching.{IsAttached, attached_of};
ghost use Rattle.g4_attach.specs.declared.attaching.Attached.{Attached as Whole};
ghost use Rattle.g4_attach.specs.declared.fault.AttachFault.{AttachFault as Fault};
ghost use Rattle.g4_attach.specs.declared.fault.AttachFault.TheVariants.{NoMemory};

/// A name or a literal has the type in the whole that it has in the lexer grammar by itself, and where a type of the lexer grammar is past
/// a limit, one of the whole is.
pub fn lexer_types_kept()
    ensures same { (table : List TokenEntry) (parser lexer : Source) (key : TokenKey) (number : ℕ)
        → number_of (types_of table lexer) key ≡ Some number
        → number_of (types_of (types_of table lexer) (attached_of parser lexer)) key ≡ Some number }
    ensures grown { (table : List TokenEntry) (parser lexer : Source)
        → greatest_number (types_of table lexer) ≤ greatest_number (types_of (types_of table lexer) (attached_of parser lexer)) }
{}

/// A parser grammar is attached to its lexer grammar in one way, or refused for one reason, where memory suffices.
pub fn one_attached()
    ensures { (table : List TokenEntry) (parser : Source) (lexer : Option Source) (a b : Result Whole Fault)
        → IsAttached table parser lexer a → IsAttached table parser lexer b → a ≢ Err NoMemory → b ≢ Err NoMemory → a ≡ b }
{}
