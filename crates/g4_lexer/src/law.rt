// What the definitions of lexing imply.
ghost use Rattle.std.specs.Prelude.{◌≡◌, ◌≢◌, ℕ, List, Result, Err};
ghost use Rattle.g4_tokens.specs.declared.token.Token.{Token};
ghost use Rattle.g4_tokens.specs.declared.token.Tokens.{Tokens};
ghost use Rattle.g4_lexer.specs.declared.fault.LexFault.{LexFault};
ghost use Rattle.g4_lexer.specs.declared.fault.LexFault.TheVariants.{NoMemory};
ghost use Rattle.g4_lexer.specs.declared.lexer.Lexer.{Lexer as LexerOf};
ghost use Rattle.g4_lexer.specs.Lexing.{Course, IsLexing, LexesWithin, Stuck};

/// A file has at most one lexing: its tokens, or its fault, unless memory runs out.
pub fn one_lexing()
    ensures { (lexer : LexerOf) (bytes : List ℕ) (a b : Result Tokens LexFault) → IsLexing lexer bytes a → IsLexing lexer bytes b
        → a ≢ Err NoMemory → b ≢ Err NoMemory → a ≡ b }
{}

/// A text has at most one lexing from where a lexing is, where this many tokens may be made.
pub fn one_lexing_within()
    ensures { (lexer : LexerOf) (room : ℕ) (s : Course) (text : List ℕ) (a b : Result (List Token) Stuck)
        → LexesWithin lexer room s text a → LexesWithin lexer room s text b → a ≡ b }
{}
