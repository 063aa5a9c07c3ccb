// What the definition of tokens implies.
ghost use Rattle.std.specs.Prelude.{◌≡◌, ◌≢◌, ℕ, List, Result, Err};
ghost use Rattle.g4_grammar_tokens.specs.declared.token.Token.{Token};
ghost use Rattle.g4_grammar_tokens.specs.declared.scanner.ScanFault.{ScanFault};
ghost use Rattle.g4_grammar_tokens.specs.declared.scanner.ScanFault.TheVariants.{NoMemory};
ghost use Rattle.g4_grammar_tokens.specs.Answers.{IsScan};

/// Bytes have at most one answer: their tokens, or their fault, unless memory runs out.
pub fn one_scan()
    ensures { (bytes : List ℕ) (a b : Result (List Token) ScanFault) → IsScan bytes a → IsScan bytes b → a ≢ Err NoMemory
        → b ≢ Err NoMemory → a ≡ b }
{}
