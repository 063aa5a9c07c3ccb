// What holds of all grammars.
ghost use Rattle.std.specs.Prelude.{◌≡◌, ◌++◌, ◌∷◌, [], ℕ, List};
ghost use Rattle.g4_source.specs.declared.source.Source.{Source};
ghost use Rattle.g4_checks.specs.References.{HasNoClash, IsFault};
ghost use Rattle.g4_checks.specs.Predicates.{text_of_predicate};
ghost use Rattle.g4_checks.specs.declared.references.ReferenceFault.{ReferenceFault};

/// Of what a grammar names one fault is reported, and none where all is there.
pub fn one_reference_check()
    ensures one { (source : Source) (f g : ReferenceFault) → IsFault source f → IsFault source g → f ≡ g }
    ensures none { (source : Source) (f : ReferenceFault) → HasNoClash source → IsFault source f → ⊥ }
{}

/// The text of a predicate is what is between the braces of its action.
pub fn text_between_braces()
    ensures { (text : List ℕ) → text_of_predicate (123 ∷ (text ++ (125 ∷ []))) ≡ text }
{}
