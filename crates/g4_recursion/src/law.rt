// What holds of all grammars.
ghost use Rattle.std.specs.Prelude.{◌≡◌, List};
ghost use Rattle.g4_source.specs.declared.rule.Rule.{Rule};
ghost use Rattle.g4_recursion.specs.Checking.{HaveNoFault, IsFault};
ghost use Rattle.g4_recursion.specs.declared.checking.RecursionFault.{RecursionFault};

/// Of rules one fault is reported, and none where they have none.
pub fn one_recursion()
    ensures one { (rules : List Rule) (f g : RecursionFault) → IsFault rules f → IsFault rules g → f ≡ g }
    ensures none { (rules : List Rule) (f : RecursionFault) → HaveNoFault rules → IsFault rules f → ⊥ }
{}
