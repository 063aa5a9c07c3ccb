// What is spelled from where a rule starts, and where levels are.
ghost use Rattle.std.specs.Prelude.{ℕ, List};
ghost use Rattle.g4_derivation.specs.Spelling.{SpellsRules};
ghost use Rattle.g4_grammar.specs.StepRules.{CanBeRewritten, StepRule};
ghost use Rattle.g4_grammar.specs.declared.step.Numbering.{Numbering};
ghost use Rattle.g4_layout.specs.Built.{IsBuilt};
ghost use Rattle.g4_layout.specs.Rules.{rules_of};
ghost use Rattle.g4_leftrec.specs.Rewriting.{numberings, rewritten};
ghost use Rattle.g4_net.specs.Loops.{HasLoops};
ghost use Rattle.g4_net.specs.Network.{ParserNetwork};

/// From where a rule starts every network that is built spells exactly the words that the rule derives, calls nested.
pub fn spelled_where_derived()
    ensures { (set : List ℕ) (rules : List StepRule) (numberings : List Numbering) (start : List ℕ) (net : ParserNetwork) →
        IsBuilt set rules numberings start net → SpellsRules (rules_of set rules start) net }
{}

/// Levels are only in loops: only decisions lead to them, and no rule starts with one. A decision of a rule that leads to one is that of a
/// loop of the rule, to which each call of the rule at a level above 0 returns.
pub fn levels_are_in_loops()
    ensures { (set : List ℕ) (rules : List StepRule) (start : List ℕ) (net : ParserNetwork) → CanBeRewritten rules →
        IsBuilt set (rewritten rules) (numberings rules) start net → HasLoops net }
{}
