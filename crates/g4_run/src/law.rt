// What holds of every run.
ghost use Rattle.std.specs.Prelude.{◌≡◌, ◌⊎◌, ℕ, List, ◌∷◌, Some, drop};
ghost use Rattle.g4_derivation.specs.Spelling.{DerivesFrom};
ghost use Rattle.g4_fits.specs.Fitting.{IsLeastThatFits};
ghost use Rattle.g4_grammar.specs.StepRules.{AreUnpredicated, CanBeRewritten, StepRule};
ghost use Rattle.g4_grammar.specs.declared.step.Numbering.{Numbering};
ghost use Rattle.g4_layout.specs.Built.{IsBuilt};
ghost use Rattle.g4_leftrec.specs.Rewriting.{numberings, rewritten};
ghost use Rattle.g4_net.specs.AddedRule.{IsReady};
ghost use Rattle.g4_net.specs.Loops.{HasLoops};
ghost use Rattle.g4_net.specs.Network.{ParserNetwork, state_at};
ghost use Rattle.g4_net.specs.Proper.{IsProper};
ghost use Rattle.g4_net.specs.declared.network.State.TheVariants.{Decision};
ghost use Rattle.g4_run.specs.Failing.{FailsAtPredicate};
ghost use Rattle.g4_run.specs.Running.{AllowsAt, Ending, Ends, Goes, Run, Values, backs, deepest, failed_predicate, parsed, too_deep};
ghost use Rattle.g4_run.specs.Trials.{TrialEnds, decisions_by};
ghost use Rattle.g4_tokens.specs.TokenList.{EndsInEnd};
ghost use Rattle.g4_trees.specs.Trees.{Tree};

/// A run over a word has at most one ending.
pub fn one_ending()
    ensures { (net : ParserNetwork) (values : Values) (word : List ℕ) (a b : Ending) → Ends net values word a → Ends net values word b
        → a ≡ b }
{}

/// A run that ends with a failed predicate ends at a predicate of the network that is false there, never at a level.
pub fn predicates_alone_fail()
    ensures { (net : ParserNetwork) (values : Values) (word : List ℕ) (at rule : ℕ) → IsReady net → HasLoops net →
        Ends net values word (failed_predicate at rule) → FailsAtPredicate net values word at rule }
{}

/// Where a trial from a moment of a run comes to the end, its first alternative at the decision of the moment is the least that fits
/// what is left of the word. A trial from the next moment of the run then comes to the end too, with the alternatives that are left.
pub fn trials_go_as_runs()
    ensures least { (net : ParserNetwork) (values : Values) (word : List ℕ) (r : Run) (targets : List ℕ) (i : ℕ) (more : List ℕ)
        → state_at net r.state ≡ Some (Decision targets) → TrialEnds net values word r (i ∷ more)
        → IsLeastThatFits net r.state (AllowsAt net values word r) (backs r.frames) (drop r.place word) i }
    ensures goes { (net : ParserNetwork) (values : Values) (word : List ℕ) (r s : Run) (alternatives : List ℕ) → IsReady net
        → IsProper net r.state (backs r.frames) → Goes net values word deepest r s → TrialEnds net values word r alternatives
        → TrialEnds net values word s (drop (decisions_by (state_at net r.state)) alternatives) }
{}

/// A token list that has a tree is derived by the rules of the network, whatever they are.
pub fn trees_are_derived()
    ensures { (set : List ℕ) (rules : List StepRule) (numberings : List Numbering) (start : List ℕ) (net : ParserNetwork) (values : Values)
        (word : List ℕ) (tree : Tree) → IsBuilt set rules numberings start net → EndsInEnd word → Ends net values word (parsed tree) →
        DerivesFrom set rules start word }
{}

/// A token list that rules without predicates derive, as they are run, has a tree, unless too many rules are open.
pub fn derived_words_have_trees()
    ensures { (set : List ℕ) (rules : List StepRule) (start : List ℕ) (net : ParserNetwork) (values : Values) (word : List ℕ)
        (ending : Ending) → CanBeRewritten rules → AreUnpredicated rules → IsBuilt set (rewritten rules) (numberings rules) start net →
        DerivesFrom set (rewritten rules) start word → Ends net values word ending → ((tree : Tree) × (ending ≡ parsed tree)) ⊎
        ((at : ℕ) × (ending ≡ too_deep at)) }
{}
