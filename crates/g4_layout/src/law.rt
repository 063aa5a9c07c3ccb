// What the definitions of layouts imply.
ghost use Rattle.std.specs.Prelude.{◌≡◌, ◌≤◌, ◌↔◌, ◌+◌, ◌*◌, ℕ, List, [], length, Some, slice_get, Contains};
ghost use Rattle.g4_source.specs.Full.{EachIsFull};
ghost use Rattle.g4_source.specs.Elements.{Alternatives};
ghost use Rattle.g4_grammar.specs.LeftCalls.{CallsAreInRange, NoLeftCycle};
ghost use Rattle.g4_grammar.specs.Loops.{NoEmptyLoop};
ghost use Rattle.g4_grammar.specs.StepRules.{AreUnpredicated, CanBeLaid, StepRule};
ghost use Rattle.g4_grammar.specs.Steps.{CallsRule, ReadsSymbols};
ghost use Rattle.g4_grammar.specs.declared.step.Numbering.{Numbering};
ghost use Rattle.g4_grammar.specs.declared.step.Step.{Step};
ghost use Rattle.g4_layout.specs.Built.{IsBuilt};
ghost use Rattle.g4_layout.specs.Callers.{callers_of};
ghost use Rattle.g4_layout.specs.Layout.{IsNetworkOf};
ghost use Rattle.g4_layout.specs.Numbered.{IsNumberedNetworkOf};
ghost use Rattle.g4_layout.specs.Rules.{rule_number, rules_of};
ghost use Rattle.g4_net.specs.AddedRule.{IsRunnable, IsUnpredicated};
ghost use Rattle.g4_net.specs.Configurations.{above_bottom, config};
ghost use Rattle.g4_net.specs.Leads.{LeadsOn, WellFormed};
ghost use Rattle.g4_net.specs.Network.{IsReturn, ParserNetwork};
ghost use Rattle.g4_net.specs.declared.network.Network.{Network};
ghost use Rattle.g4_tokens.specs.Symbols.{end_of_list};
ghost use Rattle.g4_net.specs.declared.network.TheConstants.{MOST_STATES};

/// Where no loop has a body that derives the empty word and no rule reaches itself by left calls, and only there, no state
/// of the rules' network leads above its own stack to itself.
pub fn never_comes_back()
    ensures { (rules : List (Alternatives (Step (List ℕ)))) (net : ParserNetwork) → IsNetworkOf rules net
        → CallsAreInRange CallsRule rules →
        (NoEmptyLoop ReadsSymbols CallsRule rules × NoLeftCycle ReadsSymbols CallsRule rules) ↔
        ((p i : ℕ) (returns : List ℕ) → LeadsOn net (config p i (above_bottom [])) (config p i (above_bottom returns)) → ⊥) }
{}

/// Such a network is well formed, where its callers are listed and each block of the rules has an alternative.
pub fn well_formed()
    ensures { (rules : List (Alternatives (Step (List ℕ)))) (net : ParserNetwork) → IsNetworkOf rules net
        → CallsAreInRange CallsRule rules →
        NoEmptyLoop ReadsSymbols CallsRule rules × NoLeftCycle ReadsSymbols CallsRule rules →
        ((k : ℕ) (xs : Alternatives (Step (List ℕ))) → slice_get rules k ≡ Some xs → EachIsFull xs)
        → net.callers ≡ callers_of net.states (length rules) → WellFormed net }
{}

/// Every network of rules that can be laid can be parsed with: it is well formed, and its added rule is apart.
pub fn every_network_is_runnable()
    ensures { (set : List ℕ) (rules : List StepRule) (start : List ℕ) (net : ParserNetwork) → CanBeLaid rules
        → rule_number rules start ≤ length rules → (Contains set end_of_list → ⊥) →
        IsNetworkOf (rules_of set rules start) net → length net.states ≤ MOST_STATES
        → net.callers ≡ callers_of net.states (length rules + 1) →
        IsRunnable net (rule_number rules start) (2 * length rules + 2) set }
{}

/// Where no rule as it is laid has a predicate, no state of the network is one.
pub fn laid_without_predicates()
    ensures { (set : List ℕ) (rules : List StepRule) (numberings : List Numbering) (start : List ℕ) (net : ParserNetwork) → CanBeLaid rules
        → AreUnpredicated rules → IsBuilt set rules numberings start net → IsUnpredicated net }
{}

/// The callers listed of a rule are the return states of its calls.
pub fn callers_are_returns<L>()
    ensures { (net : Network L) (count rule t : ℕ) (listed : List ℕ) → slice_get (callers_of net.states count) rule ≡ Some listed
        → Contains listed t ↔ IsReturn net rule t }
{}

/// A set, rules with their numberings and a start rule have at most one network.
pub fn one_network()
    ensures { (set : List ℕ) (rules : List StepRule) (numberings : List Numbering) (start : List ℕ) (a b : ParserNetwork)
        → IsBuilt set rules numberings start a → IsBuilt set rules numberings start b → a ≡ b }
{}

/// Rules with their numberings have at most one network, whatever its labels are.
pub fn one_numbered_network<L>()
    ensures { (rules : List (Alternatives (Step L))) (numberings : List Numbering) (a b : Network L)
        → IsNumberedNetworkOf rules numberings a → IsNumberedNetworkOf rules numberings b → a ≡ b }
{}
