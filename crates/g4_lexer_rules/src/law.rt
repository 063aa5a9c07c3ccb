// What holds of the rules of every lexer.
ghost use Rattle.std.specs.Prelude.{List};
ghost use Rattle.g4_source.specs.Blocks.{RulesAreFull};
ghost use Rattle.g4_source.specs.declared.rule.Rule.{Rule as Written};
ghost use Rattle.g4_grammar.specs.Written.{RulesAreDefined, RulesCanRun};
ghost use Rattle.g4_grammar.specs.declared.token_types.TokenLiteral.{TokenLiteral};
ghost use Rattle.g4_grammar.specs.declared.token_types.TokenName.{TokenName};
ghost use Rattle.g4_lexer_rules.specs.Lexable.{CanBeLexed};
ghost use Rattle.g4_lexer_rules.specs.NetworkRules.{all_rules};
ghost use Rattle.g4_lexer_rules.specs.Rules.{IsLexerRulesOf};
ghost use Rattle.g4_lexer_rules.specs.declared.lexer_rules.LexerRules.{LexerRules as Made};

/// The rules of the lexer of a checked grammar can be lexed with: where each block has an alternative, each reference is to a rule
/// and the rules can be run.
pub fn rules_can_be_lexed()
    ensures { (names : List TokenName) (literals : List TokenLiteral) (rules : List Written) (made : Made)
        → IsLexerRulesOf names literals rules made → RulesAreFull rules → RulesAreDefined rules → RulesCanRun rules
        → CanBeLexed (all_rules made.literals made.rules) }
{}
