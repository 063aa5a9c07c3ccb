// What holds of the commands of all grammars.
ghost use Rattle.std.specs.Prelude.{◌≡◌, All, IsSome, List, Some, map};
ghost use Rattle.std.specs.List.{filter_map};
ghost use Rattle.g4_grammar.specs.declared.token_types.TokenName.{TokenName};
ghost use Rattle.g4_source.specs.declared.rule.Command.{Command};
ghost use Rattle.g4_source.specs.declared.source.Source.{Source};
ghost use Rattle.g4_lexer_rules.specs.Commands.{command_of};
ghost use Rattle.g4_lexer_rules.specs.Known.{IsKnown};
ghost use Rattle.g4_lexer_rules.specs.Tables.{tables_of};

/// A command is carried out where it is known, with its mode, its channel and its token type. So of the commands of an alternative
/// that are all known, none is passed over.
pub fn known_commands_are_carried_out()
    ensures each { (source : Source) (types : List TokenName) (command : Command) → IsKnown source types command
        → IsSome (command_of (tables_of source types) command) }
    ensures all { (source : Source) (types : List TokenName) (commands : List Command) → All (IsKnown source types) commands
        → map Some (filter_map (command_of (tables_of source types)) commands) ≡ map (command_of (tables_of source types)) commands }
{}
