// The rules of the lexer of a grammar without fault.
ghost use Rattle.std.specs.Prelude.{◌≡◌};
ghost use Rattle.g4_lexer_rules.specs.Lexers.{CanBeMade};

use crate::lexer_rules::LexerRules;
use crate::tables::CommandTables;
use std::marker::Model;

/// The rules of the lexer of a grammar without fault, and what their commands name: they can be lexed with. Contracts see both.
#[derive(Drop)]
pub struct CheckedLexer {
    rules: LexerRules,
    tables: CommandTables,
}

impl Model for CheckedLexer {
    ghost use Rattle.std.specs.Coded.{codes};
    ghost use Rattle.g4_source.specs.Marks.{elements_code};
    ghost use Rattle.g4_lexer_rules.specs.Lexers.{CanBeMade};
    ghost use Rattle.g4_lexer_rules.specs.declared.lexer_rules.LexerRules.{LexerRules};
    ghost use Rattle.g4_lexer_rules.specs.declared.tables.CommandTables.{CommandTables};

    ghost Value = { LexerRules × CommandTables };

    ghost coded = { Prim.hlevel (codes, elements_code) };

    ghost view = { λ c. (c.rules, c.tables) };

    ghost invariant = { λ c. CanBeMade c.rules c.tables };
}

impl CheckedLexer {
    /// These rules, whose commands name what the tables have.
    pub(crate) fn new(rules: LexerRules, tables: CommandTables) -> Self
        requires { CanBeMade rules tables }
        ensures { result ≡ (rules, tables) }
    {
        CheckedLexer { rules, tables }
    }

    /// The rules, and what their commands name.
    pub(crate) fn into_parts(self) -> (LexerRules, CommandTables)
        ensures parts { result ≡ self }
        ensures can { CanBeMade self.0 self.1 }
    {
        let CheckedLexer { rules, tables } = self;
        (rules, tables)
    }
}
