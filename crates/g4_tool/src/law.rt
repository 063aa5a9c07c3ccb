// What holds of all command lines.
ghost use Rattle.std.specs.Prelude.{◌≡◌, ℕ, List};
ghost use Rattle.g4_fetch.specs.Files.{Files};
ghost use Rattle.g4_words.specs.Commands.{IsCommand};
ghost use Rattle.g4_words.specs.declared.command.Command.TheVariants as commands;
ghost use Rattle.g4_words.specs.declared.command.Parse.{Parse};
ghost use Rattle.g4_tool.specs.Acceptance.{AcceptsByText};
ghost use Rattle.g4_tool.specs.Ends.{End, HasEnd};
ghost use Rattle.g4_tool.specs.Report.{IsReport};
ghost use Rattle.g4_tool.specs.declared.report.Report.{Report as Whole};

use g4_load::lists_are_derived_by_name;

/// A list of words has at most one end over the same files, and so one report.
pub fn one_end()
    ensures { (files : Files) (words : List (List ℕ)) (a b : End) → HasEnd files words a → HasEnd files words b → a ≡ b }
{}

/// Each file that a report tells of is accepted only where the text of the grammar, with all that it imports and with its lexer grammar,
/// derives the file's tokens from the start rule, by the names of rules and tokens and by literals; and exactly there where no parser rule
/// of the text has a predicate, unless too many rules would be open.
pub fn files_are_accepted_by_text()
    ensures { (files : Files) (words : List (List ℕ)) (report : Whole) (parse : Parse) (is : IsReport files words report)
        → IsCommand words (commands.Parse parse) → AcceptsByText files parse is.end }
{
    // The rules that files are parsed with derive what the text has.
    lists_are_derived_by_name();
}
