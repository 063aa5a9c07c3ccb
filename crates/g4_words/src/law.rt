// What holds of all words.
ghost use Rattle.std.specs.Prelude.{◌≡◌, List, []};
ghost use Rattle.clap.specs.Words.{Text, fault_of};
ghost use Rattle.g4_words.specs.App.{g4_app};
ghost use Rattle.g4_words.specs.Commands.{HasFewFiles, HasFlagNames, HasNumbers, HasOneOutput, IsCommand};
ghost use Rattle.g4_words.specs.declared.command.Command.{Command};

/// Words are at most one command.
pub fn one_command()
    ensures { (words : List Text) (a b : Command) → IsCommand words a → IsCommand words b → a ≡ b }
{}

/// All words that `clap` accepts are a command, if they have no more files than are allowed, numbers within their limits, names of flags
/// where these are given, and at most one flag that says what is written.
pub fn some_command()
    ensures { (words : List Text) → fault_of g4_app words ≡ [] → HasFewFiles words → HasNumbers words → HasFlagNames words
        → HasOneOutput words → (command : Command) × IsCommand words command }
{}
