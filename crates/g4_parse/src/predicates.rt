// What a parse asks of the predicates of its grammar.
ghost use Rattle.std.specs.Prelude.{◌≡◌, map, reverse};

/// An open rule: its number, and the level at which it was called.
#[derive(Clone, Copy)]
pub struct Opened {
    pub rule: u32,
    pub level: u32,
}

/// The values of the predicates of a grammar, over one file.
pub trait Predicates {
    ghost use Rattle.g4_run.specs.Running.{Values};

    /// The value of each predicate by its number, the numbers of the open rules, newest first, and the place in the token list.
    ghost values: { Self → Values };

    /// Whether the predicate of this number is true with these rules open, newest last, at this place of the token list.
    fn holds(&self, predicate: u32, opened: &[Opened], place: u32) -> bool
        ensures { result ≡ values self.now predicate (reverse (map (λ o. o.rule) opened.now)) place };
}

/// No predicates: each is true, wherever it is asked.
#[derive(Clone, Copy)]
pub struct NoPredicates;

impl Predicates for NoPredicates {
    ghost use Rattle.g4_parse.specs.NoPredicates.{always};

    ghost values = { λ _. always };

    fn holds(&self, _predicate: u32, _opened: &[Opened], _place: u32) -> bool {
        true
    }
}
