// What predicates look at.
ghost use Rattle.std.specs.Prelude.{◌≡◌};
ghost use Rattle.g4_preds.specs.Values.{is_among, text_of_token, holds};

use crate::node::Test;

/// What predicates look at.
pub trait Surroundings {
    ghost use Rattle.std.specs.Str.{bytes_eq};
    ghost use Rattle.g4_preds.specs.Values.{Moment};

    /// The flags, the open rules and the texts of the tokens from here on.
    ghost moment: { Self → Moment };

    /// Whether the flag was given.
    fn has_flag(&self, name: &str) -> bool
        ensures { result ≡ is_among (moment self.now).flags name.now };

    /// Whether the rule is open.
    fn is_inside(&self, rule: &str) -> bool
        ensures { result ≡ is_among (moment self.now).open_rules rule.now };

    /// Whether the token of this number has this text. The first token from here has the number 1, and those after the last have `<EOF>`.
    fn text_is(&self, nth: u32, text: &str) -> bool
        ensures { result ≡ bytes_eq (text_of_token (moment self.now).texts nth) text.now };
}

/// Whether the test holds.
pub fn holds<S: Surroundings>(surroundings: &S, test: &Test) -> bool
    ensures { result ≡ holds (S.moment surroundings.now) test.now }
{
    match test {
        Test::Constant(value) => *value,
        Test::Flag(name) => surroundings.has_flag(name.as_str()),
        Test::Inside(rule) => surroundings.is_inside(rule.as_str()),
        Test::TextIs { nth, text } => surroundings.text_is(*nth, text.as_str()),
    }
}
