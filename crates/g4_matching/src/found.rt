// Matches.
ghost use Rattle.std.specs.Prelude.{◌≡◌};
ghost use Rattle.g4_matching.specs.Matcher.{best_after};

use crate::rule_end::RuleEnd;

/// A match: how many characters, of which rule, and by which of its outer alternatives.
#[derive(Clone, Copy)]
pub struct Match {
    pub length: usize,
    pub rule: u32,
    pub alternative: u32,
}

/// The best match, once the list after `length` characters is known: a longer one is better.
pub(crate) fn best_after(best: Option<Match>, length: usize, end: Option<RuleEnd>) -> Option<Match>
    ensures { result ≡ best_after best length end }
{
    match end {
        Some(end) => Some(Match {
            length,
            rule: end.rule,
            alternative: end.alternative,
        }),
        None => best,
    }
}
