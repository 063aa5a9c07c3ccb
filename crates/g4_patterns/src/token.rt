// The tokens of a pattern.
use g4_base::Octets;

/// A token of a pattern.
#[derive(Drop)]
pub enum PatternToken {
    /// A plain token: it matches each token of this type with this text. The text of one that closes a file is `<EOF>`.
    Plain { symbol: u32, text: Octets },
    /// The tag of a token type: it matches each token of this type, and is bound to it by its name.
    TokenTag { symbol: u32, name: Octets },
    /// The tag of a rule: as the one child of a node of this rule it makes that node match each node of the rule, and is bound to
    /// that node by its name. It matches no token.
    RuleTag { rule: u32, name: Octets },
}
