// What a pattern is looked for in, item by item.
ghost use Rattle.std.specs.Prelude.{◌≡◌, ◌<◌, ◌^◌, Some, None, cond, length, slice_get, MatchOption};
ghost use Rattle.g4_patterns.specs.Walking.{begins_node, begins_tree, enter_at, exit_at, is_token, is_type, last_by, leaf_at, node_of_rule as node_by_rule, past as past_at, step as step_of, tag_at, token_by};

use crate::stand::{Opened, Stand, Step};
use crate::text::has_text;
use crate::token::PatternToken;
use g4_tokens::{Token, Tokens};
use g4_trees::Item;

/// The items of a tree, for the place of each of its nodes or tokens that of its last item, and the tokens.
#[derive(Clone, Copy)]
pub(crate) struct Ground<'a> {
    pub(crate) items: &'a [Item],
    pub(crate) lasts: &'a [u32],
    pub(crate) tokens: &'a Tokens,
}

/// The item after this one is next, and this is bound.
fn past(at: usize, bound: Option<u32>) -> Step
    requires { at < 2 ^ 32 }
    ensures { result ≡ past_at at bound }
{
    Step {
        next: Stand {
            at: at + 1,
            opened: None,
        },
        bound,
    }
}

/// The node that has just begun, if it is of this rule.
fn node_of_rule(opened: Option<Opened>, rule: u32) -> Option<u32>
    ensures { result ≡ node_by_rule rule opened }
{
    match opened {
        Some(opened) if opened.rule == rule => Some(opened.node),
        _ => None,
    }
}

impl Ground<'_> {
    /// A node of the rule begins at this place.
    fn enter(&self, at: usize, rule: u32) -> Option<Step>
        requires { length self.now.items.now < 2 ^ 32 }
        ensures { result ≡ enter_at at rule (slice_get self.now.items.now at) }
    {
        match self.items.get(at) {
            Some(Item::Enter { rule: other, .. }) if *other == rule => Some(Step {
                next: Stand {
                    at: at + 1,
                    opened: Some(Opened {
                        rule,
                        node: at as u32,
                    }),
                },
                bound: None,
            }),
            _ => None,
        }
    }

    /// A node ends at this place.
    fn exit(&self, at: usize) -> Option<Step>
        requires { length self.now.items.now < 2 ^ 32 }
        ensures { result ≡ exit_at at (slice_get self.now.items.now at) }
    {
        match self.items.get(at) {
            Some(Item::Exit) => Some(past(at, None)),
            _ => None,
        }
    }

    /// The token at this place, if one is there.
    fn token(&self, at: usize) -> Option<&Token>
        ensures { MatchOption result (token_by self.now.tokens.now.list (slice_get self.now.items.now at) ≡ None)
            (λ t. token_by self.now.tokens.now.list (slice_get self.now.items.now at) ≡ Some t.now) }
    {
        match self.items.get(at) {
            Some(Item::Token(place)) => self.tokens.list.as_slice().get(*place as usize),
            _ => None,
        }
    }

    /// A token of this type and text is at this place.
    fn plain(&self, at: usize, symbol: u32, text: &[u8]) -> Option<Step>
        requires { length self.now.items.now < 2 ^ 32 }
        ensures { result ≡ cond (is_token self.now.tokens.now.bytes symbol text.now
            (token_by self.now.tokens.now.list (slice_get self.now.items.now at))) (Some (past_at at None)) None }
    {
        if at >= self.items.len() {
            return None;
        }
        let token = self.token(at)?;
        if token.symbol == symbol && has_text(self.tokens.bytes.as_slice(), token, text) {
            Some(past(at, None))
        } else {
            None
        }
    }

    /// A token of this type is at this place, and is bound.
    fn tagged(&self, at: usize, symbol: u32) -> Option<Step>
        requires { length self.now.items.now < 2 ^ 32 }
        ensures { result ≡ cond (is_type symbol (token_by self.now.tokens.now.list (slice_get self.now.items.now at)))
            (Some (past_at at (Some at))) None }
    {
        if at >= self.items.len() {
            return None;
        }
        let token = self.token(at)?;
        if token.symbol == symbol {
            Some(past(at, Some(at as u32)))
        } else {
            None
        }
    }

    /// Whether a node begins at this place.
    pub(crate) fn is_node(&self, place: u32) -> bool
        ensures { result ≡ begins_node (slice_get self.now.items.now place) }
    {
        matches!(self.items.get(place as usize), Some(Item::Enter { .. }))
    }

    /// Whether a node or a token is at this place.
    pub(crate) fn is_tree(&self, place: u32) -> bool
        ensures { result ≡ begins_tree (slice_get self.now.items.now place) }
    {
        match self.items.get(place as usize) {
            Some(Item::Enter { .. }) => true,
            Some(Item::Token(_)) => true,
            _ => false,
        }
    }

    /// The last item of the tree at a place.
    pub(crate) fn last_at(&self, node: u32) -> Option<u32>
        ensures { result ≡ slice_get self.now.lasts.now node }
    {
        self.lasts.get(node as usize).copied()
    }

    /// The node that has just begun is of this rule: all of it is passed over, and it is bound.
    fn whole_node(&self, opened: Option<Opened>, rule: u32) -> Option<Step>
        ensures { result ≡ tag_at (node_by_rule rule opened) (last_by self.now.lasts.now (node_by_rule rule opened)) }
    {
        let node = node_of_rule(opened, rule)?;
        let last = self.last_at(node)?;
        Some(Step {
            next: Stand {
                at: last as usize,
                opened: None,
            },
            bound: Some(node),
        })
    }

    /// Looks for a token of a pattern.
    fn leaf(&self, stand: Stand, token: &PatternToken) -> Option<Step>
        requires { length self.now.items.now < 2 ^ 32 }
        ensures { result ≡ leaf_at self.now.items.now self.now.lasts.now self.now.tokens.now stand (Some token.now) }
    {
        match token {
            PatternToken::Plain { symbol, text } => self.plain(stand.at, *symbol, text.as_slice()),
            PatternToken::TokenTag { symbol, .. } => self.tagged(stand.at, *symbol),
            PatternToken::RuleTag { rule, .. } => self.whole_node(stand.opened, *rule),
        }
    }

    /// Looks for an item of a pattern with these tokens: none where it is not found.
    pub(crate) fn step(&self, tokens: &[PatternToken], stand: Stand, item: Item) -> Option<Step>
        requires { length self.now.items.now < 2 ^ 32 }
        ensures { result ≡ step_of self.now.items.now self.now.lasts.now self.now.tokens.now tokens.now stand item }
    {
        match item {
            Item::Enter { rule, .. } => self.enter(stand.at, rule),
            Item::Token(place) => match tokens.get(place as usize) {
                Some(token) => self.leaf(stand, token),
                None => None,
            },
            Item::Exit => self.exit(stand.at),
        }
    }
}
