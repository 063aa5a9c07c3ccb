// What the states of a network are made of: the atoms, the alternatives and the rules of parsers and of lexers alike.
use g4_base::Sequence;
use g4_grammar::Step;
use g4_source::{
    Atom, AtomKind, Element, Elements, LexerAlternative, LexerRule, ParserRule, RuleAlternative,
};

/// An atom of a rule, which makes some states.
pub trait Atomic {
    ghost use Rattle.std.specs.Prelude.{◌≡◌, ℕ};

    ghost states: { Self → ℕ };

    /// How many states it makes.
    fn states(&self) -> usize
        ensures { result ≡ states self.now };
}

impl<L> Atomic for Step<L> {
    ghost use Rattle.g4_layout.specs.Size.{one_state};

    ghost states = { one_state };

    fn states(&self) -> usize {
        1
    }
}

impl Atomic for Atom {
    ghost use Rattle.g4_states.specs.AtomSizes.{states_of_atom};

    ghost states = { states_of_atom };

    fn states(&self) -> usize {
        match &self.kind {
            AtomKind::Literal(literal) => literal.characters.len(),
            _ => 1,
        }
    }
}

/// An alternative of a rule over these atoms.
pub trait Body<A> {
    ghost use Rattle.std.specs.Prelude.{◌≡◌, map};
    ghost use Rattle.g4_source.specs.Elements.{Elements as Tree};
    ghost use Rattle.g4_source.specs.Trees.{element_of, in_order};

    ghost tree: { Self → Tree A };

    /// Its elements, one after another.
    fn elements(&self) -> &[Element<A>]
        ensures { in_order (map element_of result.now) ≡ tree self.now };
}

impl<A> Body<A> for Elements<A> {
    ghost tree = { λ x. x };

    fn elements(&self) -> &[Element<A>] {
        self.as_slice()
    }
}

impl<A> Body<A> for RuleAlternative<A> {
    ghost tree = { λ x. x.elements };

    fn elements(&self) -> &[Element<A>] {
        self.elements.as_slice()
    }
}

impl Body<Atom> for LexerAlternative {
    ghost tree = { λ x. x.elements };

    fn elements(&self) -> &[Element<Atom>] {
        self.elements.as_slice()
    }
}

/// A rule that has these alternatives.
pub trait LaidRule<B> {
    ghost use Rattle.std.specs.Prelude.{◌≡◌, List};

    ghost bodies: { Self → List B };

    /// Its alternatives in order.
    fn bodies(&self) -> &[B]
        ensures { result.now ≡ bodies self.now };
}

impl<B> LaidRule<B> for Sequence<B> {
    ghost bodies = { λ x. x };

    fn bodies(&self) -> &[B] {
        self.as_slice()
    }
}

impl<A> LaidRule<RuleAlternative<A>> for ParserRule<A> {
    ghost bodies = { λ x. x.alternatives };

    fn bodies(&self) -> &[RuleAlternative<A>] {
        self.alternatives.as_slice()
    }
}

impl LaidRule<LexerAlternative> for LexerRule {
    ghost bodies = { λ x. x.alternatives };

    fn bodies(&self) -> &[LexerAlternative] {
        self.alternatives.as_slice()
    }
}
