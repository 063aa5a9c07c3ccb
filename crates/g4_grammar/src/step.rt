// What the atoms of rules are in a network, and what is written of a rule's states.
use g4_base::Sequence;
use g4_source::ParserRule;
use g4_tokens::Symbols;

/// What an atom of a rule is in a network over these labels: one step from a state to another.
#[derive(Drop)]
pub enum Step<L> {
    /// An edge that reads what its label takes.
    Edge(L),
    /// A call of a rule at a level. The rules of a parser count from 1, the added rule being 0.
    Call { rule: u32, level: u32 },
    /// A predicate by its number, counted from 0.
    Predicate(u32),
    /// A level that the open rule's must not pass.
    Level(u32),
    Action,
    /// Nothing is done.
    Empty,
}

/// A parser rule whose atoms are steps.
pub type StepRule = ParserRule<Step<Symbols>>;

/// The numbers of a rule's alternatives, as the grammar writes them, at the states where these begin. Alternatives count from 1.
#[derive(Drop)]
pub struct Numbering {
    /// The numbers of the alternatives that begin where the rule starts, in order.
    pub starts: Sequence<u32>,
    /// How many alternatives the rule has. At level q alternative `count + 1 - q` begins.
    pub count: u32,
}
