// A step of SLL from a row that the store has: where it is learned the store says where it leads, and where it is not SLL makes it and
// it is learned.
ghost use Rattle.std.specs.Prelude.{◌≡◌, Contains, IfOk, List};
ghost use Rattle.g4_configs.specs.Configs.{Holds};
ghost use Rattle.g4_decide.specs.Going.{CameTo, HasSet, IsHere, IsNext, IsStep, Keeps, Question};
ghost use Rattle.g4_net.specs.Configurations.{Config, IsRow};
ghost use Rattle.g4_net.specs.Lookahead.{Next};
ghost use Rattle.g4_predict.specs.Verdicts.{IsOnward};
ghost use Rattle.g4_store.specs.Numbers.{Among};

use g4_configs::Configs;
use g4_learned::{DecisionNet, Pass, Store, Target};
use g4_predict::{Led, Looked, Seen, Verdict, look};
use g4_store::book::Learned;
use g4_store::view::Home;
use std::alloc::{AllocError, Global};
use std::sync::Wait;

/// A row that the pass knows, and its set where it is at hand.
#[derive(Drop)]
pub(crate) struct Here {
    pub(crate) row: usize,
    pub(crate) set: Option<Configs>,
}

/// What came of a step from a row.
#[derive(Drop)]
pub(crate) enum Step {
    Ended(Verdict),
    Onward(Here),
    /// The store has no room for the row to which it led from this one, or the pass met with a want of room before.
    NoRoom(usize),
}

/// The set of a row that the pass knows.
fn set_of<B: Home<DecisionNet>, R: Wait>(
    rt: &R,
    alloc: Global,
    store: &Store<B>,
    pass: &mut Pass<B>,
    here: Here,
) -> Result<Configs, AllocError>
    requires { (y : List Config) × Among (here.row, y) pass.old.0.known × HasSet here.set y }
    ensures set { (y : List Config) → Among (here.row, y) pass.old.0.known → HasSet here.set y → IfOk result (λ set. IsRow y (Holds set)) }
    ensures same { pass.new ≡ pass.old }
{
    match here.set {
        Some(set) => Ok(set),
        None => {
            let kept = store.row(rt, alloc, pass, here.row)?;
            let set = kept.snapshot().load(alloc)?;
            Ok(set)
        }
    }
}

/// Learns that a symbol leads from a row to the row of this set, which is at hand then.
fn learn_row<B: Home<DecisionNet>, R: Wait>(
    rt: &R,
    alloc: Global,
    store: &Store<B>,
    pass: &mut Pass<B>,
    row: usize,
    symbol: u32,
    at: u32,
    next: Configs,
) -> Result<Step, AllocError>
    requires { (q : Question) × (came : CameTo B.plan q at row pass.old) × IsNext q at symbol
        × IsOnward B.plan.net.net (Next B.plan.net.net (Contains came.content) symbol) (Holds next) }
    ensures keeps { (q : Question) (came : CameTo B.plan q at row pass.old) → IsNext q at symbol
        → IsOnward B.plan.net.net (Next B.plan.net.net (Contains came.content) symbol) (Holds next) → Keeps B.plan q pass.old pass.new }
    ensures step { (q : Question) (came : CameTo B.plan q at row pass.old) → IsNext q at symbol
        → IsOnward B.plan.net.net (Next B.plan.net.net (Contains came.content) symbol) (Holds next)
        → IfOk result (IsStep B.plan q at pass.old pass.new) }
{
    let snapshot = next.snapshot(alloc)?;
    let led = Led::Row(snapshot);
    let learned = store.learn_step(rt, alloc, pass, row, Looked { symbol, led })?;
    match learned {
        Learned::All => {
            let target = store.target(pass, row, symbol, at);
            match target {
                Target::Row(row) => {
                    let set = Some(next);
                    Ok(Step::Onward(Here { row, set }))
                }
                Target::Ended(_) => unreachable!(),
                Target::NotLearned => unreachable!(),
            }
        }
        Learned::Full => Ok(Step::NoRoom(row)),
    }
}

/// Makes the step of a symbol from a row, which is not learned, and learns it.
fn make_step<B: Home<DecisionNet>, R: Wait>(
    rt: &R,
    alloc: Global,
    store: &Store<B>,
    pass: &mut Pass<B>,
    here: Here,
    symbol: u32,
    at: u32,
) -> Result<Step, AllocError>
    requires { (q : Question) × IsHere B.plan q at here pass.old × IsNext q at symbol }
    ensures keeps { (q : Question) → IsHere B.plan q at here pass.old → IsNext q at symbol → Keeps B.plan q pass.old pass.new }
    ensures step { (q : Question) → IsHere B.plan q at here pass.old → IsNext q at symbol
        → IfOk result (IsStep B.plan q at pass.old pass.new) }
{
    let net = store.net().net();
    let row = here.row;
    let set = set_of(rt, alloc, store, pass, here)?;
    let seen = look(alloc, net, set, symbol, at)?;
    match seen {
        Seen::Ended(verdict) => {
            let led = Led::Ended(verdict);
            store.learn_step(rt, alloc, pass, row, Looked { symbol, led })?;
            Ok(Step::Ended(verdict))
        }
        Seen::Onward(next) => {
            let step = learn_row(rt, alloc, store, pass, row, symbol, at, next)?;
            Ok(step)
        }
    }
}

/// The step of a symbol from a row. A pass that has met with a want of room makes no step that is not learned.
pub(crate) fn next_step<B: Home<DecisionNet>, R: Wait>(
    rt: &R,
    alloc: Global,
    store: &Store<B>,
    pass: &mut Pass<B>,
    here: Here,
    symbol: u32,
    at: u32,
) -> Result<Step, AllocError>
    requires { (q : Question) × IsHere B.plan q at here pass.old × IsNext q at symbol }
    ensures keeps { (q : Question) → IsHere B.plan q at here pass.old → IsNext q at symbol → Keeps B.plan q pass.old pass.new }
    ensures step { (q : Question) → IsHere B.plan q at here pass.old → IsNext q at symbol
        → IfOk result (IsStep B.plan q at pass.old pass.new) }
{
    let target = store.target(pass, here.row, symbol, at);
    match target {
        Target::Ended(verdict) => Ok(Step::Ended(verdict)),
        Target::Row(row) => Ok(Step::Onward(Here { row, set: None })),
        Target::NotLearned => {
            if pass.was_full() {
                return Ok(Step::NoRoom(here.row));
            }
            let made = make_step(rt, alloc, store, pass, here, symbol, at)?;
            Ok(made)
        }
    }
}
