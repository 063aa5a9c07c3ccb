// The parser's store of learned automata.
ghost use Rattle.std.specs.Prelude.{◌≡◌, ◌≤◌, ◌<◌, ℕ, true, false, List, [], ◌∷◌, All, Contains, IfOk, IfErr, OnErr, map, ◌||◌};
ghost use Rattle.g4_classes.specs.Classes.{IsSymbol};
ghost use Rattle.g4_net.specs.Configurations.{Config, IsRow, wildcard};
ghost use Rattle.g4_net.specs.Lookahead.{Next, Start};
ghost use Rattle.g4_net.specs.Loops.{HasLoops};
ghost use Rattle.g4_net.specs.Prediction.{Sll, Verdict};
ghost use Rattle.g4_predict.specs.Paths.{led_of, looked_of, path_of};
ghost use Rattle.g4_store.specs.declared.path.Path.{Path as StoredPath};
ghost use Rattle.g4_store.specs.Known.{KnowsRows};
ghost use Rattle.g4_store.specs.Learned.{IsLearned};
ghost use Rattle.g4_store.specs.Paths.{cells_of, facts_of};
ghost use Rattle.g4_store.specs.Words.{size_of};
ghost use Rattle.g4_store.specs.Numbers.{Among, has};
ghost use Rattle.g4_store.specs.Closing.{Closes};
ghost use Rattle.g4_store.specs.Views.{copied, leading, met, no_looks, pass_view};
ghost use Rattle.g4_net.specs.AddedRule.{IsReady};
ghost use Rattle.g4_learned.specs.Automata.{IsLed, LeadsTo, StartsAt};
ghost use Rattle.g4_guards.specs.Levels.{AllowedAt, IsCondition, IsDecision};
ghost use Rattle.g4_learned.specs.Stored.{IsPlan, IsStored, IsTooLarge, SaysFrom, stored_entry as stored_entry_of, stored_led};
ghost use Rattle.g4_learned.specs.declared.store.OpenFault.TheVariants.{TooLarge};
ghost use Rattle.g4_learned.specs.Tables.{AreTables, IsStartOf, column_of};
ghost use Rattle.g4_store.specs.declared.automaton.Fact.TheVariants.{Cell};
ghost use Rattle.g4_store.specs.declared.automaton.Fact.TheVariants as Fact;

use crate::decision_net::DecisionNet;
use crate::parsing::Parsing;
use crate::path::{stored_entries, stored_entry, stored_path};
use crate::row::Row;
use g4_base::Sequence;
use g4_configs::Snapshot;
use g4_net::ParserNetwork;
use g4_predict::{Looked, Path};
use g4_store::automaton::Plan;
use g4_store::book::Learned;
use g4_store::listing::Listing;
use g4_store::view::Home;
use g4_store::{pass, store};
use std::alloc::{AllocError, Global};
use std::collections::VecDeque;
use std::marker::{Brand, Model};
use std::sync::Wait;

/// The most cells of a store: rows times columns.
pub const MOST_CELLS: usize = 16_777_216;

/// The most rows of a store.
pub const MOST_ROWS: usize = 65_536;

/// A store whose table has no name yet.
pub type Opened = store::Opened<DecisionNet, Row, Parsing>;

/// What one thread has seen of a store.
pub type Pass<B> = pass::Pass<DecisionNet, Row, B>;

/// What was learned, once the store is closed.
pub type Learnings = Listing<DecisionNet, Row>;

/// Why a store cannot be opened.
#[derive(Debug, Drop)]
pub enum OpenFault {
    /// It would have more cells or starts than a store may have.
    TooLarge,
    NoMemory,
}

impl From<AllocError> for OpenFault {
    ghost use Rattle.std.specs.Prelude.{◌≡◌};
    ghost use Rattle.g4_learned.specs.declared.store.OpenFault.TheVariants.{NoMemory};

    ghost from_gives = { λ _ e. e ≡ NoMemory };

    fn from(_: AllocError) -> Self {
        OpenFault::NoMemory
    }
}

/// The plan of a store over a network, with room for so many rows.
fn plan_of(net: DecisionNet, rows: usize) -> Result<Plan<DecisionNet>, OpenFault>
    requires rows { (0 < rows) × (rows ≤ 65536) }
    requires tables { AreTables net × IsReady net.net × HasLoops net.net }
    ensures plan { IfOk result IsPlan }
    ensures parts { IfOk result (λ p. (p.net ≡ net) × (p.rows ≡ rows) × (0 < size_of p)) }
    ensures too_large { IfErr result (λ e. (e ≡ TooLarge) × IsTooLarge net.net rows) }
{
    let columns = net.columns() as usize;
    let starts = net.starts();
    let Some(cells) = rows.checked_mul(columns) else {
        return Err(OpenFault::TooLarge);
    };
    if cells > MOST_CELLS || starts > MOST_CELLS {
        return Err(OpenFault::TooLarge);
    }
    Ok(Plan {
        rows,
        columns,
        starts,
        net,
    })
}

/// Opens a store over a network, with room for so many rows. All memory that the book will need is taken here.
///
/// # Errors
/// The store would be too large, or there is no memory.
pub fn open(alloc: Global, net: ParserNetwork, rows: usize) -> Result<Opened, OpenFault>
    requires rows { (0 < rows) × (rows ≤ 65536) }
    requires ready { IsReady net }
    requires loops { HasLoops net }
    ensures plan { IfOk result (λ o. IsPlan o.plan) }
    ensures parts { IfOk result (λ o. (o.plan.net.net ≡ net) × (o.plan.rows ≡ rows)) }
    ensures too_large { IfErr result (λ e. e ≡ TooLarge → IsTooLarge net rows) }
{
    let net = DecisionNet::new(alloc, net)?;
    let plan = plan_of(net, rows)?;
    let opened = store::Opened::new(alloc, plan)?;
    Ok(opened)
}

/// The words that all threads share, and the book under its lock.
#[derive(Drop)]
pub struct Store<B: Home<DecisionNet>> {
    pub(crate) store: store::Store<DecisionNet, Row, Parsing, B>,
}

impl Home<DecisionNet> for Brand {
    ghost use Rattle.g4_store.specs.Views.{no_table};
    ghost use Rattle.g4_learned.specs.Stored.{no_plan};

    ghost table = { no_table };

    ghost plan = { no_plan };
}

impl<B: Home<DecisionNet>> Model for Store<B> {
    ghost use Rattle.g4_learned.specs.Stored.{IsPlan};
    ghost use Rattle.g4_learned.specs.Tables.{Tables};
    ghost use Rattle.g4_store.specs.declared.automaton.Plan.{Plan};

    ghost Value = { Plan Tables };

    ghost view = { λ _. B.plan };

    ghost invariant = { λ _. IsPlan B.plan };
}

impl<B: Home<DecisionNet>> Store<B> {
    /// The table has a name from here on.
    pub fn named(opened: Opened) -> (Store<B>, Pass<B>)
        requires plan { IsPlan opened.plan }
        requires name { (opened.table.shared.table_id ≡ B.table) × (opened.plan ≡ B.plan) }
        ensures { result.1 ≡ (pass_view [] [] [] (0 ∷ []) 1 no_looks, false) }
    {
        let (store, pass) = opened.named::<B>();
        (Store { store }, pass)
    }

    /// The network with its tables, on which the plan of the store is made.
    pub fn net(&self) -> &DecisionNet
        ensures is { result.now ≡ B.plan.net }
        ensures plan { IsPlan B.plan }
    {
        self.store.net()
    }

    /// Another pass, which has seen as much. It asks for a pass that leads.
    pub fn copy_pass(&self, pass: &mut Pass<B>) -> Pass<B>
        requires { has 0 pass.old.0.holds ≡ true }
        ensures copy { result ≡ (copied pass.old.0, pass.old.1) }
        ensures same { pass.new ≡ (leading pass.old.0, pass.old.1) }
    {
        self.store.copy_pass(pass)
    }

    /// The first pass has then seen all that either has seen.
    pub fn meet(&self, pass: &mut Pass<B>, other: Pass<B>)
        ensures met { pass.new.0 ≡ met pass.old.0 other.0 }
        ensures full { pass.new.1 ≡ pass.old.1 || other.1 }
    {
        self.store.meet(pass, other);
    }

    /// Closes the store. The Listing's memory is taken first, so where there is none both come back.
    pub fn close(self, alloc: Global, pass: Pass<B>) -> Result<Learnings, (Store<B>, Pass<B>)>
        ensures plan { IfOk result (λ l. (l.plan ≡ B.plan) × IsPlan B.plan) }
        ensures closes { IfOk result (λ l. Closes StartsAt LeadsTo B.plan pass.0 l.words.items l.rows.items) }
        ensures back { IfErr result (λ r. r.1 ≡ pass) }
    {
        let Store { store } = self;
        match store.close(alloc, pass) {
            Ok(listing) => Ok(listing),
            Err((store, pass)) => Err((Store { store }, pass)),
        }
    }

    /// Learns the path of a decision under a condition, under the lock.
    ///
    /// # Errors
    /// No memory. Then nothing was learned.
    pub fn learn<R: Wait>(
        &self,
        rt: &R,
        alloc: Global,
        pass: &mut Pass<B>,
        condition: u32,
        path: Path,
    ) -> Result<Learned, AllocError>
        requires decision { IsDecision B.plan.net.net path.decision }
        requires condition { IsCondition B.plan.net.net path.decision condition }
        requires sll { (word : List ℕ) × (v : Verdict) × All IsSymbol word
            × Sll B.plan.net.net path.decision (AllowedAt B.plan.net.net path.decision condition) word v (path_of path) }
        ensures learned { IfOk result (λ learned. (stored : StoredPath (List Config))
            × IsStored B.plan.net path.decision condition (path_of path) stored
            × IsLearned B.plan.rows (facts_of stored) pass.old pass.new learned) }
        ensures rows { IfOk result (λ learned. KnowsRows B.plan.rows pass.new) }
        ensures unchanged { OnErr result (pass.new ≡ pass.old) }
    {
        let stored = stored_path(alloc, self.store.net(), condition, path)?;
        let learned = self.store.learn(rt, pass, stored);
        Ok(learned)
    }

    /// Learns the row of a decision's start set under a condition, under the lock.
    ///
    /// # Errors
    /// No memory. Then nothing was learned.
    pub fn learn_start<R: Wait>(
        &self,
        rt: &R,
        alloc: Global,
        pass: &mut Pass<B>,
        decision: u32,
        condition: u32,
        start: Snapshot,
    ) -> Result<Learned, AllocError>
        requires decision { IsDecision B.plan.net.net decision }
        requires condition { IsCondition B.plan.net.net decision condition }
        requires start { IsRow start (Start B.plan.net.net decision (AllowedAt B.plan.net.net decision condition) wildcard) }
        ensures learned { IfOk result (λ learned. (i : ℕ) × IsStartOf B.plan.net decision condition i
            × IsLearned B.plan.rows (Fact.Start i start ∷ []) pass.old pass.new learned) }
        ensures rows { IfOk result (λ learned. KnowsRows B.plan.rows pass.new) }
        ensures unchanged { OnErr result (pass.new ≡ pass.old) }
    {
        let looked = Sequence::new(Vec::new(alloc));
        let path = Path {
            decision,
            start,
            looked,
        };
        let stored = stored_path(alloc, self.store.net(), condition, path)?;
        let learned = self.store.learn(rt, pass, stored);
        Ok(learned)
    }

    /// Learns what one symbol leads to from a row that the pass knows, under the lock.
    ///
    /// # Errors
    /// No memory. Then nothing was learned.
    pub fn learn_step<R: Wait>(
        &self,
        rt: &R,
        alloc: Global,
        pass: &mut Pass<B>,
        number: usize,
        looked: Looked,
    ) -> Result<Learned, AllocError>
        requires { (row : List Config) × Among (number, row) pass.old.0.known × IsRow row (Contains row)
            × IsSymbol looked.symbol × IsLed (Next B.plan.net.net (Contains row) looked.symbol) (stored_led (led_of looked.led)) }
        ensures learned { (row : List Config) → Among (number, row) pass.old.0.known → IfOk result (λ learned.
            IsLearned B.plan.rows (Cell row (column_of B.plan.net looked.symbol) (stored_led (led_of looked.led)) ∷ []) pass.old pass.new
            learned) }
        ensures rows { IfOk result (λ learned. KnowsRows B.plan.rows pass.new) }
        ensures unchanged { OnErr result (pass.new ≡ pass.old) }
    {
        let entry = stored_entry(alloc, self.store.net(), looked)?;
        let mut entries = VecDeque::new(alloc);
        entries.push_back(entry)?;
        let learned = self.store.learn_on(rt, pass, number, entries);
        Ok(learned)
    }

    /// The row of a number that the pass knows. It takes the lock.
    ///
    /// # Errors
    /// No memory.
    pub fn row<R: Wait>(
        &self,
        rt: &R,
        alloc: Global,
        pass: &mut Pass<B>,
        number: usize,
    ) -> Result<Row, AllocError>
        requires { (row : List Config) × Among (number, row) pass.old.0.known }
        ensures row { (row : List Config) → Among (number, row) pass.old.0.known → IfOk result (λ made. made ≡ row) }
        ensures same { pass.new ≡ pass.old }
    {
        let row = self.store.copy_row(rt, alloc, pass, number)?;
        Ok(row)
    }

    /// Learns what SLL looked at from a row on that the pass knows, under the lock.
    ///
    /// # Errors
    /// No memory. Then nothing was learned.
    pub fn learn_on<R: Wait>(
        &self,
        rt: &R,
        alloc: Global,
        pass: &mut Pass<B>,
        number: usize,
        looked: Sequence<Looked>,
    ) -> Result<Learned, AllocError>
        requires { (row : List Config) × Among (number, row) pass.old.0.known
            × SaysFrom B.plan.net.net row (map looked_of looked) }
        ensures learned { (row : List Config) → Among (number, row) pass.old.0.known → IfOk result (λ learned.
            IsLearned B.plan.rows (cells_of row (map (stored_entry_of B.plan.net) (map looked_of looked))) pass.old pass.new learned) }
        ensures rows { IfOk result (λ learned. KnowsRows B.plan.rows pass.new) }
        ensures unchanged { OnErr result (pass.new ≡ pass.old) }
    {
        let entries = stored_entries(alloc, self.store.net(), looked.into_vec())?;
        let learned = self.store.learn_on(rt, pass, number, entries);
        Ok(learned)
    }
}
