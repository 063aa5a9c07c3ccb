// The work on a file, as each worker does it.
ghost use Rattle.std.specs.Prelude.{◌≡◌, ◌<◌, IfOk};
ghost use Rattle.g4_load.specs.Usable.{IsUsable};
ghost use Rattle.g4_outcome.specs.Grammars.{with_net};
ghost use Rattle.g4_outcome.specs.Inputs.{IsSmall};
ghost use Rattle.g4_outcome.specs.Reported.{IsFileReport};
ghost use Rattle.g4_outcome.specs.Taught.{HasTaught};

use crate::inputs_left::{InputsHome, InputsLeft, copy_left, give_back};
use crate::lexer_home::LexerHome;
use crate::worker_state::WorkerState;
use g4_base::Text;
use g4_learned::{DecisionNet, Store};
use g4_outcome::{FileReport, Grammar, Input, report_file};
use g4_ports::Gate;
use g4_store::steps::Steps;
use g4_store::view::Home;
use g4_words::Output;
use g4_workers::Work;
use std::alloc::{AllocError, Global};
use std::marker::{Brand, Model};
use std::sync::ledger::{Blank, Ledger};
use std::sync::{Mutex, Wait};

/// What all workers share: the grammar and the store of its learned automata, the files, and the gate.
#[derive(Drop)]
pub struct FileWork<'a, B: Home<DecisionNet> + InputsHome + LexerHome, R, G> {
    pub rt: &'a R,
    pub alloc: Global,
    pub output: Output,
    pub grammar: &'a Grammar,
    pub store: &'a Store<B>,
    pub names: &'a [Text],
    /// What is left of the content of the files.
    pub inputs: &'a Mutex<InputsLeft<B>>,
    pub gate: &'a G,
    /// How many workers there are beside the caller.
    pub jobs: u32,
}

impl<'a, B: Home<DecisionNet> + InputsHome + LexerHome, R, G> Model for FileWork<'a, B, R, G> {
    ghost use Rattle.std.specs.Prelude.{◌≡◌, All, length};
    ghost use Rattle.g4_load.specs.Usable.{IsUsable};
    ghost use Rattle.g4_outcome.specs.Grammars.{with_net};
    ghost use Rattle.g4_outcome.specs.Inputs.{IsSmall};
    ghost use Rattle.g4_pool.specs.Files.{Pooled, files_of, pooled};
    ghost use Rattle.g4_preds.specs.contracts.predicate.Predicate as predicate;
    ghost use Rattle.g4_source.specs.Marks.{elements_code};
    ghost use Rattle.std.specs.Coded.{codes};

    ghost Value = { Pooled };

    ghost coded = { Prim.hlevel (codes, elements_code, predicate.the_row.coded) };

    ghost view = { λ w. pooled (files_of w.output (with_net w.grammar.now B.plan.net.net) w.names.now B.inputs) w.jobs };

    ghost invariant = { λ w. IsUsable (with_net w.grammar.now B.plan.net.net) × All IsSmall B.inputs
        × (length w.names.now ≡ length B.inputs) × (w.grammar.now.lexer ≡ B.lexer) };
}

/// What is reported of a file of this name, with a count of loads.
fn report_counted<B: Home<DecisionNet> + LexerHome, R: Wait, L: Ledger>(
    rt: &R,
    alloc: Global,
    output: Output,
    grammar: &Grammar,
    store: &Store<B>,
    state: &mut WorkerState<'_, B>,
    name: &Text,
    input: Input,
    blank: Blank,
) -> Result<FileReport, AllocError>
    requires ledger { (blank.name ≡ L.name) × (blank.parts ≡ L.parts) × (0 < blank.parts) }
    requires own { grammar.now.lexer ≡ B.lexer }
    requires usable { IsUsable (with_net grammar.now B.plan.net.net) }
    requires small { IsSmall input }
    ensures report { IfOk result (IsFileReport output (with_net grammar.now B.plan.net.net) name.now input) }
    ensures taught { IfOk result (λ _. HasTaught B.plan (with_net grammar.now B.plan.net.net) input state.old.pass state.new.pass) }
{
    let mut steps = Steps::<L>::open(blank);
    report_file(
        rt,
        alloc,
        output,
        grammar,
        store,
        &mut state.pass,
        &mut state.memory,
        &mut state.matcher.matcher,
        name.as_str(),
        input,
        &mut steps,
    )
}

/// The same with a count of its own.
fn report_one<B: Home<DecisionNet> + LexerHome, R: Wait>(
    rt: &R,
    alloc: Global,
    output: Output,
    grammar: &Grammar,
    store: &Store<B>,
    state: &mut WorkerState<'_, B>,
    name: &Text,
    input: Input,
) -> Result<FileReport, AllocError>
    requires own { grammar.now.lexer ≡ B.lexer }
    requires usable { IsUsable (with_net grammar.now B.plan.net.net) }
    requires small { IsSmall input }
    ensures report { IfOk result (IsFileReport output (with_net grammar.now B.plan.net.net) name.now input) }
    ensures taught { IfOk result (λ _. HasTaught B.plan (with_net grammar.now B.plan.net.net) input state.old.pass state.new.pass) }
{
    report_counted::<B, R, Brand>(
        rt,
        alloc,
        output,
        grammar,
        store,
        state,
        name,
        input,
        Blank::new(1),
    )
}

impl<
    'a,
    'm,
    B: Home<DecisionNet> + InputsHome + LexerHome + Send + Sync,
    R: Wait + Sync,
    G: Gate,
> Work<WorkerState<'m, B>, FileReport> for FileWork<'a, B, R, G> {
    ghost use Rattle.std.specs.Prelude.{length};
    ghost use Rattle.g4_pool.specs.Done.{HasDone};
    ghost use Rattle.g4_pool.specs.Files.{IsReportAt};

    ghost files = { λ work. length work.files.inputs };

    ghost is_outcome = { λ work. IsReportAt work.files };

    ghost has_done = { λ work numbers done state. HasDone B.plan work.files work.jobs numbers done state.pass };

    fn run(
        &self,
        state: &mut WorkerState<'m, B>,
        worker: u32,
        file: u32,
    ) -> Result<FileReport, AllocError> {
        let name = &self.names[file as usize];
        let input = copy_left(self.rt, self.alloc, self.inputs, file)?;
        self.gate.enter(worker, file);
        let report = report_one(
            self.rt,
            self.alloc,
            self.output,
            self.grammar,
            self.store,
            state,
            name,
            input,
        );
        self.gate.leave(worker, file);
        give_back(self.rt, self.inputs, file, report.is_ok());
        report
    }

    fn join(&self, state: &mut WorkerState<'m, B>, other: WorkerState<'m, B>) {
        let WorkerState { pass, .. } = other;
        self.store.meet(&mut state.pass, pass);
    }
}
