// The pool: all files of a run.
ghost use Rattle.std.specs.Prelude.{◌≡◌, ◌<◌, ◌≤◌, All, IfOk, length, true};
ghost use Rattle.g4_load.specs.Usable.{IsUsable};
ghost use Rattle.g4_outcome.specs.Grammars.{with_net};
ghost use Rattle.g4_outcome.specs.Inputs.{IsSmall};
ghost use Rattle.g4_pool.specs.Files.{AreReports, files_of, first_pass};
ghost use Rattle.g4_pool.specs.Learned.{HasLearned};

use crate::file_work::FileWork;
use crate::inputs_left::{InputsHome, InputsLeft};
use crate::lexer_home::LexerHome;
use crate::worker_state::{WorkerState, new_states};
use g4_base::Text;
use g4_learned::{DecisionNet, Store};
use g4_outcome::{FileReport, Grammar, Input};
use g4_ports::Gate;
use g4_store::view::Home;
use g4_words::Output;
use g4_workers::{Finished, run_all};
use std::alloc::{AllocError, Global};
use std::sync::{Mutex, Wait};
use std::thread::Threads;

/// What is reported of each file, in the order of the files, by so many workers at once. Each has a copy of the caller's pass, and what one
/// has learned serves the others. It makes no difference to a report which worker parsed the file, nor what others had learned then. A
/// worker enters and leaves the gate once for each file that it parses. What no worker came to, for want of memory, is parsed by the
/// caller. The memory of a file's content is given back once its report is made. In the end the caller's pass has what all have learned,
/// unless a worker had no memory for a report.
///
/// # Errors
/// No memory.
pub fn parse_all<
    'a,
    B: Home<DecisionNet> + InputsHome + LexerHome + Send + Sync,
    R: Threads + Wait + Sync,
    G: Gate,
>(
    rt: &R,
    alloc: Global,
    output: Output,
    grammar: &Grammar,
    store: &Store<B>,
    state: &mut WorkerState<'a, B>,
    names: &[Text],
    inputs: Vec<Input>,
    jobs: u32,
    gate: &G,
) -> Result<Finished<FileReport>, AllocError>
    requires first { state.old.pass ≡ first_pass 1 }
    requires own { (grammar.now.lexer ≡ B.lexer) × (inputs.items ≡ B.inputs) }
    requires usable { IsUsable (with_net grammar.now B.plan.net.net) }
    requires small { All IsSmall inputs.items }
    requires paired { length names.now ≡ length inputs.items }
    requires few { length inputs.items ≤ 4096 }
    requires jobs { (0 < jobs) × (jobs ≤ 64) }
    ensures reports { IfOk result (λ r.
        AreReports (files_of output (with_net grammar.now B.plan.net.net) names.now inputs.items) r.outcomes.items) }
    ensures learned { IfOk result (λ r. r.complete ≡ true
        → HasLearned B.plan (files_of output (with_net grammar.now B.plan.net.net) names.now inputs.items) state.new.pass) }
{
    let states = new_states(alloc, store, &mut state.pass, &state.matcher, jobs)?;
    let files = inputs.len() as u32;
    let left = Mutex::new(InputsLeft::new(alloc, inputs)?);
    let work = FileWork {
        rt,
        alloc,
        output,
        grammar,
        store,
        names,
        inputs: &left,
        gate,
        jobs,
    };
    let finished = run_all(rt, alloc, &work, files, state, states)?;
    Ok(finished)
}
