// What a worker has of its own.
ghost use Rattle.std.specs.Prelude.{◌≡◌, ◌+◌, ℕ, IfOk, length, map};
ghost use Rattle.g4_pool.specs.Files.{copy_of, first_copies, first_pass};

use crate::lexer_home::{LexerHome, OwnMatcher};
use g4_full::Memory;
use g4_learned::{DecisionNet, Pass, Store};
use g4_store::view::Home;
use std::alloc::{AllocError, Global};

/// What a worker has of its own, for all of its files: its pass of the store, the steps of framed sets that it remembers, and the matcher
/// of its tokens, which learns the lexer's lists.
#[derive(Drop)]
pub struct WorkerState<'a, B: Home<DecisionNet> + LexerHome> {
    pub pass: Pass<B>,
    pub memory: Memory<B>,
    pub matcher: OwnMatcher<'a, B>,
}

/// A pass that has seen as much as this one, which goes on to lead.
fn copy_pass<B: Home<DecisionNet>>(store: &Store<B>, pass: &mut Pass<B>) -> Pass<B>
    requires { (n : ℕ) × (pass.old ≡ first_pass n) }
    ensures copy { (n : ℕ) → pass.old ≡ first_pass n → result ≡ copy_of n }
    ensures leads { (n : ℕ) → pass.old ≡ first_pass n → pass.new ≡ first_pass (n + 1) }
{
    store.copy_pass(pass)
}

/// So many states, whose passes are the first copies of this one, and which remember nothing.
pub fn new_states<'a, B: Home<DecisionNet> + LexerHome>(
    alloc: Global,
    store: &Store<B>,
    pass: &mut Pass<B>,
    matcher: &OwnMatcher<'a, B>,
    jobs: u32,
) -> Result<Vec<WorkerState<'a, B>>, AllocError>
    requires first { pass.old ≡ first_pass 1 }
    ensures long { IfOk result (λ states. length states.items ≡ jobs) }
    ensures copies { IfOk result (λ states. map (λ s. s.pass) states.items ≡ first_copies jobs) }
    ensures leads { IfOk result (λ _. pass.new ≡ first_pass (jobs + 1)) }
{
    let mut states = Vec::new(alloc);
    for _ in 0..jobs {
        let matcher = matcher.another(alloc)?;
        states.push(WorkerState {
            pass: copy_pass(store, pass),
            memory: Memory::new(alloc),
            matcher,
        })?;
    }
    Ok(states)
}
