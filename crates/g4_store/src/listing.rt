// The automaton as it stands at the end.
ghost use Rattle.std.specs.Prelude.{◌≡◌, ◌≢◌, ℕ, ◌+◌, ◌<◌, ◌≤◌, true, false, [], ◌∷◌, ◌++◌, IfOk, vec_len, vec_capacity};
ghost use Rattle.std.specs.Mem.Slots.{slots_items, slots_len, IsFull};
ghost use Rattle.g4_store.specs.Numbers.{Among, has};
ghost use Rattle.g4_store.specs.Words.{size_of};
ghost use Rattle.g4_store.specs.Views.{IsIdle};
ghost use Rattle.g4_store.specs.Closing.{Closes};

use crate::automaton::{Automaton, Content, Plan};
use crate::bench::Bench;
use crate::board::Board;
use crate::view::{Home, Place};
use atomic_table::Closed;
use std::alloc::Global;

/// The automaton as it stood when the store was closed: its rows, and the words by the plan.
#[derive(Drop)]
pub struct Listing<N: Drop, C: Drop> {
    pub plan: Plan<N>,
    pub rows: Vec<C>,
    pub words: Vec<u64>,
}

/// There is room.
fn push_word(words: &mut Vec<u64>, word: u64)
    requires { vec_len words.old < vec_capacity words.old }
    ensures { (words.new.items ≡ words.old.items ++ word ∷ []) × (vec_capacity words.old ≤ vec_capacity words.new)
        × (vec_len words.new ≡ vec_len words.old + 1) }
{
    let Ok(()) = words.push(word) else {
        unreachable!()
    };
}

fn words_of(mut words: Vec<u64>, closed: &Closed<(), Global>, size: usize) -> Vec<u64>
    requires full { IsFull closed.now.words × (slots_len closed.now.words ≡ size) }
    requires room { (words.items ≡ []) × (vec_len words ≡ 0) × (size ≤ vec_capacity words) }
    ensures { result.items ≡ slots_items closed.now.words }
{
    for i in 0..size {
        push_word(&mut words, closed.word(i));
    }
    words
}

/// Closes the table, with a last guest at the bench. All memory was taken before.
pub(crate) fn finish<N: Drop, C: Content + Drop, A: Automaton<N, C>, B: Home<N>>(
    board: Board<N, C, A, B>,
    mut bench: Bench<N, C, B>,
    guest: Place<C>,
    words: Vec<u64>,
) -> Listing<N, C>
    requires idle { IsIdle bench }
    requires guest { (guest.table_id ≡ B.table) × (guest.me.1 ≡ []) × (guest.me.0.spent ≡ false) }
    requires room { (words.items ≡ []) × (vec_len words ≡ 0) × (size_of B.plan ≤ vec_capacity words) }
    ensures plan { result.plan ≡ B.plan }
    ensures closes { Closes A.starts A.leads B.plan guest.me.0 result.words.items result.rows.items }
{
    let size = board.size();
    bench.host(&board, guest);
    let Bench {
        seat,
        rows,
        home: _,
    } = bench;
    let Board {
        plan,
        table,
        home: _,
    } = board;
    let closed = table.close_with(seat);
    let words = words_of(words, &closed, size);
    closed.free();
    Listing {
        plan,
        rows: rows.into_contents(),
        words,
    }
}
