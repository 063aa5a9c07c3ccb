// Forward chaining. Each clause waits at its first need that does not follow yet. When this need follows, the clause looks
// for the next one from there on, so no need is passed twice.
ghost use Rattle.std.specs.Prelude.{◌≡◌, ◌<◌, ◌≤◌, ◌+◌, ◌++◌, ◌↔◌, ℕ, List, [], ◌∷◌, All, length, IfOk, OnOk, IfSome, OnSome, IfNone, IsTrue, vec_len};
ghost use Rattle.g4_horn.specs.declared.clause.Clause.{Clause as Definite};
ghost use Rattle.g4_horn.specs.declared.chaining.Wait.{Wait as Waiting};
ghost use Rattle.g4_horn.specs.Follows.{Follows, Tells};
ghost use Rattle.g4_horn.specs.Chaining.{Says, IsFirstOpen, IsUnderWay, IsReadied, IsAdded, IsAmong, IsWait, work_left};

use crate::Clause;
use std::alloc::{AllocError, Global};
use std::mem;

/// A clause, by its index, whose needs before the index `next` follow.
#[derive(Clone, Copy)]
struct Wait {
    clause: usize,
    next: usize,
}

/// What is known so far.
#[derive(Drop)]
struct Chaining {
    /// Of each number whether it follows.
    follows: Vec<bool>,
    /// Of each number which clauses wait for it.
    waiting: Vec<Vec<Wait>>,
    /// Numbers that follow and that clauses may still wait for.
    ready: Vec<u32>,
}

impl Chaining {
    /// No number below the count is known to follow.
    fn new(alloc: Global, count: usize) -> Result<Chaining, AllocError>
        ensures follows { IfOk result (λ c. (length c.follows.items ≡ count) × ((number : ℕ) → Says c.follows.items number → ⊥)) }
        ensures waiting { IfOk result (λ c. (length c.waiting.items ≡ count) × All (λ waits. waits.items ≡ []) c.waiting.items) }
        ensures ready { IfOk result (λ c. c.ready.items ≡ []) }
    {
        let follows = vec![in alloc; false; count]?;
        let mut waiting = Vec::with_capacity(alloc, count)?;
        for _ in 0..count {
            waiting.push(Vec::new(alloc))?;
        }
        Ok(Chaining {
            follows,
            waiting,
            ready: Vec::new(alloc),
        })
    }

    /// Whether the number is known to follow.
    fn says(&self, number: u32) -> bool
        ensures { IsTrue result ↔ Says self.now.follows.items number }
    {
        self.follows.get(number as usize).copied().unwrap_or(false)
    }

    /// The index, from this one on, of the first need that is not known to follow: how many needs there are, where each is.
    fn first_open(&self, needs: &[u32], from: usize) -> usize
        requires { from ≤ length needs.now }
        ensures { IsFirstOpen self.now.follows.items needs.now from result }
    {
        for index in from..needs.len() {
            if !self.says(needs[index]) {
                return index;
            }
        }
        needs.len()
    }

    /// The number follows.
    fn conclude(&mut self, number: u32) -> Result<(), AllocError>
        requires { number < length self.old.follows.items }
        ensures known { Says self.old.follows.items number → OnOk result (self.new ≡ self.old) }
        ensures readied { (Says self.old.follows.items number → ⊥) → OnOk result (IsReadied self.old number self.new) }
        ensures work { OnOk result (work_left self.new ≡ work_left self.old) }
        ensures count { length self.new.follows.items ≡ length self.old.follows.items }
    {
        if !self.says(number) {
            self.ready.push(number)?;
            self.follows[number as usize] = true;
        }
        Ok(())
    }

    /// The clause waits for the number: for ever, where this is past all numbers.
    fn wait_for(&mut self, number: u32, wait: Wait) -> Result<(), AllocError>
        ensures past { length self.old.waiting.items ≤ number → self.new ≡ self.old }
        ensures added { number < length self.old.waiting.items → OnOk result (IsAdded self.old number wait self.new) }
        ensures work { OnOk result (work_left self.new ≡ work_left self.old) }
        ensures count { length self.new.follows.items ≡ length self.old.follows.items }
    {
        if let Some(waits) = self.waiting.get_mut(number as usize) {
            waits.push(wait)?;
        }
        Ok(())
    }

    /// Looks for the next need that the clause has to wait for: where there is none, its head follows.
    fn advance(&mut self, clauses: &[Clause], wait: Wait) -> Result<(), AllocError>
        requires wait { IsWait clauses.now wait }
        requires heads { All (λ c. c.head < length self.old.follows.items) clauses.now }
        ensures under_way { (count : ℕ) (left : List Waiting) → IsUnderWay clauses.now count (wait ∷ left) self.old
            → OnOk result (IsUnderWay clauses.now count left self.new) }
        ensures work { OnOk result (work_left self.new ≡ work_left self.old) }
        ensures count { length self.new.follows.items ≡ length self.old.follows.items }
    {
        let clause = &clauses[wait.clause];
        let needs = clause.needs.as_slice();
        let next = self.first_open(needs, wait.next);
        if next < needs.len() {
            let clause = wait.clause;
            self.wait_for(needs[next], Wait { clause, next })?;
        } else {
            self.conclude(clause.head)?;
        }
        Ok(())
    }

    /// Looks for the next need of each of these clauses.
    fn advance_all(&mut self, clauses: &[Clause], waits: &[Wait]) -> Result<(), AllocError>
        requires waits { All (IsWait clauses.now) waits.now }
        requires heads { All (λ c. c.head < length self.old.follows.items) clauses.now }
        ensures under_way { (count : ℕ) → IsUnderWay clauses.now count waits.now self.old
            → OnOk result (IsUnderWay clauses.now count [] self.new) }
        ensures work { OnOk result (work_left self.new ≡ work_left self.old) }
        ensures count { length self.new.follows.items ≡ length self.old.follows.items }
    {
        for wait in waits {
            self.advance(clauses, *wait)?;
        }
        Ok(())
    }

    /// The clauses that wait for a number that follows, if there is such a number still.
    fn next_waits(&mut self, alloc: Global) -> Option<Vec<Wait>>
        requires { All (λ k. k < length self.old.waiting.items) self.old.ready.items }
        ensures under_way { IfSome result (λ waits. (clauses : List Definite) (count : ℕ) → IsUnderWay clauses count [] self.old
            → IsUnderWay clauses count waits.items self.new) }
        ensures work { OnSome result (work_left self.new + 1 ≡ work_left self.old) }
        ensures done { IfNone result (self.old.ready.items ≡ []) }
        ensures same { IfNone result (self.new.follows.items ≡ self.old.follows.items) }
        ensures count { length self.new.follows.items ≡ length self.old.follows.items }
    {
        let number = self.ready.pop()?;
        let waits = &mut self.waiting[number as usize];
        Some(mem::replace(waits, Vec::new(alloc)))
    }
}

/// Each clause at its first need.
fn first_waits(alloc: Global, clauses: &[Clause]) -> Result<Vec<Wait>, AllocError>
    ensures waits { IfOk result (λ waits. All (IsWait clauses.now) waits.items) }
    ensures each { IfOk result (λ waits. (k : ℕ) → k < length clauses.now → IsAmong waits.items k) }
{
    let mut waits = Vec::with_capacity(alloc, clauses.len())?;
    for clause in 0..clauses.len() {
        waits.push(Wait { clause, next: 0 })?;
    }
    Ok(waits)
}

/// Of each number below the count, whether it follows from the clauses. A need that is not below the count never follows.
///
/// # Errors
/// No memory.
pub fn consequences(alloc: Global, count: u32, clauses: &[Clause]) -> Result<Vec<bool>, AllocError>
    requires { All (λ c. c.head < count) clauses.now }
    ensures count { IfOk result (λ follows. vec_len follows ≡ count) }
    ensures follows { IfOk result (λ follows. Tells follows.items (Follows clauses.now)) }
{
    let mut chaining = Chaining::new(alloc, count as usize)?;
    let waits = first_waits(alloc, clauses)?;
    chaining.advance_all(clauses, waits.as_slice())?;
    while let Some(waits) = chaining.next_waits(alloc) {
        chaining.advance_all(clauses, waits.as_slice())?;
    }
    let Chaining { follows, .. } = chaining;
    Ok(follows)
}
