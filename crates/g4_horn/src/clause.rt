// Definite clauses.

/// A definite clause: its head follows where all its needs follow. A need may be repeated.
#[derive(Drop)]
pub struct Clause {
    pub head: u32,
    pub needs: Vec<u32>,
}
