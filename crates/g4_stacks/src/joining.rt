// A merge that is not finished.
ghost use Rattle.std.specs.Prelude.{◌≡◌, ◌∷◌, [], ◌++◌, IfOk};

use std::alloc::{AllocError, Global};

/// The two nodes, how far down each list of tops, the tops found so far, and the state that both have at which a merge
/// of lower nodes is waited for.
#[derive(Drop)]
pub struct Joining {
    pub left: u32,
    pub right: u32,
    pub i: usize,
    pub j: usize,
    pub tops: Vec<(u32, u32)>,
    pub state: u32,
}

impl Joining {
    /// A merge that begins.
    pub fn new(alloc: Global, left: u32, right: u32) -> Joining
        ensures left { result.left ≡ left }
        ensures right { result.right ≡ right }
        ensures first { (result.i ≡ 0) × (result.j ≡ 0) }
        ensures none { result.tops.items ≡ [] }
    {
        Joining {
            left,
            right,
            i: 0,
            j: 0,
            tops: Vec::new(alloc),
            state: 0,
        }
    }

    /// The merge once the rests of the state that was waited for are there.
    pub fn resumed(self, rests: u32) -> Result<Joining, AllocError>
        ensures left { IfOk result (λ d. d.left ≡ self.left) }
        ensures right { IfOk result (λ d. d.right ≡ self.right) }
        ensures places { IfOk result (λ d. (d.i ≡ self.i) × (d.j ≡ self.j)) }
        ensures more { IfOk result (λ d. d.tops.items ≡ self.tops.items ++ (self.state, rests) ∷ []) }
    {
        let mut open = self;
        open.tops.push((open.state, rests))?;
        Ok(open)
    }
}
