// The numbers of alternatives that are written at the states of a parser's rules, the added one among them.
ghost use Rattle.std.specs.Prelude.{◌<◌, ◌+◌, ◌*◌, ◌^◌, ◌∷◌, IfOk, length};
ghost use Rattle.g4_layout.specs.Numbers.{added_numbering};
ghost use Rattle.g4_states.specs.Numberings.{CanAllBeNumbered};
ghost use Rattle.g4_build.specs.Numberings.{AllAreWritten};

use g4_base::Sequence;
use g4_grammar::Numbering;
use g4_net::State;
use g4_states::{number_rule, number_rules, zeros};
use std::alloc::{AllocError, Global};

/// The numbers at all states of rules with these numberings, the added rule being the first: the states of each rule but for
/// its start and end are those up to its end among these.
pub fn numbers<L>(
    alloc: Global,
    states: &[State<L>],
    ends: &[u32],
    numberings: &[Numbering],
) -> Result<Vec<u32>, AllocError>
    requires fit { CanAllBeNumbered states.now 0 (2 * length numberings.now + 2) ((2 * length numberings.now + 7) ∷ ends.now)
        (added_numbering ∷ numberings.now) }
    requires few { length states.now < 2 ^ 32 }
    ensures { IfOk result (λ written. AllAreWritten states.now written.items (2 * length numberings.now + 2)
        ((2 * length numberings.now + 7) ∷ ends.now) (added_numbering ∷ numberings.now)) }
{
    let heads = 2 * numberings.len() + 2;
    let added = Numbering {
        starts: Sequence::new(vec![in alloc; 1]?),
        count: 1,
    };
    let mut written = zeros(alloc, heads)?;
    number_rule(&mut written, states, 0, heads as u32 + 5, &added)?;
    number_rules(&mut written, states, 1, ends, numberings)?;
    Ok(written)
}
