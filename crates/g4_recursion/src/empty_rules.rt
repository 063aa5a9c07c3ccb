// Which rules derive the empty word.
ghost use Rattle.std.specs.Prelude.{◌≡◌, IfOk, length, vec_len};
ghost use Rattle.g4_horn.specs.Follows.{Tells};
ghost use Rattle.g4_recursion.specs.Leads.{IsNullableRule, trees_of};

use crate::LeadRule;
use crate::clauses::bodies_of;
use g4_horn::consequences;
use std::alloc::{AllocError, Global};

/// Of each rule, whether it derives the empty word.
///
/// # Errors
/// No memory, also where rules and blocks are more than numbers of 32 bits.
pub fn nullable(alloc: Global, rules: &[LeadRule]) -> Result<Vec<bool>, AllocError>
    ensures count { IfOk result (λ answers. vec_len answers ≡ length rules.now) }
    ensures nullable { IfOk result (λ answers. Tells answers.items (IsNullableRule (trees_of rules.now))) }
{
    let bodies = bodies_of(alloc, rules)?;
    let mut answers = consequences(alloc, bodies.count, bodies.clauses.as_slice())?;
    answers.truncate(rules.len());
    Ok(answers)
}
