//! Goals of inference, as the search has them.
ghost use Rattle.std.specs.Prelude.{◌≡◌, IfOk};
ghost use Rattle.goal_facts.specs.Words.{term_of, HasHeads, asked_of};
ghost use Rattle.goal_facts.specs.Own.{asked_goal};

use goal_search::{Asked, Kind};
use goal_terms::{Term, args_term, type_term};
use hir_facts::Goal;
use std::alloc::{AllocError, Global};

/// A goal as the search has it. Its holes stay.
pub fn asked(alloc: Global, goal: &Goal) -> Result<Asked, AllocError>
    ensures is { IfOk result (λ made. asked_of made ≡ asked_goal goal.now) }
    ensures heads { IfOk result (λ made. HasHeads (term_of made.parts)) }
{
    match goal {
        Goal::Trait(trait_ref) => Ok(Asked {
            kind: Kind::Implements(trait_ref.id),
            parts: args_term(alloc, &trait_ref.args)?,
        }),
        Goal::Projection { alias, args, ty } => {
            let args = args_term(alloc, args)?;
            let ty = type_term(alloc, ty)?;
            Ok(Asked {
                kind: Kind::Projects(*alias),
                parts: Term::join(alloc, args, ty)?,
            })
        }
    }
}
