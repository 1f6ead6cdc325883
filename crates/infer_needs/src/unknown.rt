//! Whether `{unknown}` stands in a goal, or in arguments.
ghost use Rattle.std.specs.Prelude.{◌↔◌, IsTrue, IfOk, map};
ghost use Rattle.infer_needs.specs.Words.{leaf, term_of, asked_goal, HoldsUnknown, arg_term, chain};

use goal_terms::{Term, args_term, type_term};
use hir_facts::{GenericArg, Goal, List};
use hir_types::Head;
use std::alloc::{AllocError, Global};

fn is_unknown(head: Head) -> bool
    ensures { IsTrue result ↔ HoldsUnknown (leaf head) }
{
    match head {
        Head::Error | Head::UnknownConst => true,
        _ => false,
    }
}

/// Whether it stands in a term.
#[tactic(auto, using(crate::specs::Words::term_is))]
fn stands_in(term: &Term) -> bool
    ensures { IsTrue result ↔ HoldsUnknown (term_of term.now) }
{
    match term {
        Term::Hole(_) => false,
        Term::Leaf(head) => is_unknown(*head),
        Term::Pair(left, right) => stands_in(left.get()) || stands_in(right.get()),
    }
}

/// Whether `{unknown}`, as a type or a const, stands in one of these arguments.
pub fn args_hold_unknown(alloc: Global, args: &List<GenericArg>) -> Result<bool, AllocError>
    ensures { IfOk result (λ yes. IsTrue yes ↔ HoldsUnknown (chain (map arg_term args.now))) }
{
    let args = args_term(alloc, args)?;
    Ok(stands_in(&args))
}

/// Whether it stands in a goal.
pub fn holds_unknown(alloc: Global, goal: &Goal) -> Result<bool, AllocError>
    ensures { IfOk result (λ yes. IsTrue yes ↔ HoldsUnknown (asked_goal goal.now).parts) }
{
    match goal {
        Goal::Trait(trait_ref) => {
            let args = args_term(alloc, &trait_ref.args)?;
            Ok(stands_in(&args))
        }
        Goal::Projection { alias: _, args, ty } => {
            let args = args_term(alloc, args)?;
            let ty = type_term(alloc, ty)?;
            Ok(stands_in(&args) || stands_in(&ty))
        }
    }
}
