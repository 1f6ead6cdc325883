//! What stands for the parameters of an impl, as types.
ghost use Rattle.std.specs.Prelude.{◌≡◌, IfOk};
ghost use Rattle.goal_prove.specs.Words.{log_of, term_of};
ghost use Rattle.hir_types.specs.declared.head.Hole.TheVariants as hole_of;
ghost use Rattle.goal_prove.specs.Own.{type_or_unknown, fill_args, told_fill};

use goal_terms::{Binding, Term, find, stands_in, term_type};
use hir_facts::{GenericArg, List, Ty};
use hir_types::Hole;
use std::alloc::{AllocError, Global};

/// The type that stands for a parameter, or `{unknown}` where its hole doesn't stand in the head.
fn fill_type(alloc: Global, fills: &[Binding], head: &Term, number: usize) -> Result<Ty, AllocError>
    ensures { IfOk result (λ made. made ≡ type_or_unknown (told_fill (log_of fills.now) (term_of head.now) (hole_of.Ty number))) }
{
    let hole = Hole::Ty(number);
    if !stands_in(hole, head) {
        return Ok(Ty::Error);
    }
    match find(fills, hole) {
        Some(term) => term_type(alloc, term),
        None => Ok(Ty::Error),
    }
}

/// What stands for each of so many parameters in the head.
pub fn fill_args(
    alloc: Global,
    fills: &[Binding],
    head: &Term,
    count: usize,
) -> Result<List<GenericArg>, AllocError>
    ensures { IfOk result (λ made. made ≡ fill_args (log_of fills.now) (term_of head.now) count) }
{
    let mut args = List::new(alloc);
    for number in 0..count {
        let ty = fill_type(alloc, fills, head, number)?;
        args.push(GenericArg::Ty(ty))?;
    }
    Ok(args)
}
