//! Written types and goals as terms, at arguments for the parameters in scope.
ghost use Rattle.std.specs.Prelude.{◌≡◌, ◌++◌, ◌∷◌, IfOk, OnOk};
ghost use Rattle.goal_facts.specs.Words.{term_of, IsHead, HasHeads, asked_of};
ghost use Rattle.goal_facts.specs.Own.{holes, own_params, instance, instances, type_at, args_at, goal_types, goal_with, goal_at};

use goal_search::{Asked, Kind};
use goal_terms::{Term, args_term, type_term};
use hir_facts::{Facts, GenericArg, List, RawGoal, Ty, TypeRefId, instantiate, lower_ty};
use std::alloc::{AllocError, Global};

/// A hole for each parameter.
pub fn holes(alloc: Global, count: usize) -> Result<List<GenericArg>, AllocError>
    ensures { IfOk result (λ made. made ≡ holes count) }
{
    let mut made = List::new(alloc);
    for number in 0..count {
        made.push(GenericArg::Ty(Ty::Var(number)))?;
    }
    Ok(made)
}

/// Each parameter by itself.
pub fn own_params(alloc: Global, count: usize) -> Result<List<GenericArg>, AllocError>
    ensures { IfOk result (λ made. made ≡ own_params count) }
{
    let mut made = List::new(alloc);
    for number in 0..count {
        // No list of so many parameters is in memory.
        let number = u32::try_from(number).map_err(|_| AllocError)?;
        made.push(GenericArg::Ty(Ty::Param(number)))?;
    }
    Ok(made)
}

pub fn instance(
    alloc: Global,
    facts: &Facts,
    args: &List<GenericArg>,
    ty: TypeRefId,
) -> Result<Ty, AllocError>
    ensures { IfOk result (λ made. made ≡ instance facts.now args.now ty) }
{
    let ty = lower_ty(alloc, facts, ty)?;
    instantiate(alloc, &ty, args)
}

pub fn push_instances(
    alloc: Global,
    facts: &Facts,
    args: &List<GenericArg>,
    tys: &[TypeRefId],
    made: &mut List<GenericArg>,
) -> Result<(), AllocError>
    ensures { OnOk result (made.new ≡ made.old ++ instances facts.now args.now tys.now) }
{
    for ty in tys {
        let ty = instance(alloc, facts, args, *ty)?;
        made.push(GenericArg::Ty(ty))?;
    }
    Ok(())
}

/// A written type.
pub fn type_at(
    alloc: Global,
    facts: &Facts,
    args: &List<GenericArg>,
    ty: TypeRefId,
) -> Result<Term, AllocError>
    ensures is { IfOk result (λ made. term_of made ≡ type_at facts.now args.now ty) }
    ensures heads { IfOk result (λ made. HasHeads (term_of made)) }
{
    let ty = instance(alloc, facts, args, ty)?;
    type_term(alloc, &ty)
}

/// Written arguments.
pub fn args_at(
    alloc: Global,
    facts: &Facts,
    args: &List<GenericArg>,
    tys: &[TypeRefId],
) -> Result<Term, AllocError>
    ensures is { IfOk result (λ made. term_of made ≡ args_at facts.now args.now tys.now) }
    ensures head { IfOk result (λ made. IsHead (term_of made)) }
    ensures heads { IfOk result (λ made. HasHeads (term_of made)) }
{
    let mut made = List::new(alloc);
    push_instances(alloc, facts, args, tys, &mut made)?;
    args_term(alloc, &made)
}

/// Written arguments, the first by itself.
pub fn args_after(
    alloc: Global,
    facts: &Facts,
    args: &List<GenericArg>,
    first: TypeRefId,
    rest: &[TypeRefId],
) -> Result<Term, AllocError>
    ensures is { IfOk result (λ made. term_of made ≡ args_at facts.now args.now (first ∷ rest.now)) }
    ensures head { IfOk result (λ made. IsHead (term_of made)) }
    ensures heads { IfOk result (λ made. HasHeads (term_of made)) }
{
    let mut made = List::new(alloc);
    made.push(GenericArg::Ty(instance(alloc, facts, args, first)?))?;
    push_instances(alloc, facts, args, rest, &mut made)?;
    args_term(alloc, &made)
}

/// The types that a goal is about, the self type first.
pub fn goal_types(goal: &RawGoal) -> &[TypeRefId]
    ensures { result.now ≡ goal_types goal.now }
{
    match goal {
        RawGoal::Trait(trait_ref) => trait_ref.args.types(),
        RawGoal::Projection {
            alias: _,
            args,
            ty: _,
        } => args.types(),
    }
}

/// A written goal with these arguments in the place of its own.
pub fn goal_with(
    alloc: Global,
    facts: &Facts,
    args: &List<GenericArg>,
    goal: &RawGoal,
    parts: Term,
) -> Result<Asked, AllocError>
    requires head { IsHead (term_of parts) }
    requires heads { HasHeads (term_of parts) }
    ensures is { IfOk result (λ made. asked_of made ≡ goal_with facts.now args.now goal.now (term_of parts)) }
    ensures heads { IfOk result (λ made. HasHeads (term_of made.parts)) }
{
    match goal {
        RawGoal::Trait(trait_ref) => Ok(Asked {
            kind: Kind::Implements(trait_ref.trait_),
            parts,
        }),
        RawGoal::Projection { alias, args: _, ty } => {
            let ty = type_at(alloc, facts, args, *ty)?;
            Ok(Asked {
                kind: Kind::Projects(*alias),
                parts: Term::join(alloc, parts, ty)?,
            })
        }
    }
}

/// A written goal.
pub fn goal_at(
    alloc: Global,
    facts: &Facts,
    args: &List<GenericArg>,
    goal: &RawGoal,
) -> Result<Asked, AllocError>
    ensures is { IfOk result (λ made. asked_of made ≡ goal_at facts.now args.now goal.now) }
    ensures heads { IfOk result (λ made. HasHeads (term_of made.parts)) }
{
    let parts = args_at(alloc, facts, args, goal_types(goal))?;
    goal_with(alloc, facts, args, goal, parts)
}
