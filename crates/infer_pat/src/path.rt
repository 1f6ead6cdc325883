//! The types of paths.
ghost use Rattle.std.specs.Prelude.{IfOk};
ghost use Rattle.infer_pat.specs.Words.hir_raw.declared.raw.RawPath.TheVariants as path;
ghost use Rattle.infer_pat.specs.Words.{IsOfBody, IsSound, given_of, scope_in, TellsRecorded, IsVariant};
ghost use Rattle.infer_pat.specs.Own.{NamesTyped, PathDone, AreFreshArgs};

use hir_facts::{List, RawCtor, RawPath, Ty, VariantId, fn_arity, variant_arity};
use hir_types::{CallableDefId, GenericArg};
use infer_ctx::{GivenBody, InferenceContext};
use std::alloc::{AllocError, Global};

/// The type of a path: that of the local that it names, or of the function or the constructor at
/// new holes: `infer/expr.rs`, `infer_expr_path`.
pub fn infer_expr_path(
    alloc: Global,
    context: &mut InferenceContext,
    given: &GivenBody,
    path: RawPath,
) -> Result<Ty, AllocError>
    requires of_body { IsOfBody given.now.body.now context.old.result }
    requires sound { IsSound (scope_in given.now) context.old }
    requires told { TellsRecorded (given_of given.now) context.old.result }
    requires names { NamesTyped (given_of given.now) context.old.result path }
    ensures { IfOk result (λ ty. PathDone (given_of given.now) path ty context.old context.new) }
{
    match path {
        RawPath::Local(binding) => match context.result.type_of_binding(binding) {
            Some(ty) => {
                let ty = ty.dup(alloc)?;
                Ok(ty)
            }
            None => unreachable!(),
        },
        RawPath::Function(function) => {
            let item = given.facts.fn_(function);
            let params = fn_arity(alloc, given.facts.types(), item)?;
            let args = fresh_args_for_item(alloc, context, given, params)?;
            Ok(Ty::FnDef(CallableDefId::FunctionId(function), args))
        }
        RawPath::Ctor(variant) => {
            let ty = infer_ctor_path(alloc, context, given, variant)?;
            Ok(ty)
        }
    }
}

/// The type of a path to a constructor at new holes for its parameters, those of its adt and one for each associated type in its fields:
/// without fields a value of the adt, else an item that can be called: `infer/path.rs`, `infer_path`.
fn infer_ctor_path(
    alloc: Global,
    context: &mut InferenceContext,
    given: &GivenBody,
    variant: VariantId,
) -> Result<Ty, AllocError>
    requires sound { IsSound (scope_in given.now) context.old }
    requires named { IsVariant given.now.facts.now variant }
    ensures { IfOk result (λ ty. PathDone (given_of given.now) (path.Ctor variant) ty context.old context.new) }
{
    let item = given.facts.variant(variant);
    let params = given.facts.adt(item.adt).params.len();
    let arity = variant_arity(alloc, given.facts.types(), item, params)?;
    let args = fresh_args_for_item(alloc, context, given, arity)?;
    match item.ctor {
        RawCtor::Unit => Ok(Ty::Adt(item.adt, args)),
        RawCtor::Tuple => Ok(Ty::FnDef(CallableDefId::VariantId(variant), args)),
        RawCtor::Record => unreachable!(),
    }
}

/// New holes in the place of an item's parameters, of which there are so many: `infer/unify.rs`,
/// `fresh_args_for_item`.
pub fn fresh_args_for_item(
    alloc: Global,
    context: &mut InferenceContext,
    given: &GivenBody,
    count: usize,
) -> Result<List<GenericArg>, AllocError>
    requires sound { IsSound (scope_in given.now) context.old }
    ensures { IfOk result (λ args. AreFreshArgs (scope_in given.now) count args context.old context.new) }
{
    let mut args = List::new(alloc);
    for _ in 0..count {
        let ty = context.goals.table.next_ty_var()?;
        args.push(GenericArg::Ty(ty))?;
    }
    Ok(args)
}
