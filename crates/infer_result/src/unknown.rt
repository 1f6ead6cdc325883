//! Types in which `{unknown}` stands.
ghost use Rattle.std.specs.Prelude.{◌≡◌};
ghost use Rattle.std.specs.List.{list_any};
ghost use Rattle.std.specs.Option.{option_map};
ghost use Rattle.infer_result.specs.Words.{so_or_none};
ghost use Rattle.infer_result.specs.Own.{unknown_const, has_unknown, arg_has_unknown, bound_has_unknown, trait_has_unknown};

use hir_types::{AliasBound, Const, GenericArg, List, TraitRef, Ty};

/// Whether a const is `{unknown}`.
fn unknown_const(value: Const) -> bool
    ensures { result ≡ unknown_const value }
{
    match value {
        Const::Unknown => true,
        Const::Value(_) | Const::Param(_) | Const::Var(_) | Const::Hole => false,
    }
}

/// Whether `{unknown}`, a type or a const, stands in a type: `references_non_lt_error`.
#[cycle(unknown)]
#[tactic(auto, using(crate::specs::UnknownLayers::has_unknown_is))]
pub fn references_error(ty: &Ty) -> bool
    ensures { result ≡ has_unknown ty.now }
{
    match ty {
        Ty::Error => true,
        Ty::Tuple(tys) => any_unknown(tys),
        Ty::Array(ty, length) => references_error(ty.get()) || unknown_const(*length),
        Ty::Slice(ty) | Ty::Ref(_, _, ty) | Ty::RawPtr(_, ty) => references_error(ty.get()),
        Ty::Adt(_, args) | Ty::FnDef(_, args) => any_arg_unknown(args),
        Ty::Projection(_, args) | Ty::Opaque(_, args) => any_arg_unknown(args),
        Ty::AssociatedType(_, args) => any_arg_unknown(args),
        Ty::FnPtr { inputs, output, .. } | Ty::Closure { inputs, output, .. } => {
            any_unknown(inputs) || references_error(output.get())
        }
        Ty::Dynamic {
            principal,
            projections,
            ..
        } => principal_unknown(principal) || any_bound_unknown(projections),
        Ty::Bool | Ty::Char | Ty::Int(_) | Ty::Uint(_) | Ty::Float(_) | Ty::Str => false,
        Ty::Never | Ty::Param(_) | Ty::Var(_) | Ty::IntVar(_) | Ty::Hole => false,
    }
}

#[cycle(unknown)]
#[tactic(auto, using(crate::specs::UnknownLayers::has_unknown_is))]
fn arg_unknown(arg: &GenericArg) -> bool
    ensures { result ≡ arg_has_unknown arg.now }
{
    match arg {
        GenericArg::Ty(ty) => references_error(ty),
        GenericArg::Const(value) => unknown_const(*value),
    }
}

#[cycle(unknown)]
#[tactic(auto, using(crate::specs::UnknownLayers::has_unknown_is))]
fn principal_unknown(principal: &Option<TraitRef>) -> bool
    ensures { result ≡ so_or_none (option_map trait_has_unknown principal.now) }
{
    match principal {
        None => false,
        Some(principal) => any_arg_unknown(&principal.args),
    }
}

#[cycle(unknown)]
fn any_unknown(tys: &List<Ty>) -> bool
    ensures { result ≡ list_any has_unknown tys.now }
{
    for ty in tys.as_slice() {
        if references_error(ty) {
            return true;
        }
    }
    false
}

#[cycle(unknown)]
fn any_arg_unknown(args: &List<GenericArg>) -> bool
    ensures { result ≡ list_any arg_has_unknown args.now }
{
    for arg in args.as_slice() {
        if arg_unknown(arg) {
            return true;
        }
    }
    false
}

#[cycle(unknown)]
#[tactic(auto, using(crate::specs::UnknownLayers::has_unknown_is))]
fn any_bound_unknown(bounds: &List<AliasBound>) -> bool
    ensures { result ≡ list_any bound_has_unknown bounds.now }
{
    for bound in bounds.as_slice() {
        if references_error(&bound.ty) {
            return true;
        }
    }
    false
}
