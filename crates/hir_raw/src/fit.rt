//! Types that name what the facts have.
ghost use Rattle.std.specs.Prelude.{◌≡◌};
ghost use Rattle.std.specs.List.{list_all};
ghost use Rattle.hir_raw.specs.Own.{types_scope, const_fits, names_none, ty_fits, arg_fits};

use crate::raw::RawFacts;
use crate::scope::{adt_params, alias_params, callable_has_params, has_params};
use hir_types::{AliasBound, Const, GenericArg, List, TraitId, TraitRef, Ty};

fn const_fits(value: Const) -> bool
    ensures { result ≡ const_fits value }
{
    match value {
        Const::Param(_) => false,
        Const::Value(_) | Const::Unknown | Const::Var(_) | Const::Hole => true,
    }
}

fn names_none(
    principal: &Option<TraitRef>,
    projections: &List<AliasBound>,
    auto_traits: &List<TraitId>,
) -> bool
    ensures { result ≡ names_none principal.now projections.now auto_traits.now }
{
    principal.is_none() && projections.is_empty() && auto_traits.is_empty()
}

/// Whether each id other than a closure's and each parameter in a type is in range, under this many
/// parameters, and the arguments of adts, function items and associated types are as many as their
/// parameters. The facts carry no opaque types and no object types that name traits yet, so none fits.
#[cycle(fit)]
#[tactic(auto, using(crate::specs::Fitting::ty_fits_is))]
pub fn ty_fits(raw: &RawFacts, params: usize, ty: &Ty) -> bool
    ensures { result ≡ ty_fits (types_scope raw.now params) ty.now }
{
    match ty {
        Ty::Tuple(tys) => all_fit(raw, params, tys),
        Ty::Array(ty, length) => ty_fits(raw, params, ty.get()) && const_fits(*length),
        Ty::Slice(ty) | Ty::Ref(_, _, ty) | Ty::RawPtr(_, ty) => ty_fits(raw, params, ty.get()),
        Ty::Adt(id, args) => {
            has_params(adt_params(raw, *id), args.len()) && args_fit(raw, params, args)
        }
        Ty::FnDef(id, args) => {
            callable_has_params(raw, *id, args.len()) && args_fit(raw, params, args)
        }
        Ty::Projection(id, args) | Ty::AssociatedType(id, args) => {
            has_params(alias_params(raw, *id), args.len()) && args_fit(raw, params, args)
        }
        Ty::FnPtr { inputs, output, .. } | Ty::Closure { inputs, output, .. } => {
            all_fit(raw, params, inputs) && ty_fits(raw, params, output.get())
        }
        Ty::Dynamic {
            principal,
            projections,
            auto_traits,
        } => names_none(principal, projections, auto_traits),
        Ty::Param(number) => (*number as usize) < params,
        Ty::Opaque(..) => false,
        Ty::Bool | Ty::Char | Ty::Int(_) | Ty::Uint(_) | Ty::Float(_) | Ty::Str | Ty::Never => true,
        Ty::Error | Ty::Var(_) | Ty::IntVar(_) | Ty::Hole => true,
    }
}

#[cycle(fit)]
#[tactic(auto, using(crate::specs::Fitting::ty_fits_is))]
fn arg_fits(raw: &RawFacts, params: usize, arg: &GenericArg) -> bool
    ensures { result ≡ arg_fits (types_scope raw.now params) arg.now }
{
    match arg {
        GenericArg::Ty(ty) => ty_fits(raw, params, ty),
        GenericArg::Const(_) => false,
    }
}

#[cycle(fit)]
fn all_fit(raw: &RawFacts, params: usize, tys: &List<Ty>) -> bool
    ensures { result ≡ list_all (ty_fits (types_scope raw.now params)) tys.now }
{
    for ty in tys.as_slice() {
        if !ty_fits(raw, params, ty) {
            return false;
        }
    }
    true
}

#[cycle(fit)]
fn args_fit(raw: &RawFacts, params: usize, args: &List<GenericArg>) -> bool
    ensures { result ≡ list_all (arg_fits (types_scope raw.now params)) args.now }
{
    for arg in args.as_slice() {
        if !arg_fits(raw, params, arg) {
            return false;
        }
    }
    true
}
