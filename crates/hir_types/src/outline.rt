//! What stands outermost in a type, and its parts.
ghost use Rattle.std.specs.Prelude.{◌≡◌, ◌++◌, ◌∷◌, [], map, IfOk, OnOk, option_map};
ghost use Rattle.std.specs.List.{flat_map};
ghost use Rattle.hir_types.specs.declared.head.Head.TheVariants as head;
ghost use Rattle.hir_types.specs.Own.{term, node, type_part, const_part, arg_term, trait_parts, bound_parts, principal_parts, auto_parts, parts_of_types, part_term, part_terms, outline_term};

use crate::head::{Head, Hole};
use crate::ids::TraitId;
use crate::list::List;
use crate::ty::{AliasBound, Const, GenericArg, TraitRef, Ty};
use std::alloc::{AllocError, Global};

/// A part of a type: a type or a const in it, or a mark between the parts.
#[derive(Clone, Copy, Debug)]
pub enum OutlinePart<'a> {
    Ty(&'a Ty),
    Const(Const),
    Mark(Head),
}

/// What stands outermost in a type with its parts in order, or the hole that it is.
#[derive(Debug, Drop)]
pub enum Outline<'a> {
    Hole(Hole),
    Node(Head, Vec<OutlinePart<'a>>),
}

fn leaf<'a>(alloc: Global, head: Head) -> Outline<'a>
    ensures { outline_term result ≡ node head [] }
{
    Outline::Node(head, Vec::new(alloc))
}

fn over<'a>(alloc: Global, head: Head, ty: &'a Ty) -> Result<Outline<'a>, AllocError>
    ensures { IfOk result (λ o. outline_term o ≡ node head (type_part (term ty.now) ∷ [])) }
{
    let mut parts = Vec::new(alloc);
    parts.push(OutlinePart::Ty(ty))?;
    Ok(Outline::Node(head, parts))
}

fn push_types<'a>(parts: &mut Vec<OutlinePart<'a>>, tys: &'a List<Ty>) -> Result<(), AllocError>
    ensures { OnOk result (part_terms parts.new.items ≡ part_terms parts.old.items ++ parts_of_types tys.now) }
{
    for ty in tys.as_slice() {
        parts.push(OutlinePart::Ty(ty))?;
    }
    Ok(())
}

#[tactic(auto, using(crate::specs::TermLaws::term_is))]
fn part_of<'a>(arg: &'a GenericArg) -> OutlinePart<'a>
    ensures { part_term result ≡ arg_term arg.now }
{
    match arg {
        GenericArg::Ty(ty) => OutlinePart::Ty(ty),
        GenericArg::Const(value) => OutlinePart::Const(*value),
    }
}

fn push_args<'a>(
    parts: &mut Vec<OutlinePart<'a>>,
    args: &'a List<GenericArg>,
) -> Result<(), AllocError>
    ensures { OnOk result (part_terms parts.new.items ≡ part_terms parts.old.items ++ map arg_term args.now) }
{
    for arg in args.as_slice() {
        parts.push(part_of(arg))?;
    }
    Ok(())
}

#[tactic(auto, using(crate::specs::TermLaws::term_is))]
fn push_principal<'a>(
    parts: &mut Vec<OutlinePart<'a>>,
    principal: &'a Option<TraitRef>,
) -> Result<(), AllocError>
    ensures { OnOk result (part_terms parts.new.items ≡ part_terms parts.old.items ++ principal_parts (option_map trait_parts principal.now)) }
{
    match principal {
        None => {
            parts.push(OutlinePart::Mark(Head::NoPrincipal))?;
            Ok(())
        }
        Some(principal) => {
            parts.push(OutlinePart::Mark(Head::Principal(principal.id)))?;
            push_args(parts, &principal.args)?;
            Ok(())
        }
    }
}

#[tactic(auto, using(crate::specs::TermLaws::term_is))]
fn push_bounds<'a>(
    parts: &mut Vec<OutlinePart<'a>>,
    bounds: &'a List<AliasBound>,
) -> Result<(), AllocError>
    ensures { OnOk result (part_terms parts.new.items ≡ part_terms parts.old.items ++ flat_map bound_parts bounds.now) }
{
    for bound in bounds.as_slice() {
        parts.push(OutlinePart::Mark(Head::Bound(bound.alias)))?;
        parts.push(OutlinePart::Ty(&bound.ty))?;
    }
    Ok(())
}

fn push_autos<'a>(
    parts: &mut Vec<OutlinePart<'a>>,
    auto_traits: &'a List<TraitId>,
) -> Result<(), AllocError>
    ensures { OnOk result (part_terms parts.new.items ≡ part_terms parts.old.items ++ auto_parts auto_traits.now) }
{
    for auto_trait in auto_traits.as_slice() {
        parts.push(OutlinePart::Mark(Head::AutoTrait(*auto_trait)))?;
    }
    Ok(())
}

fn over_args<'a>(
    alloc: Global,
    head: Head,
    args: &'a List<GenericArg>,
) -> Result<Outline<'a>, AllocError>
    ensures { IfOk result (λ o. outline_term o ≡ node head (map arg_term args.now)) }
{
    let mut parts = Vec::new(alloc);
    push_args(&mut parts, args)?;
    Ok(Outline::Node(head, parts))
}

fn over_signature<'a>(
    alloc: Global,
    head: Head,
    inputs: &'a List<Ty>,
    output: &'a Ty,
) -> Result<Outline<'a>, AllocError>
    ensures { IfOk result (λ o. outline_term o ≡ node head (parts_of_types inputs.now ++ type_part (term output.now) ∷ [])) }
{
    let mut parts = Vec::new(alloc);
    push_types(&mut parts, inputs)?;
    parts.push(OutlinePart::Ty(output))?;
    Ok(Outline::Node(head, parts))
}

fn over_types<'a>(alloc: Global, tys: &'a List<Ty>) -> Result<Outline<'a>, AllocError>
    ensures { IfOk result (λ o. outline_term o ≡ node head.Tuple (parts_of_types tys.now)) }
{
    let mut parts = Vec::new(alloc);
    push_types(&mut parts, tys)?;
    Ok(Outline::Node(Head::Tuple, parts))
}

fn over_array<'a>(alloc: Global, ty: &'a Ty, length: Const) -> Result<Outline<'a>, AllocError>
    ensures { IfOk result (λ o. outline_term o ≡ node head.Array (type_part (term ty.now) ∷ const_part length ∷ [])) }
{
    let mut parts = Vec::new(alloc);
    parts.push(OutlinePart::Ty(ty))?;
    parts.push(OutlinePart::Const(length))?;
    Ok(Outline::Node(Head::Array, parts))
}

fn over_bounds<'a>(
    alloc: Global,
    principal: &'a Option<TraitRef>,
    projections: &'a List<AliasBound>,
    auto_traits: &'a List<TraitId>,
) -> Result<Outline<'a>, AllocError>
    ensures { IfOk result (λ o. outline_term o ≡ node head.Dynamic (principal_parts (option_map trait_parts principal.now) ++ flat_map bound_parts projections.now ++ auto_parts auto_traits.now)) }
{
    let mut parts = Vec::new(alloc);
    push_principal(&mut parts, principal)?;
    push_bounds(&mut parts, projections)?;
    push_autos(&mut parts, auto_traits)?;
    Ok(Outline::Node(Head::Dynamic, parts))
}

impl Ty {
    /// What stands outermost in the type, with its parts.
    #[tactic(auto, using(crate::specs::TermLaws::term_is))]
    pub fn outline(&self, alloc: Global) -> Result<Outline<'_>, AllocError>
        ensures { IfOk result (λ outline. outline_term outline ≡ term self.now) }
    {
        match self {
            Ty::Bool => Ok(leaf(alloc, Head::Bool)),
            Ty::Char => Ok(leaf(alloc, Head::Char)),
            Ty::Int(int) => Ok(leaf(alloc, Head::Int(*int))),
            Ty::Uint(uint) => Ok(leaf(alloc, Head::Uint(*uint))),
            Ty::Float(float) => Ok(leaf(alloc, Head::Float(*float))),
            Ty::Str => Ok(leaf(alloc, Head::Str)),
            Ty::Never => Ok(leaf(alloc, Head::Never)),
            Ty::Param(number) => Ok(leaf(alloc, Head::Param(*number))),
            Ty::Error => Ok(leaf(alloc, Head::Error)),
            Ty::Hole => Ok(leaf(alloc, Head::Hole)),
            Ty::Var(hole) => Ok(Outline::Hole(Hole::Ty(*hole))),
            Ty::IntVar(hole) => Ok(Outline::Hole(Hole::Int(*hole))),
            Ty::Slice(ty) => over(alloc, Head::Slice, ty.get()),
            Ty::Ref(mutability, _, ty) => over(alloc, Head::Ref(*mutability), ty.get()),
            Ty::RawPtr(mutability, ty) => over(alloc, Head::RawPtr(*mutability), ty.get()),
            Ty::Adt(id, args) => over_args(alloc, Head::Adt(*id), args),
            Ty::FnDef(id, args) => over_args(alloc, Head::FnDef(*id), args),
            Ty::Projection(alias, args) => over_args(alloc, Head::Projection(*alias), args),
            Ty::AssociatedType(id, args) => over_args(alloc, Head::AssociatedType(*id), args),
            Ty::Opaque(id, args) => over_args(alloc, Head::Opaque(*id), args),
            Ty::Tuple(tys) => over_types(alloc, tys),
            Ty::Array(ty, length) => over_array(alloc, ty.get(), *length),
            Ty::FnPtr {
                safety,
                inputs,
                output,
            } => over_signature(alloc, Head::FnPtr(*safety), inputs, output.get()),
            Ty::Closure { id, inputs, output } => over_signature(
                alloc,
                Head::Closure(*id),
                inputs,
                output.get(),
            ),
            Ty::Dynamic {
                principal,
                projections,
                auto_traits,
            } => over_bounds(alloc, principal, projections, auto_traits),
        }
    }
}
