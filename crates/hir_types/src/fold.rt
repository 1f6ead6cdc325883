//! A type with other types in the place of its holes and parameters.
ghost use Rattle.std.specs.Prelude.{◌≡◌, IfOk, map};
ghost use Rattle.std.specs.Option.{option_map};
ghost use Rattle.hir_types.specs.Subst.{Replacement, replaced, const_replaced, arg_replaced, args_replaced, trait_replaced, bound_replaced};
ghost use Rattle.hir_types.specs.declared.ty.Ty.{Ty};
ghost use Rattle.hir_types.specs.declared.ty.Ty.TheVariants as ty;

use crate::boxed::Boxed;
use crate::list::List;
use crate::room::Room;
use crate::ty::{AliasBound, Const, GenericArg, TraitRef, Ty};
use std::alloc::{AllocError, Global};

/// What a fold puts in the place of holes and parameters.
pub trait TypeFolder {
    /// What stands for each hole and each parameter.
    ghost replacement: { Self → Replacement };

    /// Whether the folder has put what it knows in the place of the type itself: so of each type
    /// that is no hole, and of a hole that it does not know.
    ghost settled: { Self → Ty → Type 0 };

    /// What is folded in the place of a type: what the folder knows a hole to be, whose own holes
    /// and parameters are still to be replaced, and else the type.
    fn shallow<'a>(&'a self, ty: &'a Ty) -> &'a Ty
        ensures same { replaced (replacement self.now) result.now ≡ replaced (replacement self.now) ty.now }
        ensures settled { settled self.now result.now };

    /// The type in the place of a hole.
    fn fold_var(
        &self,
        alloc: Global,
        hole: usize,
        levels: u32,
        room: &mut Room,
    ) -> Result<Ty, AllocError>
        requires { settled self.now (ty.Var hole) }
        ensures { IfOk result (λ ty. ty ≡ (replacement self.now).var hole) };

    /// The type in the place of a hole of integer types.
    fn fold_int_var(
        &self,
        alloc: Global,
        hole: usize,
        levels: u32,
        room: &mut Room,
    ) -> Result<Ty, AllocError>
        requires { settled self.now (ty.IntVar hole) }
        ensures { IfOk result (λ ty. ty ≡ (replacement self.now).int_var hole) };

    /// The const in the place of a const hole.
    fn fold_const_var(&self, hole: usize) -> Result<Const, AllocError>
        ensures { IfOk result (λ value. value ≡ (replacement self.now).const_var hole) };

    /// The type in the place of a parameter.
    fn fold_param(
        &self,
        alloc: Global,
        number: u32,
        levels: u32,
        room: &mut Room,
    ) -> Result<Ty, AllocError>
        ensures { IfOk result (λ ty. ty ≡ (replacement self.now).param number) };

    /// The const in the place of a const parameter.
    fn fold_const_param(&self, number: u32) -> Result<Const, AllocError>
        ensures { IfOk result (λ value. value ≡ (replacement self.now).const_param number) };
}

/// The const with what the folder says in the place of a hole or parameter.
pub fn fold_const<F: TypeFolder>(value: Const, folder: &F) -> Result<Const, AllocError>
    ensures { IfOk result (λ made. made ≡ const_replaced (F.replacement folder.now) value) }
{
    match value {
        Const::Value(_) | Const::Unknown | Const::Hole => Ok(value),
        Const::Param(number) => folder.fold_const_param(number),
        Const::Var(hole) => folder.fold_const_var(hole),
    }
}

/// The type with what the folder says in the place of holes and parameters.
#[cycle(fold)]
pub fn fold_ty<F: TypeFolder>(
    alloc: Global,
    ty: &Ty,
    folder: &F,
    levels: u32,
    room: &mut Room,
) -> Result<Ty, AllocError>
    ensures { IfOk result (λ made. made ≡ replaced (F.replacement folder.now) ty.now) }
{
    let below = room.take(levels)?;
    match folder.shallow(ty) {
        Ty::Bool => Ok(Ty::Bool),
        Ty::Char => Ok(Ty::Char),
        Ty::Int(int) => Ok(Ty::Int(*int)),
        Ty::Uint(uint) => Ok(Ty::Uint(*uint)),
        Ty::Float(float) => Ok(Ty::Float(*float)),
        Ty::Str => Ok(Ty::Str),
        Ty::Never => Ok(Ty::Never),
        Ty::Error => Ok(Ty::Error),
        Ty::Hole => Ok(Ty::Hole),
        Ty::Param(number) => folder.fold_param(alloc, *number, levels, room),
        Ty::Var(hole) => folder.fold_var(alloc, *hole, levels, room),
        Ty::IntVar(hole) => folder.fold_int_var(alloc, *hole, levels, room),
        Ty::Tuple(types) => Ok(Ty::Tuple(fold_types(alloc, types, folder, below, room)?)),
        Ty::Array(ty, length) => {
            let ty = fold_boxed(alloc, ty, folder, below, room)?;
            Ok(Ty::Array(ty, fold_const(*length, folder)?))
        }
        Ty::Slice(ty) => Ok(Ty::Slice(fold_boxed(alloc, ty, folder, below, room)?)),
        Ty::Ref(mutability, region, ty) => {
            let ty = fold_boxed(alloc, ty, folder, below, room)?;
            Ok(Ty::Ref(*mutability, region.dup(alloc)?, ty))
        }
        Ty::RawPtr(mutability, ty) => {
            let ty = fold_boxed(alloc, ty, folder, below, room)?;
            Ok(Ty::RawPtr(*mutability, ty))
        }
        Ty::Adt(id, args) => Ok(Ty::Adt(*id, fold_args(alloc, args, folder, below, room)?)),
        Ty::FnDef(id, args) => Ok(Ty::FnDef(*id, fold_args(alloc, args, folder, below, room)?)),
        Ty::Projection(id, args) => Ok(Ty::Projection(
            *id,
            fold_args(alloc, args, folder, below, room)?,
        )),
        Ty::AssociatedType(id, args) => Ok(Ty::AssociatedType(
            *id,
            fold_args(alloc, args, folder, below, room)?,
        )),
        Ty::Opaque(id, args) => Ok(Ty::Opaque(*id, fold_args(alloc, args, folder, below, room)?)),
        Ty::FnPtr {
            safety,
            inputs,
            output,
        } => Ok(Ty::FnPtr {
            safety: *safety,
            inputs: fold_types(alloc, inputs, folder, below, room)?,
            output: fold_boxed(alloc, output, folder, below, room)?,
        }),
        Ty::Closure { id, inputs, output } => Ok(Ty::Closure {
            id: *id,
            inputs: fold_types(alloc, inputs, folder, below, room)?,
            output: fold_boxed(alloc, output, folder, below, room)?,
        }),
        Ty::Dynamic {
            principal,
            projections,
            auto_traits,
        } => Ok(Ty::Dynamic {
            principal: fold_principal(alloc, principal, folder, below, room)?,
            projections: fold_bounds(alloc, projections, folder, below, room)?,
            auto_traits: auto_traits.copied(alloc)?,
        }),
    }
}

#[cycle(fold)]
fn fold_boxed<F: TypeFolder>(
    alloc: Global,
    ty: &Boxed<Ty>,
    folder: &F,
    levels: u32,
    room: &mut Room,
) -> Result<Boxed<Ty>, AllocError>
    ensures { IfOk result (λ made. made ≡ replaced (F.replacement folder.now) ty.now) }
{
    let ty = fold_ty(alloc, ty.get(), folder, levels, room)?;
    Boxed::new(alloc, ty)
}

#[cycle(fold)]
fn fold_principal<F: TypeFolder>(
    alloc: Global,
    principal: &Option<TraitRef>,
    folder: &F,
    levels: u32,
    room: &mut Room,
) -> Result<Option<TraitRef>, AllocError>
    ensures { IfOk result (λ made. made ≡ option_map (trait_replaced (F.replacement folder.now)) principal.now) }
{
    match principal {
        Some(principal) => Ok(Some(fold_trait(alloc, principal, folder, levels, room)?)),
        None => Ok(None),
    }
}

/// The trait reference with what the folder says in the place of holes and parameters.
#[cycle(fold)]
pub fn fold_trait<F: TypeFolder>(
    alloc: Global,
    trait_ref: &TraitRef,
    folder: &F,
    levels: u32,
    room: &mut Room,
) -> Result<TraitRef, AllocError>
    ensures { IfOk result (λ made. made ≡ trait_replaced (F.replacement folder.now) trait_ref.now) }
{
    Ok(TraitRef {
        id: trait_ref.id,
        args: fold_args(alloc, &trait_ref.args, folder, levels, room)?,
    })
}

/// The argument with what the folder says in the place of holes and parameters.
#[cycle(fold)]
pub fn fold_arg<F: TypeFolder>(
    alloc: Global,
    arg: &GenericArg,
    folder: &F,
    levels: u32,
    room: &mut Room,
) -> Result<GenericArg, AllocError>
    ensures { IfOk result (λ made. made ≡ arg_replaced (F.replacement folder.now) arg.now) }
{
    match arg {
        GenericArg::Ty(ty) => Ok(GenericArg::Ty(fold_ty(alloc, ty, folder, levels, room)?)),
        GenericArg::Const(value) => Ok(GenericArg::Const(fold_const(*value, folder)?)),
    }
}

#[cycle(fold)]
fn fold_types<F: TypeFolder>(
    alloc: Global,
    types: &List<Ty>,
    folder: &F,
    levels: u32,
    room: &mut Room,
) -> Result<List<Ty>, AllocError>
    ensures { IfOk result (λ made. made ≡ map (replaced (F.replacement folder.now)) types.now) }
{
    let mut made = List::new(alloc);
    for ty in types.as_slice() {
        made.push(fold_ty(alloc, ty, folder, levels, room)?)?;
    }
    Ok(made)
}

/// The arguments with what the folder says in the place of holes and parameters.
#[cycle(fold)]
pub fn fold_args<F: TypeFolder>(
    alloc: Global,
    args: &List<GenericArg>,
    folder: &F,
    levels: u32,
    room: &mut Room,
) -> Result<List<GenericArg>, AllocError>
    ensures { IfOk result (λ made. made ≡ args_replaced (F.replacement folder.now) args.now) }
{
    let mut made = List::new(alloc);
    for arg in args.as_slice() {
        made.push(fold_arg(alloc, arg, folder, levels, room)?)?;
    }
    Ok(made)
}

#[cycle(fold)]
fn fold_bounds<F: TypeFolder>(
    alloc: Global,
    bounds: &List<AliasBound>,
    folder: &F,
    levels: u32,
    room: &mut Room,
) -> Result<List<AliasBound>, AllocError>
    ensures { IfOk result (λ made. made ≡ map (bound_replaced (F.replacement folder.now)) bounds.now) }
{
    let mut made = List::new(alloc);
    for bound in bounds.as_slice() {
        let ty = fold_ty(alloc, &bound.ty, folder, levels, room)?;
        made.push(AliasBound {
            alias: bound.alias,
            ty,
        })?;
    }
    Ok(made)
}
