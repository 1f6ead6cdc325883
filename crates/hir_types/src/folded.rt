//! Values that holes and parameters may be replaced in.
ghost use Rattle.std.specs.Prelude.{◌≡◌, IfOk, map};
ghost use Rattle.hir_types.specs.Subst.{Replacement, Assignment, with_holes, each_itself, composed, replaced, const_replaced, arg_replaced, trait_replaced};
ghost use Rattle.hir_types.specs.Assigned.{assignment_of};
ghost use Rattle.hir_types.specs.Goals.{goal_replaced};
ghost use Rattle.hir_types.specs.Replacements.{folded_itself, const_folded_itself, arg_folded_itself, trait_folded_itself, folded_twice, const_folded_twice, arg_folded_twice, trait_folded_twice};
ghost use Rattle.hir_types.specs.FoldedLaws.{refined, list_itself, list_twice, pair_itself, goal_itself, goal_twice};

use crate::fold::{TypeFolder, fold_arg, fold_args, fold_const, fold_trait, fold_ty};
use crate::goal::Goal;
use crate::list::List;
use crate::room::{MOST_LEVELS, Room};
use crate::subst::Subst;
use crate::ty::{Const, GenericArg, TraitRef, Ty};
use std::alloc::{AllocError, Global};

/// A value that holes and parameters may be replaced in. A result of more than 2^20 types, or of
/// more than 2^10 levels, is refused as want of memory.
pub trait Folded: Sized + Drop {
    /// The value with what the replacement says in the place of holes and parameters.
    ghost replaced: { Replacement → Self → Self };

    /// The value with what the folder says in the place of holes and parameters, as a part of what
    /// may have so many levels more and is made in this room.
    fn fold_within<F: TypeFolder>(
        &self,
        alloc: Global,
        folder: &F,
        levels: u32,
        room: &mut Room,
    ) -> Result<Self, AllocError>
        ensures { IfOk result (λ made. made ≡ replaced (F.replacement folder.now) self.now) };

    /// The value with what the folder says in the place of holes and parameters.
    fn fold_with<F: TypeFolder>(&self, alloc: Global, folder: &F) -> Result<Self, AllocError>
        ensures { IfOk result (λ made. made ≡ replaced (F.replacement folder.now) self.now) }
    {
        let mut room = Room::new();
        self.fold_within(alloc, folder, MOST_LEVELS, &mut room)
    }

    /// The value with what the substitution says in the place of holes.
    fn fold(&self, alloc: Global, subst: &Subst) -> Result<Self, AllocError>
        ensures { IfOk result (λ made. made ≡ replaced (with_holes (assignment_of subst.now)) self.now) }
    {
        self.fold_with(alloc, subst)
    }

    ghost identity: { (t : Self) → replaced (with_holes each_itself) t ≡ t };

    ghost composition: { (f g : Assignment) (t : Self) → replaced (with_holes f) (replaced (with_holes g) t) ≡ replaced (with_holes (composed f g)) t };

    ghost refinement: { (f : Assignment) (t u : Self) → ((g : Assignment) × (u ≡ replaced (with_holes g) t)) → ((h : Assignment) × (replaced (with_holes f) u ≡ replaced (with_holes h) t)) };
}

impl Folded for Ty {
    ghost replaced = { replaced };

    fn fold_within<F: TypeFolder>(
        &self,
        alloc: Global,
        folder: &F,
        levels: u32,
        room: &mut Room,
    ) -> Result<Ty, AllocError> {
        fold_ty(alloc, self, folder, levels, room)
    }

    ghost identity = { folded_itself };

    ghost composition = { folded_twice };

    ghost refinement = { refined (λ f. replaced (with_holes f)) folded_twice };
}

impl Folded for Const {
    ghost replaced = { const_replaced };

    fn fold_within<F: TypeFolder>(
        &self,
        _alloc: Global,
        folder: &F,
        _levels: u32,
        _room: &mut Room,
    ) -> Result<Const, AllocError> {
        fold_const(*self, folder)
    }

    ghost identity = { const_folded_itself };

    ghost composition = { const_folded_twice };

    ghost refinement = { refined (λ f. const_replaced (with_holes f)) const_folded_twice };
}

impl Folded for GenericArg {
    ghost replaced = { arg_replaced };

    fn fold_within<F: TypeFolder>(
        &self,
        alloc: Global,
        folder: &F,
        levels: u32,
        room: &mut Room,
    ) -> Result<GenericArg, AllocError> {
        fold_arg(alloc, self, folder, levels, room)
    }

    ghost identity = { arg_folded_itself };

    ghost composition = { arg_folded_twice };

    ghost refinement = { refined (λ f. arg_replaced (with_holes f)) arg_folded_twice };
}

impl Folded for TraitRef {
    ghost replaced = { trait_replaced };

    fn fold_within<F: TypeFolder>(
        &self,
        alloc: Global,
        folder: &F,
        levels: u32,
        room: &mut Room,
    ) -> Result<TraitRef, AllocError> {
        fold_trait(alloc, self, folder, levels, room)
    }

    ghost identity = { trait_folded_itself };

    ghost composition = { trait_folded_twice };

    ghost refinement = { refined (λ f. trait_replaced (with_holes f)) trait_folded_twice };
}

impl Folded for Goal {
    ghost replaced = { goal_replaced };

    fn fold_within<F: TypeFolder>(
        &self,
        alloc: Global,
        folder: &F,
        levels: u32,
        room: &mut Room,
    ) -> Result<Goal, AllocError> {
        match self {
            Goal::Trait(trait_ref) => {
                let trait_ref = fold_trait(alloc, trait_ref, folder, levels, room)?;
                Ok(Goal::Trait(trait_ref))
            }
            Goal::Projection { alias, args, ty } => Ok(Goal::Projection {
                alias: *alias,
                args: fold_args(alloc, args, folder, levels, room)?,
                ty: fold_ty(alloc, ty, folder, levels, room)?,
            }),
        }
    }

    ghost identity = { goal_itself };

    ghost composition = { goal_twice };

    ghost refinement = { refined (λ f. goal_replaced (with_holes f)) goal_twice };
}

impl<T: Folded> Folded for List<T> {
    ghost replaced = { λ s. map (T.replaced s) };

    fn fold_within<F: TypeFolder>(
        &self,
        alloc: Global,
        folder: &F,
        levels: u32,
        room: &mut Room,
    ) -> Result<List<T>, AllocError> {
        let mut made = List::new(alloc);
        for item in self.as_slice() {
            made.push(item.fold_within(alloc, folder, levels, room)?)?;
        }
        Ok(made)
    }

    ghost identity = { list_itself (T.replaced (with_holes each_itself)) T.identity };

    ghost composition = { λ f g. list_twice (T.replaced (with_holes f)) (T.replaced (with_holes g)) (T.replaced (with_holes (composed f g))) (T.composition f g) };

    ghost refinement = { refined (λ f. map (T.replaced (with_holes f))) (λ f g. list_twice (T.replaced (with_holes f)) (T.replaced (with_holes g)) (T.replaced (with_holes (composed f g))) (T.composition f g)) };
}

impl<A: Folded, B: Folded> Folded for (A, B) {
    ghost replaced = { λ s p. (A.replaced s p.0, B.replaced s p.1) };

    fn fold_within<F: TypeFolder>(
        &self,
        alloc: Global,
        folder: &F,
        levels: u32,
        room: &mut Room,
    ) -> Result<(A, B), AllocError> {
        let (first, second) = self;
        let first = first.fold_within(alloc, folder, levels, room)?;
        Ok((first, second.fold_within(alloc, folder, levels, room)?))
    }

    ghost identity = { pair_itself (A.replaced (with_holes each_itself)) (B.replaced (with_holes each_itself)) A.identity B.identity };

    ghost composition = { λ f g p i. (A.composition f g p.0 i, B.composition f g p.1 i) };

    ghost refinement = { refined (λ f p. (A.replaced (with_holes f) p.0, B.replaced (with_holes f) p.1)) (λ f g p i. (A.composition f g p.0 i, B.composition f g p.1 i)) };
}
