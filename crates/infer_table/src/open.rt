//! Copies of types with holes in the places of aliases and of `{unknown}`.
ghost use Rattle.std.specs.Prelude.{◌≡◌, ℕ, ◌∷◌, [], ◌++◌, List, length, map, IfOk, OnOk};
ghost use Rattle.infer_table.specs.Words.{HoleKind, Term, term, arg_term, const_term, parts_of_types};
ghost use Rattle.hir_types.specs.declared.ty.Ty.TheVariants as ty_of;
ghost use Rattle.infer_table.specs.Own.{place, alias, opened, origins, new_kinds, Opens, OpensParts, principal_terms, bounds_terms, OnlyMakes, origins_of};

use crate::bindings::Bindings;
use crate::levels::one_level;
use hir_types::{AliasBound, Boxed, Const, GenericArg, HoleKind, List, MOST_LEVELS, TraitRef, Ty};
use std::alloc::{AllocError, Global};

/// An alias, and the hole that was put in its place.
#[derive(Debug, Drop)]
pub struct Origin {
    pub hole: usize,
    pub alias: Ty,
}

impl Bindings {
    /// A copy of the type with a new hole in the place of each alias and of each `{unknown}`; what
    /// stood for which alias is added to `found`. After want of memory some holes may be left.
    pub fn open(
        &mut self,
        alloc: Global,
        ty: &Ty,
        found: &mut Vec<Origin>,
    ) -> Result<Ty, AllocError>
        ensures log { self.new.log ≡ self.old.log }
        ensures made { (kinds : List HoleKind) × (self.new.kinds ≡ self.old.kinds ++ kinds) }
        ensures kinds { OnOk result (self.new.kinds ≡ self.old.kinds ++ new_kinds (term ty.now)) }
        ensures term { IfOk result (λ made. (term made, length self.new.kinds) ≡ opened (length self.old.kinds) (term ty.now)) }
        ensures origins { OnOk result (origins_of found.new.items ≡ origins_of found.old.items ++ origins (length self.old.kinds) (term ty.now)) }
    {
        self.open_type(alloc, ty, found, MOST_LEVELS)
    }

    /// A new hole in the place of an alias.
    fn open_alias(
        &mut self,
        alloc: Global,
        ty: &Ty,
        found: &mut Vec<Origin>,
    ) -> Result<Ty, AllocError>
        requires { place (term ty.now) ≡ alias }
        ensures makes { OnlyMakes self.old self.new }
        ensures opens { IfOk result (λ made. Opens self.old.kinds self.new.kinds (origins_of found.old.items) (origins_of found.new.items) (term ty.now) (term made)) }
    {
        let copy = ty.dup(alloc)?;
        let hole = self.new_hole(HoleKind::Ty)?;
        found.push(Origin { hole, alias: copy })?;
        Ok(Ty::Var(hole))
    }

    /// The const, or a new hole in the place of `{unknown}`.
    fn open_const(&mut self, value: Const) -> Result<Const, AllocError>
        ensures makes { OnlyMakes self.old self.new }
        ensures opens { IfOk result (λ made. (os : List (ℕ × Term)) → Opens self.old.kinds self.new.kinds os os (const_term value) (const_term made)) }
    {
        match value {
            Const::Value(number) => Ok(Const::Value(number)),
            Const::Param(number) => Ok(Const::Param(number)),
            Const::Unknown => {
                let hole = self.new_hole(HoleKind::Const)?;
                Ok(Const::Var(hole))
            }
            Const::Var(hole) => Ok(Const::Var(hole)),
            Const::Hole => Ok(Const::Hole),
        }
    }

    /// A new hole in the place of `{unknown}`.
    fn open_error(&mut self) -> Result<Ty, AllocError>
        ensures makes { OnlyMakes self.old self.new }
        ensures opens { IfOk result (λ made. (os : List (ℕ × Term)) → Opens self.old.kinds self.new.kinds os os (term ty_of.Error) (term made)) }
    {
        let hole = self.new_hole(HoleKind::Ty)?;
        Ok(Ty::Var(hole))
    }

    #[cycle(open)]
    fn open_type(
        &mut self,
        alloc: Global,
        ty: &Ty,
        found: &mut Vec<Origin>,
        levels: u32,
    ) -> Result<Ty, AllocError>
        ensures makes { OnlyMakes self.old self.new }
        ensures opens { IfOk result (λ made. Opens self.old.kinds self.new.kinds (origins_of found.old.items) (origins_of found.new.items) (term ty.now) (term made)) }
    {
        let below = one_level(levels)?;
        match ty {
            Ty::Bool => Ok(Ty::Bool),
            Ty::Char => Ok(Ty::Char),
            Ty::Int(int) => Ok(Ty::Int(*int)),
            Ty::Uint(uint) => Ok(Ty::Uint(*uint)),
            Ty::Float(float) => Ok(Ty::Float(*float)),
            Ty::Str => Ok(Ty::Str),
            Ty::Never => Ok(Ty::Never),
            Ty::Param(number) => Ok(Ty::Param(*number)),
            Ty::Var(hole) => Ok(Ty::Var(*hole)),
            Ty::IntVar(hole) => Ok(Ty::IntVar(*hole)),
            Ty::Hole => Ok(Ty::Hole),
            Ty::Error => self.open_error(),
            Ty::Projection(_, _) => self.open_alias(alloc, ty, found),
            Ty::Opaque(_, _) => self.open_alias(alloc, ty, found),
            Ty::Tuple(types) => Ok(Ty::Tuple(self.open_types(alloc, types, found, below)?)),
            Ty::Array(ty, length) => {
                let ty = self.open_boxed(alloc, ty, found, below)?;
                Ok(Ty::Array(ty, self.open_const(*length)?))
            }
            Ty::Slice(ty) => Ok(Ty::Slice(self.open_boxed(alloc, ty, found, below)?)),
            Ty::Ref(mutability, region, ty) => {
                let region = region.dup(alloc)?;
                let ty = self.open_boxed(alloc, ty, found, below)?;
                Ok(Ty::Ref(*mutability, region, ty))
            }
            Ty::RawPtr(mutability, ty) => {
                let ty = self.open_boxed(alloc, ty, found, below)?;
                Ok(Ty::RawPtr(*mutability, ty))
            }
            Ty::Adt(id, args) => Ok(Ty::Adt(*id, self.open_args(alloc, args, found, below)?)),
            Ty::AssociatedType(id, args) => Ok(Ty::AssociatedType(
                *id,
                self.open_args(alloc, args, found, below)?,
            )),
            Ty::FnDef(id, args) => Ok(Ty::FnDef(*id, self.open_args(alloc, args, found, below)?)),
            Ty::FnPtr {
                safety,
                inputs,
                output,
            } => {
                let inputs = self.open_types(alloc, inputs, found, below)?;
                let output = self.open_boxed(alloc, output, found, below)?;
                Ok(Ty::FnPtr {
                    safety: *safety,
                    inputs,
                    output,
                })
            }
            Ty::Closure { id, inputs, output } => {
                let inputs = self.open_types(alloc, inputs, found, below)?;
                let output = self.open_boxed(alloc, output, found, below)?;
                Ok(Ty::Closure {
                    id: *id,
                    inputs,
                    output,
                })
            }
            Ty::Dynamic {
                principal,
                projections,
                auto_traits,
            } => {
                let principal = self.open_principal(alloc, principal, found, below)?;
                let projections = self.open_bounds(alloc, projections, found, below)?;
                Ok(Ty::Dynamic {
                    principal,
                    projections,
                    auto_traits: auto_traits.copied(alloc)?,
                })
            }
        }
    }

    #[cycle(open)]
    fn open_boxed(
        &mut self,
        alloc: Global,
        ty: &Boxed<Ty>,
        found: &mut Vec<Origin>,
        levels: u32,
    ) -> Result<Boxed<Ty>, AllocError>
        ensures makes { OnlyMakes self.old self.new }
        ensures opens { IfOk result (λ made. Opens self.old.kinds self.new.kinds (origins_of found.old.items) (origins_of found.new.items) (term ty.now) (term made)) }
    {
        let ty = self.open_type(alloc, ty.get(), found, levels)?;
        Boxed::new(alloc, ty)
    }

    #[cycle(open)]
    fn open_types(
        &mut self,
        alloc: Global,
        types: &List<Ty>,
        found: &mut Vec<Origin>,
        levels: u32,
    ) -> Result<List<Ty>, AllocError>
        ensures makes { OnlyMakes self.old self.new }
        ensures opens { IfOk result (λ made. OpensParts self.old.kinds self.new.kinds (origins_of found.old.items) (origins_of found.new.items) (parts_of_types types.now) (parts_of_types made)) }
    {
        let mut made = List::new(alloc);
        for ty in types.as_slice() {
            made.push(self.open_type(alloc, ty, found, levels)?)?;
        }
        Ok(made)
    }

    #[cycle(open)]
    fn open_args(
        &mut self,
        alloc: Global,
        args: &List<GenericArg>,
        found: &mut Vec<Origin>,
        levels: u32,
    ) -> Result<List<GenericArg>, AllocError>
        ensures makes { OnlyMakes self.old self.new }
        ensures opens { IfOk result (λ made. OpensParts self.old.kinds self.new.kinds (origins_of found.old.items) (origins_of found.new.items) (map arg_term args.now) (map arg_term made)) }
    {
        let mut made = List::new(alloc);
        for arg in args.as_slice() {
            made.push(self.open_arg(alloc, arg, found, levels)?)?;
        }
        Ok(made)
    }

    #[cycle(open)]
    fn open_arg(
        &mut self,
        alloc: Global,
        arg: &GenericArg,
        found: &mut Vec<Origin>,
        levels: u32,
    ) -> Result<GenericArg, AllocError>
        ensures makes { OnlyMakes self.old self.new }
        ensures opens { IfOk result (λ made. OpensParts self.old.kinds self.new.kinds (origins_of found.old.items) (origins_of found.new.items) (arg_term arg.now ∷ []) (arg_term made ∷ [])) }
    {
        match arg {
            GenericArg::Ty(ty) => Ok(GenericArg::Ty(self.open_type(alloc, ty, found, levels)?)),
            GenericArg::Const(value) => Ok(GenericArg::Const(self.open_const(*value)?)),
        }
    }

    #[cycle(open)]
    fn open_principal(
        &mut self,
        alloc: Global,
        principal: &Option<TraitRef>,
        found: &mut Vec<Origin>,
        levels: u32,
    ) -> Result<Option<TraitRef>, AllocError>
        ensures makes { OnlyMakes self.old self.new }
        ensures opens { IfOk result (λ made. OpensParts self.old.kinds self.new.kinds (origins_of found.old.items) (origins_of found.new.items) (principal_terms principal.now) (principal_terms made)) }
    {
        match principal {
            None => Ok(None),
            Some(principal) => {
                let args = self.open_args(alloc, &principal.args, found, levels)?;
                Ok(Some(TraitRef {
                    id: principal.id,
                    args,
                }))
            }
        }
    }

    #[cycle(open)]
    fn open_bounds(
        &mut self,
        alloc: Global,
        bounds: &List<AliasBound>,
        found: &mut Vec<Origin>,
        levels: u32,
    ) -> Result<List<AliasBound>, AllocError>
        ensures makes { OnlyMakes self.old self.new }
        ensures opens { IfOk result (λ made. OpensParts self.old.kinds self.new.kinds (origins_of found.old.items) (origins_of found.new.items) (bounds_terms bounds.now) (bounds_terms made)) }
    {
        let mut made = List::new(alloc);
        for bound in bounds.as_slice() {
            let ty = self.open_type(alloc, &bound.ty, found, levels)?;
            made.push(AliasBound {
                alias: bound.alias,
                ty,
            })?;
        }
        Ok(made)
    }
}
