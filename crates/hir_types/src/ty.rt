//! Types.
ghost use Rattle.std.specs.Prelude.{◌≡◌, ◌↔◌, IsTrue, IfOk};
ghost use Rattle.hir_types.specs.Own.{integer_type};

use crate::boxed::Boxed;
use crate::ids::{AdtId, CallableDefId, ClosureId, OpaqueId, TraitId, TypeAliasId};
use crate::list::List;
use crate::text::Text;
use std::alloc::{AllocError, Global};

/// A signed integer type.
#[derive(Clone, Copy, Debug, PartialEq, Eq, Hash)]
pub enum IntTy {
    Isize,
    I8,
    I16,
    I32,
    I64,
    I128,
}

/// An unsigned integer type.
#[derive(Clone, Copy, Debug, PartialEq, Eq, Hash)]
pub enum UintTy {
    Usize,
    U8,
    U16,
    U32,
    U64,
    U128,
}

/// An integer type, as a type or a literal's suffix names it.
#[derive(Clone, Copy, Debug, PartialEq, Eq, Hash)]
pub enum IntegerTy {
    Int(IntTy),
    Uint(UintTy),
}

/// A float type.
#[derive(Clone, Copy, Debug, PartialEq, Eq, Hash)]
pub enum FloatTy {
    F16,
    F32,
    F64,
    F128,
}

/// Whether a reference or raw pointer lets write what it points to.
#[derive(Clone, Copy, Debug, PartialEq, Eq, PartialOrd, Ord, Hash)]
pub enum Mutability {
    Not,
    Mut,
}

/// Whether a function may be called outside of `unsafe`.
#[derive(Clone, Copy, Debug, PartialEq, Eq, Hash)]
pub enum Safety {
    Safe,
    Unsafe,
}

/// A lifetime's label with its apostrophe, or the empty text where it is erased. Labels are dropped
/// before types are compared.
#[derive(Debug, Drop, PartialEq, Eq, Hash)]
pub struct Region(pub Text);

impl Region {
    /// An equal copy.
    pub fn dup(&self, alloc: Global) -> Result<Region, AllocError>
        ensures { IfOk result (λ copy. copy ≡ self.now) }
    {
        Ok(Region(self.0.dup(alloc)?))
    }
}

/// The length of an array type, or a const argument.
#[derive(Clone, Copy, Debug, PartialEq, Eq, Hash)]
pub enum Const {
    Value(u64),
    /// A const parameter, by its number.
    Param(u32),
    /// A const that could not be typed, written `{const}`.
    Unknown,
    /// A hole that inference made, by its number in the one numbering of all holes.
    Var(usize),
    /// A written `_`, in lowered types alone.
    Hole,
}

/// A type. `Error` is the type of what could not be typed, written `{unknown}`; `Var` and `IntVar`
/// are holes that inference made, for any type and for integer types, by their numbers in the one
/// numbering of all holes, and stand in no finished table; `Hole` is a written `_` and stands in lowered types alone.
#[cycle(ty)]
#[derive(Debug, PartialEq, Eq, Hash)]
pub enum Ty {
    Bool,
    Char,
    Int(IntTy),
    Uint(UintTy),
    Float(FloatTy),
    Str,
    Never,
    Tuple(List<Ty>),
    Array(Boxed<Ty>, Const),
    Slice(Boxed<Ty>),
    Ref(Mutability, Region, Boxed<Ty>),
    RawPtr(Mutability, Boxed<Ty>),
    Adt(AdtId, List<GenericArg>),
    FnDef(CallableDefId, List<GenericArg>),
    FnPtr {
        safety: Safety,
        inputs: List<Ty>,
        output: Boxed<Ty>,
    },
    Closure {
        id: ClosureId,
        inputs: List<Ty>,
        output: Boxed<Ty>,
    },
    Dynamic {
        principal: Option<TraitRef>,
        projections: List<AliasBound>,
        auto_traits: List<TraitId>,
    },
    /// A type parameter, by its number.
    Param(u32),
    /// An associated type that is still to be read, at the arguments of its trait, the self type first.
    Projection(TypeAliasId, List<GenericArg>),
    /// An associated type that was read and stays, as a type of its own: equal to another only where its
    /// arguments are. `<T as Tr>::Out` is one where all that is known of `T` is `T: Tr`.
    AssociatedType(TypeAliasId, List<GenericArg>),
    Opaque(OpaqueId, List<GenericArg>),
    Error,
    Var(usize),
    IntVar(usize),
    Hole,
}

/// A generic argument.
#[cycle(ty)]
#[derive(Debug, Drop, PartialEq, Eq, Hash)]
pub enum GenericArg {
    Ty(Ty),
    Const(Const),
}

/// A trait with its arguments.
#[cycle(ty)]
#[derive(Debug, Drop, PartialEq, Eq, Hash)]
pub struct TraitRef {
    pub id: TraitId,
    pub args: List<GenericArg>,
}

/// An associated type with the type that it is to be.
#[cycle(ty)]
#[derive(Debug, Drop, PartialEq, Eq, Hash)]
pub struct AliasBound {
    pub alias: TypeAliasId,
    pub ty: Ty,
}

impl Drop for Ty {
    #[cycle(drop)]
    fn drop(self) {
        match self {
            Ty::Bool | Ty::Char | Ty::Str | Ty::Never | Ty::Error | Ty::Hole => {}
            Ty::Int(_) | Ty::Uint(_) | Ty::Float(_) | Ty::Param(_) | Ty::Var(_) | Ty::IntVar(_) =>
                {}
            Ty::Tuple(_) | Ty::Array(_, _) | Ty::Slice(_) | Ty::Ref(_, _, _) | Ty::RawPtr(_, _) =>
                {}
            Ty::Adt(_, _) | Ty::FnDef(_, _) => {}
            Ty::Projection(_, _) | Ty::AssociatedType(_, _) | Ty::Opaque(_, _) => {}
            Ty::FnPtr {
                safety: _,
                inputs: _,
                output: _,
            } => {}
            Ty::Closure {
                id: _,
                inputs: _,
                output: _,
            } => {}
            Ty::Dynamic {
                principal: _,
                projections: _,
                auto_traits: _,
            } => {}
        }
    }
}

impl IntegerTy {
    /// The type of this name.
    pub fn ty(self) -> Ty
        ensures { result ≡ integer_type self }
    {
        match self {
            IntegerTy::Int(int) => Ty::Int(int),
            IntegerTy::Uint(uint) => Ty::Uint(uint),
        }
    }
}

impl Ty {
    /// Whether the two types are equal.
    pub fn is_same(&self, other: &Ty) -> bool
        ensures { IsTrue result ↔ (self.now ≡ other.now) }
    {
        *self == *other
    }
}
