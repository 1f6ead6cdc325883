//! What stands outermost in a type.
use crate::ids::{AdtId, CallableDefId, ClosureId, OpaqueId, TraitId, TypeAliasId};
use crate::ty::{FloatTy, IntTy, Mutability, Safety, UintTy};

/// What stands outermost in a type or const, with all that is neither a type nor a const below it,
/// and without lifetimes; or a mark between the parts. Two types that are no holes can be made equal
/// only where their heads are.
#[derive(Clone, Copy, Debug, PartialEq, Eq, Hash)]
pub enum Head {
    Bool,
    Char,
    Int(IntTy),
    Uint(UintTy),
    Float(FloatTy),
    Str,
    Never,
    Tuple,
    Array,
    Slice,
    Ref(Mutability),
    RawPtr(Mutability),
    Adt(AdtId),
    FnDef(CallableDefId),
    FnPtr(Safety),
    Closure(ClosureId),
    Dynamic,
    Param(u32),
    Projection(TypeAliasId),
    /// An associated type that was read and stays.
    AssociatedType(TypeAliasId),
    Opaque(OpaqueId),
    Error,
    /// A written `_` as a type.
    Hole,
    Value(u64),
    ConstParam(u32),
    UnknownConst,
    /// A written `_` as a const.
    ConstHole,
    /// Before a part that is a type.
    TypePart,
    /// Before a part that is a const.
    ConstPart,
    /// Before the arguments of the principal trait of a `dyn` type.
    Principal(TraitId),
    /// In the place of a principal trait.
    NoPrincipal,
    /// Before the type that an associated type is to be.
    Bound(TypeAliasId),
    AutoTrait(TraitId),
    /// After the last part.
    End,
}

/// A hole that inference made: of any type, of an integer type, or of a const, by its number in the
/// one numbering of all holes.
#[derive(Clone, Copy, Debug, PartialEq, Eq, Hash)]
pub enum Hole {
    Ty(usize),
    Int(usize),
    Const(usize),
}

/// What a hole may stand for: any type, an integer type, or a const.
#[derive(Clone, Copy, Debug, PartialEq, Eq, Hash)]
pub enum HoleKind {
    Ty,
    Int,
    Const,
}
