//! The numbers of a crate's items and of the nodes of its bodies.

/// A module, by its position in the facts' `modules`.
#[derive(Clone, Copy, Debug, PartialEq, Eq, Hash)]
pub struct ModuleId(pub u32);

/// A variant of an enum, or the one variant of a struct or union.
#[derive(Clone, Copy, Debug, PartialEq, Eq, Hash)]
pub struct VariantId(pub u32);

/// A function.
#[derive(Clone, Copy, Debug, PartialEq, Eq, Hash)]
pub struct FunctionId(pub u32);

/// A constant.
#[derive(Clone, Copy, Debug, PartialEq, Eq, Hash)]
pub struct ConstId(pub u32);

/// A static.
#[derive(Clone, Copy, Debug, PartialEq, Eq, Hash)]
pub struct StaticId(pub u32);

/// A trait.
#[derive(Clone, Copy, Debug, PartialEq, Eq, Hash)]
pub struct TraitId(pub u32);

/// A written type, by its position in the facts' `types`.
#[derive(Clone, Copy, Debug, PartialEq, Eq, Hash)]
pub struct TypeRefId(pub u32);

/// A body, by its position in the facts' `bodies`.
#[derive(Clone, Copy, Debug, PartialEq, Eq, Hash)]
pub struct BodyId(pub u32);

/// An expression of a body.
#[derive(Clone, Copy, Debug, PartialEq, Eq, Hash)]
pub struct ExprId(pub u32);

/// A pattern of a body.
#[derive(Clone, Copy, Debug, PartialEq, Eq, Hash)]
pub struct PatId(pub u32);

/// A binding of a body: a local variable.
#[derive(Clone, Copy, Debug, PartialEq, Eq, Hash)]
pub struct BindingId(pub u32);

/// A label of a body.
#[derive(Clone, Copy, Debug, PartialEq, Eq, Hash)]
pub struct LabelId(pub u32);

/// A node of a body.
#[derive(Clone, Copy, Debug, PartialEq, Eq, Hash)]
pub enum ExprOrPatId {
    ExprId(ExprId),
    PatId(PatId),
}

/// A definition that may have a body.
#[derive(Clone, Copy, Debug, PartialEq, Eq, Hash)]
pub enum DefWithBodyId {
    FunctionId(FunctionId),
    ConstId(ConstId),
    StaticId(StaticId),
    VariantId(VariantId),
}

/// A struct, enum or union.
#[derive(Clone, Copy, Debug, PartialEq, Eq, Hash)]
pub struct AdtId(pub u32);

/// An associated type of a trait.
#[derive(Clone, Copy, Debug, PartialEq, Eq, Hash)]
pub struct TypeAliasId(pub u32);

/// An `impl` block.
#[derive(Clone, Copy, Debug, PartialEq, Eq, Hash)]
pub struct ImplId(pub u32);

/// An opaque type, as of `impl Trait`.
#[derive(Clone, Copy, Debug, PartialEq, Eq, Hash)]
pub struct OpaqueId(pub u32);

/// A closure, by its expression.
#[derive(Clone, Copy, Debug, PartialEq, Eq, Hash)]
pub struct ClosureId(pub ExprId);

/// What a function item's type names: a function, or the constructor of a tuple variant.
#[derive(Clone, Copy, Debug, PartialEq, Eq, Hash)]
pub enum CallableDefId {
    FunctionId(FunctionId),
    VariantId(VariantId),
}

/// An item that may have generic parameters: `GenericDefId` of rust-analyzer's `hir-def`.
#[derive(Clone, Copy, Debug, PartialEq, Eq, Hash)]
pub enum GenericDefId {
    AdtId(AdtId),
    ConstId(ConstId),
    FunctionId(FunctionId),
    ImplId(ImplId),
    StaticId(StaticId),
    TraitId(TraitId),
    TypeAliasId(TypeAliasId),
}
