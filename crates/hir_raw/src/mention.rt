//! What a node names beside its parts.
use crate::later::RawConst;
use hir_types::{
    BindingId, ConstId, FunctionId, ImplId, LabelId, StaticId, TraitId, TypeRefId, VariantId,
};

/// What a node does with a label.
#[derive(Clone, Copy, Debug)]
pub enum LabelRole {
    /// It stands at the node.
    Here,
    /// Control leaves from the node to where it stands.
    Left,
}

/// What a node names beside its parts.
#[derive(Clone, Copy, Debug)]
pub enum Mention {
    /// A written type.
    Type(TypeRefId),
    /// A local that is read.
    Local(BindingId),
    /// A binding that is bound here.
    Binds(BindingId),
    /// A function of a module, by its path.
    Function(FunctionId),
    /// A variant of an adt.
    Variant(VariantId),
    /// A constant of a module, by its path.
    ConstItem(ConstId),
    Static(StaticId),
    /// A trait.
    Trait(TraitId),
    /// The impl whose `Self` is meant.
    SelfOf(ImplId),
    /// The const parameter with this number.
    ConstParam(u32),
    /// A const argument or a length.
    Const(RawConst),
    /// A label.
    Label(LabelRole, LabelId),
    /// A list with so many entries.
    List(usize),
}

/// What is mentioned, and by which node.
#[derive(Clone, Copy, Debug)]
pub struct Said {
    /// The node's position among the expressions, the patterns and the body.
    pub node: usize,
    pub mention: Mention,
}
