//! Types, and the ids, lists and texts that all crates share.
#![tactic(auto)]

mod boxed;
mod fold;
mod folded;
mod goal;
mod head;
mod ids;
mod instances;
mod list;
mod outline;
mod room;
mod subst;
mod text;
mod ty;
mod unchanged;

pub use boxed::Boxed;
pub use fold::{TypeFolder, fold_arg, fold_args, fold_const, fold_trait, fold_ty};
pub use folded::Folded;
pub use goal::{Canonical, Goal};
pub use head::{Head, Hole, HoleKind};
pub use ids::{
    AdtId, BindingId, BodyId, CallableDefId, ClosureId, ConstId, DefWithBodyId, ExprId,
    ExprOrPatId, FunctionId, GenericDefId, ImplId, LabelId, ModuleId, OpaqueId, PatId, StaticId,
    TraitId, TypeAliasId, TypeRefId, VariantId,
};
pub use instances::instantiate;
pub use list::List;
pub use outline::{Outline, OutlinePart};
pub use room::{MOST_LEVELS, Room};
pub use subst::Subst;
pub use text::Text;
pub use ty::{
    AliasBound, Const, FloatTy, GenericArg, IntTy, IntegerTy, Mutability, Region, Safety, TraitRef,
    Ty, UintTy,
};
pub use unchanged::Unchanged;
