//! How many parameters items have.
ghost use Rattle.std.specs.Prelude.{◌≡◌, option_map, slice_get};
ghost use Rattle.std.specs.List.{list_any};
ghost use Rattle.hir_raw.specs.Own.{is_sized_lang, fn_params, adt_params, variant_arity, callable_params, has_params, params_in_trait, alias_params_by, params_of_item, generic_params, is_size_goal, states_more, names_alias, has_associated};
ghost use Rattle.hir_types.specs.declared.ids.GenericDefId.TheVariants as generic;

use crate::hidden::{less_fn_aliases, less_variant_aliases};
use crate::raw::{RawFacts, RawFn, RawGoal, RawLang, RawVariant};
use hir_types::{
    AdtId, CallableDefId, DefWithBodyId, FunctionId, GenericDefId, ImplId, TraitId, TypeAliasId,
};

fn fn_params(raw: &RawFacts, function: FunctionId) -> Option<usize>
    ensures { result ≡ fn_params raw.now function.0 }
{
    match raw.fns.get(function.0 as usize) {
        Some(function) => Some(function.params.len()),
        None => None,
    }
}

/// How many parameters an adt has, or `None` where it is not in range.
pub fn adt_params(raw: &RawFacts, adt: AdtId) -> Option<usize>
    ensures { result ≡ adt_params raw.now adt }
{
    match raw.adts.get(adt.0 as usize) {
        Some(adt) => Some(adt.params.len()),
        None => None,
    }
}

/// Whether an item exists and has this many parameters.
pub fn has_params(params: Option<usize>, count: usize) -> bool
    ensures { result ≡ has_params params count }
{
    match params {
        Some(params) => params == count,
        None => false,
    }
}

/// Whether a function or constructor exists and has this many parameters when it is called.
pub fn callable_has_params(raw: &RawFacts, callable: CallableDefId, count: usize) -> bool
    ensures { result ≡ has_params (callable_params raw.now callable) count }
{
    match callable {
        CallableDefId::FunctionId(function) => match raw.fns.get(function.0 as usize) {
            Some(function) => {
                let left = less_fn_aliases(raw.types.as_slice(), function, count);
                has_params(left, function.params.len())
            }
            None => false,
        },
        CallableDefId::VariantId(variant) => match raw.variants.get(variant.0 as usize) {
            Some(variant) => ctor_has_params(raw, variant, count),
            None => false,
        },
    }
}

/// Whether the constructor of a variant whose adt exists has this many parameters.
fn ctor_has_params(raw: &RawFacts, variant: &RawVariant, count: usize) -> bool
    ensures { result ≡ has_params (option_map (variant_arity raw.now.types variant.now) (adt_params raw.now variant.now.adt)) count }
{
    match raw.adts.get(variant.adt.0 as usize) {
        Some(adt) => {
            let left = less_variant_aliases(raw.types.as_slice(), variant, count);
            has_params(left, adt.params.len())
        }
        None => false,
    }
}

fn params_in_trait(raw: &RawFacts, id: TraitId) -> Option<usize>
    ensures { result ≡ params_in_trait raw.now id }
{
    match raw.traits.get(id.0 as usize) {
        Some(item) => Some(item.params.as_slice().len() + 1),
        None => None,
    }
}

/// How many parameters an associated type has, those of its trait, or `None` where it is not in range.
pub fn alias_params(raw: &RawFacts, alias: TypeAliasId) -> Option<usize>
    ensures { result ≡ alias_params_by raw.now (slice_get raw.now.aliases alias.0) }
{
    match raw.aliases.get(alias.0 as usize) {
        Some(alias) => params_in_trait(raw, alias.trait_),
        None => None,
    }
}

fn impl_params(raw: &RawFacts, id: ImplId) -> Option<usize>
    ensures { result ≡ params_of_item raw.now (generic.ImplId id) }
{
    match raw.impls.get(id.0 as usize) {
        Some(item) => Some(item.params.len()),
        None => None,
    }
}

/// How many parameters are in scope in the types of an item in range: its own, and in a trait and its
/// associated types also the type that implements it. Constants and statics are not carried yet, and have
/// none.
pub fn generic_params(raw: &RawFacts, item: GenericDefId) -> usize
    ensures { result ≡ generic_params raw.now item }
{
    let params = match item {
        GenericDefId::AdtId(adt) => adt_params(raw, adt),
        GenericDefId::FunctionId(function) => fn_params(raw, function),
        GenericDefId::TraitId(id) => params_in_trait(raw, id),
        GenericDefId::TypeAliasId(alias) => alias_params(raw, alias),
        GenericDefId::ImplId(id) => impl_params(raw, id),
        GenericDefId::ConstId(_) | GenericDefId::StaticId(_) => None,
    };
    match params {
        Some(params) => params,
        None => 0,
    }
}

fn is_sized_lang(id: TraitId, item: RawLang) -> bool
    ensures { result ≡ is_sized_lang id item }
{
    match item {
        RawLang::Sized(sized) => sized.0 == id.0,
        RawLang::Copy(_) | RawLang::Clone(_) | RawLang::Other => false,
    }
}

/// Whether some item says that the trait is that of types whose size is known.
pub fn some_sized(raw: &RawFacts, id: TraitId) -> bool
    ensures { result ≡ list_any (is_sized_lang id) raw.now.lang }
{
    raw.lang
        .as_slice()
        .iter()
        .any(|item| is_sized_lang(id, *item))
}

fn is_size_goal(raw: &RawFacts, goal: &RawGoal) -> bool
    ensures { result ≡ is_size_goal raw.now goal.now }
{
    match goal {
        RawGoal::Trait(trait_ref) => some_sized(raw, trait_ref.trait_),
        RawGoal::Projection { .. } => false,
    }
}

fn states_more(raw: &RawFacts, function: &RawFn) -> bool
    ensures { result ≡ states_more raw.now function.now }
{
    function
        .preds
        .as_slice()
        .iter()
        .any(|goal| !is_size_goal(raw, goal))
}

fn names_alias(raw: &RawFacts, function: &RawFn) -> bool
    ensures { result ≡ names_alias raw.now function.now }
{
    less_fn_aliases(raw.types.as_slice(), function, 0).is_none()
}

/// Whether associated types that stay may be types in the body of a definition: its function states more
/// than that types have a size, or takes or gives some.
pub fn has_associated(raw: &RawFacts, owner: DefWithBodyId) -> bool
    ensures { result ≡ has_associated raw.now owner }
{
    match owner {
        DefWithBodyId::FunctionId(function) => match raw.fns.get(function.0 as usize) {
            Some(function) => states_more(raw, function) || names_alias(raw, function),
            None => false,
        },
        _ => false,
    }
}
