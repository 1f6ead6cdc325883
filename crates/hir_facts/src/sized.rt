//! Predicates that say that a type parameter has a size: the Rust Reference, "Trait and lifetime bounds".
ghost use Rattle.std.specs.Prelude.{◌≡◌, ◌↔◌, slice_get, IsTrue};
ghost use Rattle.std.specs.List.{list_all, list_any};
ghost use Rattle.hir_facts.specs.Words.{is_sized_lang};
ghost use Rattle.hir_facts.specs.Own.{is_one_sized_lang, is_sized_trait, param_number, only_param, sized_param, is_number, is_below, is_sized_of, is_sized_pred, HasSizedParams};

use hir_raw::{RawFacts, RawFn, RawGoal, RawLang, RawType, some_sized};
use hir_types::{TraitId, TypeRefId};

/// Whether the item is none of this name, or the trait.
fn is_one_sized_lang(id: TraitId, item: RawLang) -> bool
    ensures { result ≡ is_one_sized_lang id item }
{
    match item {
        RawLang::Sized(sized) => sized.0 == id.0,
        RawLang::Copy(_) | RawLang::Clone(_) | RawLang::Other => true,
    }
}

fn no_other_sized(raw: &RawFacts, id: TraitId) -> bool
    ensures { result ≡ list_all (is_one_sized_lang id) raw.now.lang }
{
    raw.lang
        .as_slice()
        .iter()
        .all(|item| is_one_sized_lang(id, *item))
}

/// Whether the trait is that of types whose size is known, and there is no other.
fn is_sized_trait(raw: &RawFacts, id: TraitId) -> bool
    ensures { result ≡ is_sized_trait raw.now id }
{
    some_sized(raw, id) && no_other_sized(raw, id)
}

/// The number of the parameter that a written type is.
fn param_number(raw: &RawFacts, ty: TypeRefId) -> Option<u32>
    ensures { result ≡ param_number (slice_get raw.now.types ty.0) }
{
    match raw.types.get(ty.0 as usize) {
        Some(RawType::Param(number)) => Some(*number),
        _ => None,
    }
}

/// The number of the parameter that a list's one type is.
fn only_param(raw: &RawFacts, types: &[TypeRefId]) -> Option<u32>
    ensures { result ≡ only_param raw.now types.now }
{
    match types {
        [ty] => param_number(raw, *ty),
        _ => None,
    }
}

/// The number of the parameter of which a predicate says that it has a size.
fn sized_param(raw: &RawFacts, pred: &RawGoal) -> Option<u32>
    ensures { result ≡ sized_param raw.now pred.now }
{
    match pred {
        RawGoal::Trait(trait_ref) => {
            if is_sized_trait(raw, trait_ref.trait_) {
                only_param(raw, trait_ref.args.types())
            } else {
                None
            }
        }
        RawGoal::Projection { .. } => None,
    }
}

fn is_number(wanted: usize, number: Option<u32>) -> bool
    ensures { result ≡ is_number wanted number }
{
    match number {
        None => false,
        Some(number) => number as usize == wanted,
    }
}

fn is_below(count: usize, number: Option<u32>) -> bool
    ensures { result ≡ is_below count number }
{
    match number {
        None => false,
        Some(number) => (number as usize) < count,
    }
}

fn is_sized_of(raw: &RawFacts, param: usize, pred: &RawGoal) -> bool
    ensures { result ≡ is_sized_of raw.now param pred.now }
{
    is_number(param, sized_param(raw, pred))
}

fn is_sized_pred(raw: &RawFacts, count: usize, pred: &RawGoal) -> bool
    ensures { result ≡ is_sized_pred raw.now count pred.now }
{
    is_below(count, sized_param(raw, pred))
}

/// Whether each predicate says that one of so many type parameters has a size.
pub fn are_sized_preds(raw: &RawFacts, count: usize, preds: &[RawGoal]) -> bool
    ensures { result ≡ list_all (is_sized_pred raw.now count) preds.now }
{
    preds.iter().all(|pred| is_sized_pred(raw, count, pred))
}

/// Whether some predicate says that this type parameter has a size.
pub fn is_sized_param(raw: &RawFacts, preds: &[RawGoal], param: usize) -> bool
    ensures { result ≡ list_any (is_sized_of raw.now param) preds.now }
{
    preds.iter().any(|pred| is_sized_of(raw, param, pred))
}

/// Whether each type parameter of a function has a predicate that it has a size.
pub fn has_sized_params(raw: &RawFacts, function: &RawFn) -> bool
    ensures { IsTrue result ↔ HasSizedParams raw.now function.now }
{
    for param in 0..function.params.len() {
        if !is_sized_param(raw, function.preds.as_slice(), param) {
            return false;
        }
    }
    true
}
