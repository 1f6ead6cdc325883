//! The ids of adts and variants are in range, and the two agree.
ghost use Rattle.std.specs.Prelude.{◌≡◌, ◌↔◌, ◌<◌, ◌++◌, ℕ, Some, slice_get, length, map, IsTrue, IfOk, IfSome, OnOk};
ghost use Rattle.hir_ids.specs.Words.{VariantId, RawField, IsVariantOf, AdtIdsExist, listed_variants, FieldIdsExist, VariantIdsHere, VariantIdsExist};
ghost use Rattle.hir_ids.specs.Own.{AreListers};

use crate::goal_ids::have_goal_ids;
use crate::ids::has_vis;
use crate::namers::{Namers, is_one, namers_of};
use crate::test::Test;
use hir_raw::{RawAdt, RawFacts, RawField, RawVariant};
use hir_types::VariantId;
use std::alloc::{AllocError, Global};

fn is_variant_of(raw: &RawFacts, at: usize, variant: VariantId) -> bool
    ensures { IsTrue result ↔ IsVariantOf raw.now at variant }
{
    match raw.variants.get(variant.0 as usize) {
        None => false,
        Some(variant) => variant.adt.0 as usize == at,
    }
}

fn are_variants_of(raw: &RawFacts, at: usize, variants: &[VariantId]) -> bool
    ensures { IsTrue result ↔ ((k : ℕ) (v : VariantId) → slice_get variants.now k ≡ Some v → IsVariantOf raw.now at v) }
{
    variants
        .iter()
        .all(|variant| is_variant_of(raw, at, *variant))
}

/// The variants of an adt exist, and say that they are its; what it asks for names what exists.
pub struct AdtIds;

impl Test for AdtIds {
    type Item = RawAdt;

    ghost listed = { λ raw. raw.adts };

    ghost holds = { AdtIdsExist };

    ghost given = { λ raw s. Unit {0} };

    fn test(
        &self,
        _alloc: Global,
        raw: &RawFacts,
        at: usize,
        item: &RawAdt,
    ) -> Result<bool, AllocError> {
        Ok(
            are_variants_of(raw, at, item.variants.as_slice())
                && have_goal_ids(raw, item.preds.as_slice()),
        )
    }
}

fn push_variants(out: &mut Vec<Option<usize>>, variants: &[VariantId]) -> Result<(), AllocError>
    ensures { OnOk result (out.new.items ≡ out.old.items ++ map (λ v. Some v.0) variants.now) }
{
    for variant in variants {
        out.push(Some(variant.0 as usize))?;
    }
    Ok(())
}

fn listed_variants(alloc: Global, adts: &[RawAdt]) -> Result<Vec<Option<usize>>, AllocError>
    ensures { IfOk result (λ v. v.items ≡ listed_variants adts.now) }
{
    let mut out = Vec::new(alloc);
    for adt in adts {
        push_variants(&mut out, adt.variants.as_slice())?;
    }
    Ok(out)
}

fn has_field_ids(raw: &RawFacts, field: &RawField) -> bool
    ensures { IsTrue result ↔ FieldIdsExist raw.now field.now }
{
    (field.type_.0 as usize) < raw.types.len() && has_vis(raw, &field.vis)
}

fn have_field_ids(raw: &RawFacts, fields: &[RawField]) -> bool
    ensures { IsTrue result ↔ ((k : ℕ) (f : RawField) → slice_get fields.now k ≡ Some f → FieldIdsExist raw.now f) }
{
    fields.iter().all(|field| has_field_ids(raw, field))
}

fn has_body(raw: &RawFacts, variant: &RawVariant) -> bool
    ensures { IsTrue result ↔ IfSome variant.now.body (λ b. b.0 < length raw.now.bodies) }
{
    match variant.body {
        None => true,
        Some(body) => (body.0 as usize) < raw.bodies.len(),
    }
}

fn has_variant_ids(raw: &RawFacts, variant: &RawVariant) -> bool
    ensures { IsTrue result ↔ VariantIdsHere raw.now variant.now }
{
    (variant.adt.0 as usize) < raw.adts.len()
        && have_field_ids(raw, variant.fields.as_slice())
        && has_body(raw, variant)
}

/// The ids of a variant are in range, and one adt lists it, once.
#[derive(Drop)]
pub struct VariantIds {
    listers: Vec<Namers>,
}

impl VariantIds {
    /// Finds out which adts list each variant.
    pub fn new(alloc: Global, raw: &RawFacts) -> Result<VariantIds, AllocError>
        ensures { IfOk result (λ it. AreListers raw.now it.listers.items) }
    {
        let listed = listed_variants(alloc, raw.adts.as_slice())?;
        let listers = namers_of(alloc, &listed, raw.variants.len())?;
        Ok(VariantIds { listers })
    }
}

impl Test for VariantIds {
    type Item = RawVariant;

    ghost listed = { λ raw. raw.variants };

    ghost holds = { VariantIdsExist };

    ghost given = { λ raw s. AreListers raw s.listers.items };

    fn test(
        &self,
        _alloc: Global,
        raw: &RawFacts,
        at: usize,
        item: &RawVariant,
    ) -> Result<bool, AllocError> {
        Ok(is_one(self.listers[at]) && has_variant_ids(raw, item))
    }
}
