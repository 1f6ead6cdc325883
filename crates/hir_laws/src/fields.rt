//! The names of a variant's fields.
ghost use Rattle.std.specs.Prelude.{◌≡◌, ◌↔◌, ◌<◌, ℕ, Some, slice_get, length, ◌^◌, IsTrue, IfOk};
ghost use Rattle.std.specs.Fmt.{decimal};
ghost use Rattle.hir_laws.specs.Words.{RawField, AllHold, NamesFit};
ghost use Rattle.hir_laws.specs.Own.{IsNew};

use hir_ids::Test;
use hir_raw::{RawCtor, RawFacts, RawField, RawVariant};
use hir_types::Text;
use std::alloc::{AllocError, Global};

fn is_same(a: &Text, b: &Text) -> bool
    ensures { IsTrue result ↔ (a.now ≡ b.now) }
{
    a.as_str() == b.as_str()
}

fn is_number(alloc: Global, name: &Text, number: usize) -> Result<bool, AllocError>
    ensures { IfOk result (λ told. IsTrue told ↔ (name.now ≡ decimal number)) }
{
    let text = format!(in alloc; "{number}")?;
    Ok(name.as_str() == text.as_str())
}

fn are_numbered(alloc: Global, fields: &[RawField]) -> Result<bool, AllocError>
    ensures small { length fields.now < 2 ^ 64 }
    ensures told { IfOk result (λ told. IsTrue told ↔ AllHold (λ i f. f.name ≡ decimal i) fields.now) }
{
    for (at, field) in fields.iter().enumerate() {
        if !is_number(alloc, &field.name, at)? {
            return Ok(false);
        }
    }
    Ok(true)
}

fn is_new(before: &[RawField], name: &Text) -> bool
    ensures { IsTrue result ↔ ((j : ℕ) (g : RawField) → slice_get before.now j ≡ Some g → g.name ≡ name.now → ⊥) }
{
    before.iter().all(|field| !is_same(&field.name, name))
}

fn are_distinct(fields: &[RawField]) -> bool
    ensures { IsTrue result ↔ AllHold (IsNew fields.now) fields.now }
{
    for (at, field) in fields.iter().enumerate() {
        if !is_new(&fields[..at], &field.name) {
            return false;
        }
    }
    true
}

/// The names of a variant's fields are distinct, and those of a tuple numbers.
pub struct FieldNames;

impl Test for FieldNames {
    type Item = RawVariant;

    ghost listed = { λ raw. raw.variants };

    ghost holds = { λ raw i v. NamesFit v };

    ghost given = { λ raw s. Unit {0} };

    fn test(
        &self,
        alloc: Global,
        _raw: &RawFacts,
        _at: usize,
        item: &RawVariant,
    ) -> Result<bool, AllocError> {
        match item.ctor {
            RawCtor::Tuple => {
                let told = are_numbered(alloc, item.fields.as_slice())?;
                Ok(told)
            }
            RawCtor::Unit | RawCtor::Record => Ok(are_distinct(item.fields.as_slice())),
        }
    }
}
