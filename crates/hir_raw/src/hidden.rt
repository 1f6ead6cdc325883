//! Associated types in what functions and constructors take and give.
ghost use Rattle.std.specs.Prelude.{◌≡◌, ◌++◌, length, IfOk, OnOk};
ghost use Rattle.hir_raw.specs.Own.{fn_arity, variant_arity, aliases_within, parts_aliases, fn_aliases, field_refs, variant_aliases, less};

use crate::raw::{RawField, RawFn, RawType, RawVariant};
use hir_types::TypeRefId;
use std::alloc::{AllocError, Global};

/// The associated types that stand outermost in a type whose parts are at most so many steps below it, in order.
#[cycle(push)]
pub fn push_aliases(
    types: &[RawType],
    steps: usize,
    ty: usize,
    found: &mut Vec<usize>,
) -> Result<(), AllocError>
    ensures { OnOk result (found.new.items ≡ found.old.items ++ aliases_within steps types.now ty) }
{
    if steps == 0 {
        return Ok(());
    }
    if let Some(written) = types.get(ty) {
        if written.is_alias() {
            found.push(ty)?;
        } else {
            push_parts(types, steps - 1, written.parts(), found)?;
        }
    }
    Ok(())
}

#[cycle(push)]
fn push_parts(
    types: &[RawType],
    steps: usize,
    parts: &[TypeRefId],
    found: &mut Vec<usize>,
) -> Result<(), AllocError>
    ensures { OnOk result (found.new.items ≡ found.old.items ++ parts_aliases steps types.now parts.now) }
{
    for part in parts {
        push_aliases(types, steps, part.0 as usize, found)?;
    }
    Ok(())
}

/// The associated types that stand outermost in what a function takes, and then in what it gives, in order.
pub fn fn_aliases(
    alloc: Global,
    types: &[RawType],
    function: &RawFn,
) -> Result<Vec<usize>, AllocError>
    ensures { IfOk result (λ ks. ks.items ≡ fn_aliases types.now function.now) }
{
    let mut found = Vec::new(alloc);
    push_parts(types, types.len(), function.inputs.as_slice(), &mut found)?;
    push_aliases(types, types.len(), function.output.0 as usize, &mut found)?;
    Ok(found)
}

/// How many parameters a function has when it is called: its own, and one for each of these.
pub fn fn_arity(alloc: Global, types: &[RawType], function: &RawFn) -> Result<usize, AllocError>
    ensures { IfOk result (λ n. n ≡ fn_arity types.now function.now) }
{
    let aliases = fn_aliases(alloc, types, function)?;
    // No lists of so many are in memory.
    let count = function
        .params
        .len()
        .checked_add(aliases.len())
        .ok_or(AllocError)?;
    Ok(count)
}

fn push_fields(
    types: &[RawType],
    fields: &[RawField],
    found: &mut Vec<usize>,
) -> Result<(), AllocError>
    ensures { OnOk result (found.new.items ≡ found.old.items ++ parts_aliases (length types.now) types.now (field_refs fields.now)) }
{
    for field in fields {
        push_aliases(types, types.len(), field.type_.0 as usize, found)?;
    }
    Ok(())
}

/// The associated types that stand outermost in the fields of a variant, in order.
pub fn variant_aliases(
    alloc: Global,
    types: &[RawType],
    variant: &RawVariant,
) -> Result<Vec<usize>, AllocError>
    ensures { IfOk result (λ ks. ks.items ≡ variant_aliases types.now variant.now) }
{
    let mut found = Vec::new(alloc);
    push_fields(types, variant.fields.as_slice(), &mut found)?;
    Ok(found)
}

/// How many parameters the constructor of a variant has, whose adt has so many: these, and one for each of these.
pub fn variant_arity(
    alloc: Global,
    types: &[RawType],
    variant: &RawVariant,
    params: usize,
) -> Result<usize, AllocError>
    ensures { IfOk result (λ n. n ≡ variant_arity types.now variant.now params) }
{
    let aliases = variant_aliases(alloc, types, variant)?;
    // No lists of so many are in memory.
    let count = params.checked_add(aliases.len()).ok_or(AllocError)?;
    Ok(count)
}

#[cycle(less)]
fn less_aliases(types: &[RawType], steps: usize, ty: usize, count: usize) -> Option<usize>
    ensures { result ≡ less count (length (aliases_within steps types.now ty)) }
{
    if steps == 0 {
        return Some(count);
    }
    match types.get(ty) {
        Some(written) => {
            if written.is_alias() {
                count.checked_sub(1)
            } else {
                less_parts(types, steps - 1, written.parts(), count)
            }
        }
        None => Some(count),
    }
}

#[cycle(less)]
fn less_parts(types: &[RawType], steps: usize, parts: &[TypeRefId], count: usize) -> Option<usize>
    ensures { result ≡ less count (length (parts_aliases steps types.now parts.now)) }
{
    let mut left = count;
    for part in parts {
        match less_aliases(types, steps, part.0 as usize, left) {
            Some(count) => left = count,
            None => return None,
        }
    }
    Some(left)
}

/// What is left of a count where one is taken for each of the associated types of a function, if it is not less.
pub fn less_fn_aliases(types: &[RawType], function: &RawFn, count: usize) -> Option<usize>
    ensures { result ≡ less count (length (fn_aliases types.now function.now)) }
{
    match less_parts(types, types.len(), function.inputs.as_slice(), count) {
        Some(left) => less_aliases(types, types.len(), function.output.0 as usize, left),
        None => None,
    }
}

/// What is left of a count where one is taken for each of the associated types in the fields of a variant, if it is not less.
pub fn less_variant_aliases(types: &[RawType], variant: &RawVariant, count: usize) -> Option<usize>
    ensures { result ≡ less count (length (variant_aliases types.now variant.now)) }
{
    let mut left = count;
    for field in variant.fields.as_slice() {
        match less_aliases(types, types.len(), field.type_.0 as usize, left) {
            Some(count) => left = count,
            None => return None,
        }
    }
    Some(left)
}
