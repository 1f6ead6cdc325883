//! Where projections may not stand: in fields that a variant `V` lists.
ghost use Rattle.std.specs.Prelude.{◌≡◌, ◌↔◌, ◌||◌, ℕ, false, get_or, length, IfOk, IsTrue, Some, slice_get};
ghost use Rattle.std.specs.List.{list_any};
ghost use Rattle.hir_ids.specs.Words.{is_alias, type_parts, RawField, IsNoProjection};
ghost use Rattle.hir_ids.specs.Words.hir_raw.declared.raw.RawCtor.TheVariants as ctor;
ghost use Rattle.hir_ids.specs.Own.{AreMarked};

use hir_raw::{RawCtor, RawFacts, RawField, RawType, RawVariant};
use hir_types::TypeRefId;
use std::alloc::{AllocError, Global};

/// Which written types hold a projection: they are one, or a type before them that they are made of holds one.
#[derive(Drop)]
pub struct ProjectionMarks {
    marks: Vec<bool>,
}

fn is_marked(marks: &[bool], at: usize) -> bool
    ensures { result ≡ get_or marks.now at false }
{
    match marks.get(at) {
        None => false,
        Some(mark) => *mark,
    }
}

fn any_marked(marks: &[bool], parts: &[TypeRefId]) -> bool
    ensures { result ≡ list_any (λ u. get_or marks.now u.0 false) parts.now }
{
    parts.iter().any(|part| is_marked(marks, part.0 as usize))
}

fn holds(marks: &[bool], ty: &RawType) -> bool
    ensures { result ≡ (is_alias ty.now || list_any (λ u. get_or marks.now u.0 false) (type_parts ty.now)) }
{
    ty.is_alias() || any_marked(marks, ty.parts())
}

fn marks_of(alloc: Global, types: &[RawType]) -> Result<Vec<bool>, AllocError>
    ensures { IfOk result (λ marks. AreMarked types.now (length types.now) marks.items) }
{
    let mut marks = Vec::new(alloc);
    for ty in types {
        let mark = holds(&marks, ty);
        marks.push(mark)?;
    }
    Ok(marks)
}

impl ProjectionMarks {
    /// Finds it out.
    pub fn new(alloc: Global, raw: &RawFacts) -> Result<ProjectionMarks, AllocError>
        ensures { IfOk result (λ it. AreMarked raw.now.types (length raw.now.types) it.marks.items) }
    {
        let marks = marks_of(alloc, raw.types.as_slice())?;
        Ok(ProjectionMarks { marks })
    }
}

fn is_no_projection(raw: &RawFacts, found: &ProjectionMarks, ty: TypeRefId) -> bool
    requires { AreMarked raw.now.types (length raw.now.types) found.now.marks.items }
    ensures { IsTrue result ↔ IsNoProjection raw.now ty.0 }
{
    !is_marked(&found.marks, ty.0 as usize)
}

fn fields_name_none(raw: &RawFacts, found: &ProjectionMarks, fields: &[RawField]) -> bool
    requires { AreMarked raw.now.types (length raw.now.types) found.now.marks.items }
    ensures { IsTrue result ↔ ((k : ℕ) (f : RawField) → slice_get fields.now k ≡ Some f → IsNoProjection raw.now f.type_.0) }
{
    fields
        .iter()
        .all(|field| is_no_projection(raw, found, field.type_))
}

/// Whether no projection stands in a field, if it is a variant `V`.
pub fn unit_names_none(raw: &RawFacts, found: &ProjectionMarks, variant: &RawVariant) -> bool
    requires { AreMarked raw.now.types (length raw.now.types) found.now.marks.items }
    ensures { IsTrue result ↔ (variant.now.ctor ≡ ctor.Unit → (k : ℕ) (f : RawField) → slice_get variant.now.fields k ≡ Some f → IsNoProjection raw.now f.type_.0) }
{
    match variant.ctor {
        RawCtor::Unit => fields_name_none(raw, found, variant.fields.as_slice()),
        RawCtor::Tuple | RawCtor::Record => true,
    }
}
