//! Reading patterns.
ghost use Rattle.std.specs.Prelude.{◌≡◌, List, Result, Some, None, Ok, Err};
ghost use Rattle.serde_json.specs.View.{view};
ghost use Rattle.infer_text.specs.Own.{IsAsRead, record_field_pat_in, bind_in, tuple_pat_in, ctor_pat_by, ctor_pat_in, path_pat_in, record_pat_in, range_pat_in, slice_pat_in, ref_pat_in, later_pat_in, pat_in};

use super::fault::Misread;
use super::paths::AnyPath;
use super::reader::{FromData, expect_parts, is, misshapen, part_of, tag_of};
use hir_facts::{List, PatId, RawPat};
use hir_raw::{LaterPat, RawRecordFieldPat, RawVariantPath};
use serde_json::Value;
use std::alloc::Global;

#[tactic(auto, unfolding(crate::specs::Pats::record_field_pat_in))]
impl FromData for RawRecordFieldPat {
    ghost reads = { record_field_pat_in };

    fn from_data(alloc: Global, value: &Value) -> Result<RawRecordFieldPat, Misread> {
        expect_parts(alloc, value, 2)?;
        let name = part_of(alloc, value, 0)?;
        let pat = part_of(alloc, value, 1)?;
        Ok(RawRecordFieldPat { name, pat })
    }
}

#[tactic(auto, unfolding(crate::specs::Pats::bind_in))]
fn bind(alloc: Global, value: &Value) -> Result<RawPat, Misread>
    ensures { IsAsRead result (bind_in (view value.now)) }
{
    let id = part_of(alloc, value, 1)?;
    let subpat = part_of(alloc, value, 2)?;
    Ok(RawPat::Bind { id, subpat })
}

#[tactic(auto, unfolding(crate::specs::Pats::tuple_pat_in))]
fn tuple_pat(alloc: Global, value: &Value) -> Result<RawPat, Misread>
    ensures { IsAsRead result (tuple_pat_in (view value.now)) }
{
    let args = part_of(alloc, value, 1)?;
    match part_of(alloc, value, 2)? {
        None => Ok(RawPat::Tuple(args)),
        Some(dots) => Ok(RawPat::Later(LaterPat::TupleDots { args, dots })),
    }
}

/// The pattern of a constructor, which is carried where a variant alone is named and no `..` stands.
fn ctor_pat_of(path: RawVariantPath, args: List<PatId>, dots: Option<u32>) -> RawPat
    ensures { result ≡ ctor_pat_by path args dots }
{
    match path {
        RawVariantPath::Variant(variant, None) => match dots {
            None => RawPat::TupleStruct { variant, args },
            Some(_) => {
                let path = RawVariantPath::Variant(variant, None);
                RawPat::Later(LaterPat::TupleStruct { path, args, dots })
            }
        },
        path => RawPat::Later(LaterPat::TupleStruct { path, args, dots }),
    }
}

#[tactic(auto, unfolding(crate::specs::Pats::ctor_pat_in))]
fn ctor_pat(alloc: Global, value: &Value) -> Result<RawPat, Misread>
    ensures { IsAsRead result (ctor_pat_in (view value.now)) }
{
    let path = part_of(alloc, value, 1)?;
    let args = part_of(alloc, value, 2)?;
    let dots = part_of(alloc, value, 3)?;
    Ok(ctor_pat_of(path, args, dots))
}

#[tactic(auto, unfolding(crate::specs::Pats::path_pat_in))]
fn path_pat(alloc: Global, value: &Value) -> Result<RawPat, Misread>
    ensures { IsAsRead result (path_pat_in (view value.now)) }
{
    match part_of(alloc, value, 1)? {
        AnyPath::Raw(path) => Ok(RawPat::Path(path)),
        AnyPath::Later(path) => Ok(RawPat::Later(LaterPat::Path(path))),
    }
}

#[tactic(auto, unfolding(crate::specs::Pats::record_pat_in))]
fn record_pat(alloc: Global, value: &Value) -> Result<LaterPat, Misread>
    ensures { IsAsRead result (record_pat_in (view value.now)) }
{
    let path = part_of(alloc, value, 1)?;
    let args = part_of(alloc, value, 2)?;
    Ok(LaterPat::Record { path, args })
}

#[tactic(auto, unfolding(crate::specs::Pats::range_pat_in))]
fn range_pat(alloc: Global, value: &Value) -> Result<LaterPat, Misread>
    ensures { IsAsRead result (range_pat_in (view value.now)) }
{
    let start = part_of(alloc, value, 1)?;
    let end = part_of(alloc, value, 2)?;
    Ok(LaterPat::Range { start, end })
}

#[tactic(auto, unfolding(crate::specs::Pats::slice_pat_in))]
fn slice_pat(alloc: Global, value: &Value) -> Result<LaterPat, Misread>
    ensures { IsAsRead result (slice_pat_in (view value.now)) }
{
    let prefix = part_of(alloc, value, 1)?;
    let slice = part_of(alloc, value, 2)?;
    let suffix = part_of(alloc, value, 3)?;
    Ok(LaterPat::Slice {
        prefix,
        slice,
        suffix,
    })
}

#[tactic(auto, unfolding(crate::specs::Pats::ref_pat_in))]
fn ref_pat(alloc: Global, value: &Value) -> Result<LaterPat, Misread>
    ensures { IsAsRead result (ref_pat_in (view value.now)) }
{
    let mutability = part_of(alloc, value, 1)?;
    let pat = part_of(alloc, value, 2)?;
    Ok(LaterPat::Ref { mutability, pat })
}

/// A pattern of a kind that inference does not carry yet, by its tag.
#[tactic(auto, unfolding(crate::specs::Pats::later_pat_in))]
fn later_pat(alloc: Global, tag: (&str, usize), value: &Value) -> Result<LaterPat, Misread>
    ensures { IsAsRead result (later_pat_in (tag.entry.0.now, tag.entry.1) (view value.now)) }
{
    if is(tag, "missing", 0) {
        Ok(LaterPat::Missing)
    } else if is(tag, "record", 3) {
        record_pat(alloc, value)
    } else if is(tag, "range", 3) {
        range_pat(alloc, value)
    } else if is(tag, "slice", 4) {
        slice_pat(alloc, value)
    } else if is(tag, "ref", 3) {
        ref_pat(alloc, value)
    } else if is(tag, "or", 2) {
        Ok(LaterPat::Or(part_of(alloc, value, 1)?))
    } else if is(tag, "box", 2) {
        Ok(LaterPat::Box(part_of(alloc, value, 1)?))
    } else if is(tag, "const", 2) {
        Ok(LaterPat::ConstBlock(part_of(alloc, value, 1)?))
    } else if is(tag, "expr", 2) {
        Ok(LaterPat::Expr(part_of(alloc, value, 1)?))
    } else {
        Err(misshapen(alloc))
    }
}

#[tactic(auto, unfolding(crate::specs::Pats::pat_in))]
impl FromData for RawPat {
    ghost reads = { pat_in };

    fn from_data(alloc: Global, value: &Value) -> Result<RawPat, Misread> {
        let tag = tag_of(alloc, value)?;
        if is(tag, "wild", 0) {
            Ok(RawPat::Wild)
        } else if is(tag, "bind", 3) {
            bind(alloc, value)
        } else if is(tag, "tuple", 3) {
            tuple_pat(alloc, value)
        } else if is(tag, "ctor", 4) {
            ctor_pat(alloc, value)
        } else if is(tag, "path", 2) {
            path_pat(alloc, value)
        } else if is(tag, "lit", 2) {
            Ok(RawPat::Lit(part_of(alloc, value, 1)?))
        } else {
            Ok(RawPat::Later(later_pat(alloc, tag, value)?))
        }
    }
}
