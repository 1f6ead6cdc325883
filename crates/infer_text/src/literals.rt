//! Reading literals.
ghost use Rattle.std.specs.Prelude.{◌≡◌, List, Result, Some, None, Ok, Err};
ghost use Rattle.serde_json.specs.View.{view};
ghost use Rattle.infer_text.specs.Own.{IsAsRead, int_literal_in, literal_in};

use super::fault::Misread;
use super::reader::{FromData, is, misshapen, part_of, tag_of};
use hir_facts::RawLiteral;
use hir_raw::LaterLiteral;
use serde_json::Value;
use std::alloc::Global;

/// A literal: of a kind that inference carries, or of another.
#[derive(Debug, Drop)]
pub enum AnyLiteral {
    Raw(RawLiteral),
    Later(LaterLiteral),
}

#[tactic(auto, unfolding(crate::specs::Literals::int_literal_in))]
fn int_literal(alloc: Global, value: &Value) -> Result<AnyLiteral, Misread>
    ensures { IsAsRead result (int_literal_in (view value.now)) }
{
    let digits = part_of(alloc, value, 1)?;
    let suffix = part_of(alloc, value, 2)?;
    Ok(AnyLiteral::Raw(RawLiteral::Int { digits, suffix }))
}

#[tactic(auto, unfolding(crate::specs::Literals::literal_in))]
impl FromData for AnyLiteral {
    ghost reads = { literal_in };

    fn from_data(alloc: Global, value: &Value) -> Result<AnyLiteral, Misread> {
        let tag = tag_of(alloc, value)?;
        if is(tag, "bool", 2) {
            Ok(AnyLiteral::Raw(RawLiteral::Bool(part_of(alloc, value, 1)?)))
        } else if is(tag, "char", 2) {
            Ok(AnyLiteral::Raw(RawLiteral::Char(part_of(alloc, value, 1)?)))
        } else if is(tag, "int", 3) {
            int_literal(alloc, value)
        } else if is(tag, "str", 2) {
            Ok(AnyLiteral::Later(LaterLiteral::Str(part_of(alloc, value, 1)?)))
        } else if is(tag, "bytes", 2) {
            Ok(AnyLiteral::Later(LaterLiteral::Bytes(part_of(alloc, value, 1)?)))
        } else if is(tag, "cstr", 0) {
            Ok(AnyLiteral::Later(LaterLiteral::CStr))
        } else {
            Err(misshapen(alloc))
        }
    }
}
