//! Reading the written arguments of paths and calls in bodies.
ghost use Rattle.std.specs.Prelude.{◌≡◌, List, Result, Some, None, Ok, Err};
ghost use Rattle.serde_json.specs.View.{view};
ghost use Rattle.infer_text.specs.Own.{IsAsRead, named_const_in, const_in, written_arg_in};

use super::fault::Misread;
use super::reader::{FromData, is, misshapen, part_of, tag_of};
use hir_raw::{RawArg, RawConst};
use serde_json::Value;
use std::alloc::Global;

#[tactic(auto, unfolding(crate::specs::WrittenArgs::named_const_in))]
fn named_const(alloc: Global, value: &Value) -> Result<RawConst, Misread>
    ensures { IsAsRead result (named_const_in (view value.now)) }
{
    let tag = tag_of(alloc, value)?;
    if is(tag, "param", 2) {
        Ok(RawConst::Param(part_of(alloc, value, 1)?))
    } else if is(tag, "unknown", 0) {
        Ok(RawConst::Unknown)
    } else if is(tag, "_", 0) {
        Ok(RawConst::Hole)
    } else {
        Err(misshapen(alloc))
    }
}

#[tactic(auto, unfolding(crate::specs::WrittenArgs::const_in))]
impl FromData for RawConst {
    ghost reads = { const_in };

    fn from_data(alloc: Global, value: &Value) -> Result<RawConst, Misread> {
        match value.as_u64() {
            Some(number) => Ok(RawConst::Value(number)),
            None => named_const(alloc, value),
        }
    }
}

#[tactic(auto, unfolding(crate::specs::WrittenArgs::written_arg_in))]
impl FromData for RawArg {
    ghost reads = { written_arg_in };

    fn from_data(alloc: Global, value: &Value) -> Result<RawArg, Misread> {
        let tag = tag_of(alloc, value)?;
        if is(tag, "t", 2) {
            Ok(RawArg::Type(part_of(alloc, value, 1)?))
        } else if is(tag, "c", 2) {
            Ok(RawArg::Const(part_of(alloc, value, 1)?))
        } else {
            Err(misshapen(alloc))
        }
    }
}
