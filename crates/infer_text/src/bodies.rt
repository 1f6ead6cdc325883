//! Reading bodies.
ghost use Rattle.std.specs.Prelude.{◌≡◌, List, Result, Ok, Err};
ghost use Rattle.serde_json.specs.View.{view};
ghost use Rattle.infer_text.specs.Own.{binding_in, body_in};

use super::fault::Misread;
use super::reader::{FromData, expect_keys, expect_parts, field_of, part_of};
use hir_facts::{RawBinding, RawBody};
use serde_json::Value;
use std::alloc::Global;

#[tactic(auto, unfolding(crate::specs::Bodies::binding_in))]
impl FromData for RawBinding {
    ghost reads = { binding_in };

    fn from_data(alloc: Global, value: &Value) -> Result<RawBinding, Misread> {
        expect_parts(alloc, value, 2)?;
        let name = part_of(alloc, value, 0)?;
        let mode = part_of(alloc, value, 1)?;
        Ok(RawBinding { name, mode })
    }
}

#[tactic(auto, unfolding(crate::specs::Bodies::body_in))]
impl FromData for RawBody {
    ghost reads = { body_in };

    fn from_data(alloc: Global, value: &Value) -> Result<RawBody, Misread> {
        expect_keys(alloc, value, 9)?;
        let module = field_of(alloc, value, "module")?;
        let traits = field_of(alloc, value, "traits")?;
        let self_ = field_of(alloc, value, "self")?;
        let params = field_of(alloc, value, "params")?;
        let root = field_of(alloc, value, "root")?;
        let exprs = field_of(alloc, value, "exprs")?;
        let pats = field_of(alloc, value, "pats")?;
        let bindings = field_of(alloc, value, "bindings")?;
        let labels = field_of(alloc, value, "labels")?;
        Ok(RawBody {
            module,
            traits,
            self_,
            params,
            root,
            exprs,
            pats,
            bindings,
            labels,
        })
    }
}
