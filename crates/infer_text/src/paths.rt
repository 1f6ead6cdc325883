//! Reading paths.
ghost use Rattle.std.specs.Prelude.{◌≡◌, List, Result, Some, None, Ok, Err};
ghost use Rattle.serde_json.specs.View.{view};
ghost use Rattle.infer_text.specs.Own.{IsAsRead, local_in, function_in, ctor_path_in, const_path_in, static_path_in, typed_path_in, trait_path_in, self_path_in, const_param_in, later_path_in, path_in, named_variant_in, typed_variant_in, variant_path_in};

use super::fault::Misread;
use super::reader::{FromData, is, misshapen, part_of, tag_of};
use hir_facts::RawPath;
use hir_raw::{LaterPath, RawVariantPath};
use serde_json::Value;
use std::alloc::Global;

/// A path: of a kind that inference carries, or of another.
#[derive(Debug, Drop)]
pub enum AnyPath {
    Raw(RawPath),
    Later(LaterPath),
}

#[tactic(auto, unfolding(crate::specs::Paths::local_in))]
fn local(alloc: Global, value: &Value) -> Result<AnyPath, Misread>
    ensures { IsAsRead result (local_in (view value.now)) }
{
    let binding = part_of(alloc, value, 1)?;
    match part_of(alloc, value, 2)? {
        None => Ok(AnyPath::Raw(RawPath::Local(binding))),
        Some(args) => Ok(AnyPath::Later(LaterPath::Local(binding, args))),
    }
}

#[tactic(auto, unfolding(crate::specs::Paths::function_in))]
fn function(alloc: Global, value: &Value) -> Result<AnyPath, Misread>
    ensures { IsAsRead result (function_in (view value.now)) }
{
    let function = part_of(alloc, value, 1)?;
    match part_of(alloc, value, 2)? {
        None => Ok(AnyPath::Raw(RawPath::Function(function))),
        Some(args) => Ok(AnyPath::Later(LaterPath::Function(function, args))),
    }
}

#[tactic(auto, unfolding(crate::specs::Paths::ctor_path_in))]
fn ctor_path(alloc: Global, value: &Value) -> Result<AnyPath, Misread>
    ensures { IsAsRead result (ctor_path_in (view value.now)) }
{
    let variant = part_of(alloc, value, 1)?;
    match part_of(alloc, value, 2)? {
        None => Ok(AnyPath::Raw(RawPath::Ctor(variant))),
        Some(args) => Ok(AnyPath::Later(LaterPath::Ctor(variant, args))),
    }
}

#[tactic(auto, unfolding(crate::specs::Paths::const_path_in))]
fn const_path(alloc: Global, value: &Value) -> Result<LaterPath, Misread>
    ensures { IsAsRead result (const_path_in (view value.now)) }
{
    let item = part_of(alloc, value, 1)?;
    let args = part_of(alloc, value, 2)?;
    Ok(LaterPath::Const(item, args))
}

#[tactic(auto, unfolding(crate::specs::Paths::static_path_in))]
fn static_path(alloc: Global, value: &Value) -> Result<LaterPath, Misread>
    ensures { IsAsRead result (static_path_in (view value.now)) }
{
    let item = part_of(alloc, value, 1)?;
    let args = part_of(alloc, value, 2)?;
    Ok(LaterPath::Static(item, args))
}

#[tactic(auto, unfolding(crate::specs::Paths::typed_path_in))]
fn typed_path(alloc: Global, value: &Value) -> Result<LaterPath, Misread>
    ensures { IsAsRead result (typed_path_in (view value.now)) }
{
    let ty = part_of(alloc, value, 1)?;
    let name = part_of(alloc, value, 2)?;
    let args = part_of(alloc, value, 3)?;
    Ok(LaterPath::Typed { ty, name, args })
}

#[tactic(auto, unfolding(crate::specs::Paths::trait_path_in))]
fn trait_path(alloc: Global, value: &Value) -> Result<LaterPath, Misread>
    ensures { IsAsRead result (trait_path_in (view value.now)) }
{
    let trait_ = part_of(alloc, value, 1)?;
    let trait_args = part_of(alloc, value, 2)?;
    let name = part_of(alloc, value, 3)?;
    let args = part_of(alloc, value, 4)?;
    Ok(LaterPath::Trait {
        trait_,
        trait_args,
        name,
        args,
    })
}

#[tactic(auto, unfolding(crate::specs::Paths::self_path_in))]
fn self_path(alloc: Global, value: &Value) -> Result<LaterPath, Misread>
    ensures { IsAsRead result (self_path_in (view value.now)) }
{
    let item = part_of(alloc, value, 1)?;
    let args = part_of(alloc, value, 2)?;
    Ok(LaterPath::SelfCtor(item, args))
}

#[tactic(auto, unfolding(crate::specs::Paths::const_param_in))]
fn const_param(alloc: Global, value: &Value) -> Result<LaterPath, Misread>
    ensures { IsAsRead result (const_param_in (view value.now)) }
{
    let number = part_of(alloc, value, 1)?;
    let args = part_of(alloc, value, 2)?;
    Ok(LaterPath::ConstParam(number, args))
}

#[tactic(auto, unfolding(crate::specs::Paths::later_path_in))]
fn later_path(alloc: Global, tag: (&str, usize), value: &Value) -> Result<LaterPath, Misread>
    ensures { IsAsRead result (later_path_in (tag.entry.0.now, tag.entry.1) (view value.now)) }
{
    if is(tag, "const", 3) {
        const_path(alloc, value)
    } else if is(tag, "static", 3) {
        static_path(alloc, value)
    } else if is(tag, "typed", 4) {
        typed_path(alloc, value)
    } else if is(tag, "trait", 5) {
        trait_path(alloc, value)
    } else if is(tag, "implself", 3) {
        self_path(alloc, value)
    } else if is(tag, "constparam", 3) {
        const_param(alloc, value)
    } else if is(tag, "unresolved", 2) {
        let is_ident = part_of(alloc, value, 1)?;
        Ok(LaterPath::Unresolved { is_ident })
    } else {
        Err(misshapen(alloc))
    }
}

#[tactic(auto, unfolding(crate::specs::Paths::path_in))]
impl FromData for AnyPath {
    ghost reads = { path_in };

    fn from_data(alloc: Global, value: &Value) -> Result<AnyPath, Misread> {
        let tag = tag_of(alloc, value)?;
        if is(tag, "local", 3) {
            local(alloc, value)
        } else if is(tag, "fn", 3) {
            function(alloc, value)
        } else if is(tag, "ctor", 3) {
            ctor_path(alloc, value)
        } else {
            Ok(AnyPath::Later(later_path(alloc, tag, value)?))
        }
    }
}

#[tactic(auto, unfolding(crate::specs::Paths::named_variant_in))]
fn named_variant(alloc: Global, value: &Value) -> Result<RawVariantPath, Misread>
    ensures { IsAsRead result (named_variant_in (view value.now)) }
{
    let variant = part_of(alloc, value, 1)?;
    let args = part_of(alloc, value, 2)?;
    Ok(RawVariantPath::Variant(variant, args))
}

#[tactic(auto, unfolding(crate::specs::Paths::typed_variant_in))]
fn typed_variant(alloc: Global, value: &Value) -> Result<RawVariantPath, Misread>
    ensures { IsAsRead result (typed_variant_in (view value.now)) }
{
    let ty = part_of(alloc, value, 1)?;
    let name = part_of(alloc, value, 2)?;
    Ok(RawVariantPath::Typed(ty, name))
}

#[tactic(auto, unfolding(crate::specs::Paths::variant_path_in))]
impl FromData for RawVariantPath {
    ghost reads = { variant_path_in };

    fn from_data(alloc: Global, value: &Value) -> Result<RawVariantPath, Misread> {
        let tag = tag_of(alloc, value)?;
        if is(tag, "variant", 3) {
            named_variant(alloc, value)
        } else if is(tag, "type", 2) {
            Ok(RawVariantPath::Type(part_of(alloc, value, 1)?))
        } else if is(tag, "typed", 3) {
            typed_variant(alloc, value)
        } else if is(tag, "unresolved", 0) {
            Ok(RawVariantPath::Unresolved)
        } else {
            Err(misshapen(alloc))
        }
    }
}
