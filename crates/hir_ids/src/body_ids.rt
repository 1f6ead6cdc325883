//! The ids of a body are in range.
ghost use Rattle.std.specs.Prelude.{◌≡◌, ◌↔◌, ◌<◌, ◌++◌, ℕ, Some, slice_get, map, IsTrue, IfOk, OnOk};
ghost use Rattle.hir_ids.specs.Words.{TraitId, IsInBody, expr_parts, pat_parts, body_parts, nodes, binding_of, body_said, AllInBody, AllHold, IsInModule, IsModuleFn, Exists, owned_body, variant_body, owned_bodies, BodyIdsExist};
ghost use Rattle.hir_ids.specs.Own.{BodyIdsHere, AreOwners};

use crate::namers::{Namers, is_one, namers_of};
use crate::saying::said_of_body;
use crate::test::Test;
use hir_raw::{Mention, RawAt, RawBody, RawExpr, RawFacts, RawFn, RawPat, RawVariant, Said};
use hir_schedule::{nodes_of_body, nodes_of_expr, nodes_of_pat};
use hir_types::{BindingId, ExprOrPatId, FunctionId, TraitId};
use std::alloc::{AllocError, Global};

fn is_in_module(at: &RawAt) -> bool
    ensures { IsTrue result ↔ IsInModule at.now }
{
    match at {
        RawAt::Module(_) => true,
        RawAt::Other => false,
    }
}

fn is_module_fn(raw: &RawFacts, function: FunctionId) -> bool
    ensures { IsTrue result ↔ IsModuleFn raw.now function }
{
    match raw.fns.get(function.0 as usize) {
        None => false,
        Some(function) => is_in_module(&function.at),
    }
}

fn exists(raw: &RawFacts, body: &RawBody, mention: Mention) -> bool
    ensures { IsTrue result ↔ Exists raw.now body.now mention }
{
    match mention {
        Mention::Type(t) => (t.0 as usize) < raw.types.len(),
        Mention::Local(v) | Mention::Binds(v) => (v.0 as usize) < body.bindings.len(),
        Mention::Function(function) => is_module_fn(raw, function),
        Mention::Variant(variant) => (variant.0 as usize) < raw.variants.len(),
        Mention::ConstItem(item) => (item.0 as usize) < raw.consts.len(),
        Mention::Static(item) => (item.0 as usize) < raw.statics.len(),
        Mention::Trait(item) => (item.0 as usize) < raw.traits.len(),
        Mention::SelfOf(_) => false,
        Mention::ConstParam(_) | Mention::Const(_) => true,
        Mention::Label(_, label) => label.0 < body.labels,
        Mention::List(_) => true,
    }
}

fn exist(raw: &RawFacts, body: &RawBody, said: &[Said]) -> bool
    ensures { IsTrue result ↔ AllHold (λ k s. Exists raw.now body.now s.mention) said.now }
{
    said.iter().all(|s| exists(raw, body, s.mention))
}

fn all_exist(alloc: Global, raw: &RawFacts, body: &RawBody) -> Result<bool, AllocError>
    ensures { IfOk result (λ yes. IsTrue yes
        ↔ AllHold (λ k s. Exists raw.now body.now s.mention) (body_said body.now)) }
{
    let said = said_of_body(alloc, body)?;
    Ok(exist(raw, body, &said))
}

fn is_in_body(body: &RawBody, node: ExprOrPatId) -> bool
    ensures { IsTrue result ↔ IsInBody body.now node }
{
    match node {
        ExprOrPatId::ExprId(expr) => (expr.0 as usize) < body.exprs.len(),
        ExprOrPatId::PatId(pat) => (pat.0 as usize) < body.pats.len(),
    }
}

fn are_in_body(body: &RawBody, nodes: &[ExprOrPatId]) -> bool
    ensures { IsTrue result ↔ AllInBody body.now nodes.now }
{
    nodes.iter().all(|node| is_in_body(body, *node))
}

fn have_expr_parts(alloc: Global, body: &RawBody, exprs: &[RawExpr]) -> Result<bool, AllocError>
    requires { exprs.now ≡ body.now.exprs }
    ensures { IfOk result (λ yes. IsTrue yes
        ↔ AllHold (λ e x. AllInBody body.now (nodes (expr_parts body.now x))) body.now.exprs) }
{
    for expr in exprs {
        let nodes = nodes_of_expr(alloc, body, expr)?;
        if !are_in_body(body, &nodes) {
            return Ok(false);
        }
    }
    Ok(true)
}

fn have_pat_parts(alloc: Global, body: &RawBody, pats: &[RawPat]) -> Result<bool, AllocError>
    requires { pats.now ≡ body.now.pats }
    ensures { IfOk result (λ yes. IsTrue yes
        ↔ AllHold (λ p x. AllInBody body.now (nodes (pat_parts x))) body.now.pats) }
{
    for pat in pats {
        let nodes = nodes_of_pat(alloc, pat)?;
        if !are_in_body(body, &nodes) {
            return Ok(false);
        }
    }
    Ok(true)
}

/// The binding that a pattern binds.
pub fn binding_of(pat: &RawPat) -> Option<BindingId>
    ensures { result ≡ binding_of pat.now }
{
    match pat {
        RawPat::Bind { id, subpat: _ } => Some(*id),
        _ => None,
    }
}

fn have_traits(traits: &[TraitId], count: usize) -> bool
    ensures { IsTrue result ↔ ((k : ℕ) (t : TraitId) → slice_get traits.now k ≡ Some t → t.0 < count) }
{
    traits.iter().all(|t| (t.0 as usize) < count)
}

fn has_own_parts(alloc: Global, body: &RawBody) -> Result<bool, AllocError>
    ensures { IfOk result (λ yes. IsTrue yes ↔ AllInBody body.now (nodes (body_parts body.now))) }
{
    let nodes = nodes_of_body(alloc, body)?;
    Ok(are_in_body(body, &nodes))
}

fn has_ids(alloc: Global, raw: &RawFacts, body: &RawBody) -> Result<bool, AllocError>
    ensures { IfOk result (λ yes. IsTrue yes ↔ BodyIdsHere raw.now body.now) }
{
    let own = has_own_parts(alloc, body)?;
    let exprs = have_expr_parts(alloc, body, body.exprs.as_slice())?;
    let pats = have_pat_parts(alloc, body, body.pats.as_slice())?;
    let named = all_exist(alloc, raw, body)?;
    Ok(
        (body.module.0 as usize) < raw.modules.len()
            && have_traits(body.traits.as_slice(), raw.traits.len())
            && exprs
            && pats
            && own
            && named,
    )
}

fn owned_body(function: &RawFn) -> Option<usize>
    ensures { result ≡ owned_body function.now }
{
    match function.body {
        None => None,
        Some(body) => Some(body.0 as usize),
    }
}

fn fn_bodies(alloc: Global, fns: &[RawFn]) -> Result<Vec<Option<usize>>, AllocError>
    ensures { IfOk result (λ v. v.items ≡ map owned_body fns.now) }
{
    fns.iter()
        .map(|function| owned_body(function))
        .collect(alloc)
}

fn variant_body(variant: &RawVariant) -> Option<usize>
    ensures { result ≡ variant_body variant.now }
{
    match variant.body {
        None => None,
        Some(body) => Some(body.0 as usize),
    }
}

fn push_variant_bodies(
    out: &mut Vec<Option<usize>>,
    variants: &[RawVariant],
) -> Result<(), AllocError>
    ensures { OnOk result (out.new.items ≡ out.old.items ++ map variant_body variants.now) }
{
    for variant in variants {
        out.push(variant_body(variant))?;
    }
    Ok(())
}

fn owned_bodies(alloc: Global, raw: &RawFacts) -> Result<Vec<Option<usize>>, AllocError>
    ensures { IfOk result (λ v. v.items ≡ owned_bodies raw.now) }
{
    let mut owned = fn_bodies(alloc, raw.fns.as_slice())?;
    push_variant_bodies(&mut owned, raw.variants.as_slice())?;
    Ok(owned)
}

/// The ids of a body are in range, and it is the body of exactly one definition.
#[derive(Drop)]
pub struct BodyIds {
    owners: Vec<Namers>,
}

impl BodyIds {
    /// Finds out which definitions each body is that of.
    pub fn new(alloc: Global, raw: &RawFacts) -> Result<BodyIds, AllocError>
        ensures { IfOk result (λ it. AreOwners raw.now it.owners.items) }
    {
        let owned = owned_bodies(alloc, raw)?;
        let owners = namers_of(alloc, &owned, raw.bodies.len())?;
        Ok(BodyIds { owners })
    }
}

impl Test for BodyIds {
    type Item = RawBody;

    ghost listed = { λ raw. raw.bodies };

    ghost holds = { BodyIdsExist };

    ghost given = { λ raw s. AreOwners raw s.owners.items };

    fn test(
        &self,
        alloc: Global,
        raw: &RawFacts,
        at: usize,
        item: &RawBody,
    ) -> Result<bool, AllocError> {
        let here = has_ids(alloc, raw, item)?;
        Ok(is_one(self.owners[at]) && here)
    }
}
