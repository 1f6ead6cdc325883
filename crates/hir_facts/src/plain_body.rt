//! Whether the body of a definition is plain.
ghost use Rattle.std.specs.Prelude.{◌≡◌, ◌↔◌, ℕ, Some, slice_get, IsSomeAnd, IsTrue};
ghost use Rattle.std.specs.List.{list_all};
ghost use Rattle.hir_facts.specs.Words.{FunctionId, params_of};
ghost use Rattle.hir_types.specs.declared.ids.DefWithBodyId.TheVariants.{FunctionId as fn_def};
ghost use Rattle.hir_facts.specs.Own.{body_of, AllHold, is_unit_ctor, is_tuple_ctor, is_unit_or_tuple, IsPlainCtor, is_item_path, is_item, is_item_at, IsPlainPath, IsPlainWritten, IsPlainStmt, ArePlainStmts, IsPlainExpr, is_plain_mode, is_plain_binding, IsPlainPathPat, IsPlainPat, IsPlainBody, HasSizedParams, HasPlainBody, IsPlainBodyOf, is_value, is_maybe_value, stmt_has_values, arm_has_values, has_callees, WrittenFits, LetFits, LetsFit, LooksPlain};

use crate::facts::Facts;
use crate::sized::has_sized_params;
use hir_raw::{
    BindingAnnotation, RawArm, RawBody, RawCtor, RawExpr, RawFacts, RawPat, RawPath, RawStmt,
};
use hir_types::{BindingId, DefWithBodyId, ExprId, FunctionId, TypeRefId, VariantId};

fn is_unit(ctor: RawCtor) -> bool
    ensures { result ≡ is_unit_ctor ctor }
{
    match ctor {
        RawCtor::Unit => true,
        RawCtor::Tuple | RawCtor::Record => false,
    }
}

fn is_tuple(ctor: RawCtor) -> bool
    ensures { result ≡ is_tuple_ctor ctor }
{
    match ctor {
        RawCtor::Tuple => true,
        RawCtor::Unit | RawCtor::Record => false,
    }
}

fn is_unit_or_tuple(ctor: RawCtor) -> bool
    ensures { result ≡ is_unit_or_tuple ctor }
{
    match ctor {
        RawCtor::Unit | RawCtor::Tuple => true,
        RawCtor::Record => false,
    }
}

/// Whether a variant is written `V`, and its adt is plain.
fn is_plain_unit(facts: &Facts, variant: VariantId) -> bool
    ensures { IsTrue result ↔ IsPlainCtor facts.now is_unit_ctor variant }
{
    match facts.raw().variants.get(variant.0 as usize) {
        None => false,
        Some(variant) => is_unit(variant.ctor) && facts.is_plain_adt(variant.adt),
    }
}

/// Whether a variant is written `V(..)`, and its adt is plain.
fn is_plain_tuple(facts: &Facts, variant: VariantId) -> bool
    ensures { IsTrue result ↔ IsPlainCtor facts.now is_tuple_ctor variant }
{
    match facts.raw().variants.get(variant.0 as usize) {
        None => false,
        Some(variant) => is_tuple(variant.ctor) && facts.is_plain_adt(variant.adt),
    }
}

/// Whether a variant is written `V` or `V(..)`, and its adt is plain.
fn is_plain_ctor(facts: &Facts, variant: VariantId) -> bool
    ensures { IsTrue result ↔ IsPlainCtor facts.now is_unit_or_tuple variant }
{
    match facts.raw().variants.get(variant.0 as usize) {
        None => false,
        Some(variant) => is_unit_or_tuple(variant.ctor) && facts.is_plain_adt(variant.adt),
    }
}

fn is_plain_path(facts: &Facts, path: &RawPath) -> bool
    ensures { IsTrue result ↔ IsPlainPath facts.now path.now }
{
    match path {
        RawPath::Local(_) => true,
        RawPath::Function(function) => facts.is_plain_fn(*function),
        RawPath::Ctor(variant) => is_plain_ctor(facts, *variant),
    }
}

fn is_plain_written(facts: &Facts, written: Option<TypeRefId>) -> bool
    ghost count: { ℕ }
    requires { WrittenFits facts.now count written }
    ensures { IsTrue result ↔ IsPlainWritten facts.now count written }
{
    match written {
        None => true,
        Some(ty) => facts.is_plain_type(ty),
    }
}

fn is_plain_stmt(facts: &Facts, stmt: &RawStmt) -> bool
    ghost count: { ℕ }
    requires { LetFits facts.now count stmt.now }
    ensures { IsTrue result ↔ IsPlainStmt facts.now count stmt.now }
{
    match stmt {
        RawStmt::Let {
            type_ref,
            else_branch,
            ..
        } => else_branch.is_none() && is_plain_written(facts, *type_ref),
        RawStmt::Expr { .. } => true,
    }
}

fn are_plain_stmts(facts: &Facts, stmts: &[RawStmt]) -> bool
    ghost count: { ℕ }
    requires { AllHold (λ k s. LetFits facts.now count s) stmts.now }
    ensures { IsTrue result ↔ ArePlainStmts facts.now count stmts.now }
{
    for stmt in stmts {
        if !is_plain_stmt(facts, stmt) {
            return false;
        }
    }
    true
}

fn is_plain_expr(facts: &Facts, expr: &RawExpr) -> bool
    ghost count: { ℕ }
    requires { LetsFit facts.now count expr.now }
    ensures { IsTrue result ↔ IsPlainExpr facts.now count expr.now }
{
    match expr {
        RawExpr::Lit(_) => true,
        RawExpr::Path(path) => is_plain_path(facts, path),
        RawExpr::Block {
            label,
            statements,
            tail: _,
        } => label.is_none() && are_plain_stmts(facts, statements.as_slice()),
        RawExpr::Tuple(_) | RawExpr::If { .. } | RawExpr::Call { .. } => true,
        RawExpr::Match { scrutinee: _, arms } => !arms.is_empty(),
        RawExpr::Later(_) => false,
    }
}

fn are_plain_exprs(facts: &Facts, exprs: &[RawExpr]) -> bool
    ghost count: { ℕ }
    requires { AllHold (λ e x. LetsFit facts.now count x) exprs.now }
    ensures { IsTrue result ↔ AllHold (λ e x. IsPlainExpr facts.now count x) exprs.now }
{
    for expr in exprs {
        if !is_plain_expr(facts, expr) {
            return false;
        }
    }
    true
}

fn is_plain_mode(mode: BindingAnnotation) -> bool
    ensures { result ≡ is_plain_mode mode }
{
    match mode {
        BindingAnnotation::Unannotated | BindingAnnotation::Mutable => true,
        BindingAnnotation::Ref | BindingAnnotation::RefMut => false,
    }
}

fn is_plain_binding(body: &RawBody, binding: BindingId) -> bool
    ensures { result ≡ is_plain_binding (slice_get body.now.bindings binding.0) }
{
    match body.bindings.get(binding.0 as usize) {
        None => false,
        Some(binding) => is_plain_mode(binding.mode),
    }
}

fn is_plain_path_pat(facts: &Facts, path: &RawPath) -> bool
    ensures { IsTrue result ↔ IsPlainPathPat facts.now path.now }
{
    match path {
        RawPath::Ctor(variant) => is_plain_unit(facts, *variant),
        RawPath::Local(_) | RawPath::Function(_) => false,
    }
}

fn is_plain_pat(facts: &Facts, body: &RawBody, pat: &RawPat) -> bool
    ensures { IsTrue result ↔ IsPlainPat facts.now body.now pat.now }
{
    match pat {
        RawPat::Wild | RawPat::Tuple(_) | RawPat::Lit(_) => true,
        RawPat::Bind { id, subpat } => subpat.is_none() && is_plain_binding(body, *id),
        RawPat::TupleStruct { variant, args: _ } => is_plain_tuple(facts, *variant),
        RawPat::Path(path) => is_plain_path_pat(facts, path),
        RawPat::Later(_) => false,
    }
}

fn are_plain_pats(facts: &Facts, body: &RawBody, pats: &[RawPat]) -> bool
    ensures { IsTrue result ↔ AllHold (λ p x. IsPlainPat facts.now body.now x) pats.now }
{
    pats.iter().all(|pat| is_plain_pat(facts, body, pat))
}

fn is_item_path(raw: &RawFacts, path: &RawPath) -> bool
    ensures { result ≡ is_item_path raw.now path.now }
{
    match path {
        RawPath::Function(_) => true,
        RawPath::Ctor(variant) => match raw.variants.get(variant.0 as usize) {
            None => false,
            Some(variant) => is_tuple(variant.ctor),
        },
        RawPath::Local(_) => false,
    }
}

fn is_item(raw: &RawFacts, expr: &RawExpr) -> bool
    ensures { result ≡ is_item raw.now (Some expr.now) }
{
    match expr {
        RawExpr::Path(path) => is_item_path(raw, path),
        _ => false,
    }
}

/// Whether an expression is a path to a function or to a constructor `V(..)`.
fn is_item_at(raw: &RawFacts, body: &RawBody, expr: ExprId) -> bool
    ensures { result ≡ is_item_at raw.now body.now expr }
{
    match body.exprs.get(expr.0 as usize) {
        None => false,
        Some(expr) => is_item(raw, expr),
    }
}

fn is_value(raw: &RawFacts, body: &RawBody, expr: ExprId) -> bool
    ensures { result ≡ is_value raw.now body.now expr }
{
    !is_item_at(raw, body, expr)
}

fn is_maybe_value(raw: &RawFacts, body: &RawBody, expr: Option<ExprId>) -> bool
    ensures { result ≡ is_maybe_value raw.now body.now expr }
{
    match expr {
        None => true,
        Some(expr) => is_value(raw, body, expr),
    }
}

fn are_values(raw: &RawFacts, body: &RawBody, exprs: &[ExprId]) -> bool
    ensures { result ≡ list_all (is_value raw.now body.now) exprs.now }
{
    exprs.iter().all(|expr| is_value(raw, body, *expr))
}

fn stmt_has_values(raw: &RawFacts, body: &RawBody, stmt: &RawStmt) -> bool
    ensures { result ≡ stmt_has_values raw.now body.now stmt.now }
{
    match stmt {
        RawStmt::Let {
            initializer,
            else_branch,
            ..
        } => is_maybe_value(raw, body, *initializer) && is_maybe_value(raw, body, *else_branch),
        RawStmt::Expr { expr, has_semi: _ } => is_value(raw, body, *expr),
    }
}

fn stmts_have_values(raw: &RawFacts, body: &RawBody, stmts: &[RawStmt]) -> bool
    ensures { result ≡ list_all (stmt_has_values raw.now body.now) stmts.now }
{
    stmts.iter().all(|stmt| stmt_has_values(raw, body, stmt))
}

fn arm_has_values(raw: &RawFacts, body: &RawBody, arm: &RawArm) -> bool
    ensures { result ≡ arm_has_values raw.now body.now arm.now }
{
    is_maybe_value(raw, body, arm.guard) && is_value(raw, body, arm.expr)
}

fn arms_have_values(raw: &RawFacts, body: &RawBody, arms: &[RawArm]) -> bool
    ensures { result ≡ list_all (arm_has_values raw.now body.now) arms.now }
{
    arms.iter().all(|arm| arm_has_values(raw, body, arm))
}

/// Whether the callee of a call is a path to an item, and no other part of an expression is one.
fn has_callees(raw: &RawFacts, body: &RawBody, expr: &RawExpr) -> bool
    ensures { result ≡ has_callees raw.now body.now expr.now }
{
    match expr {
        RawExpr::Lit(_) | RawExpr::Path(_) | RawExpr::Later(_) => true,
        RawExpr::Block {
            label: _,
            statements,
            tail,
        } => stmts_have_values(raw, body, statements.as_slice())
            && is_maybe_value(raw, body, *tail),
        RawExpr::Tuple(elements) => are_values(raw, body, elements.as_slice()),
        RawExpr::If {
            condition,
            then_branch,
            else_branch,
        } => is_value(raw, body, *condition)
            && is_value(raw, body, *then_branch)
            && is_maybe_value(raw, body, *else_branch),
        RawExpr::Match { scrutinee, arms } => is_value(raw, body, *scrutinee)
            && arms_have_values(raw, body, arms.as_slice()),
        RawExpr::Call { callee, args } => is_item_at(raw, body, *callee)
            && are_values(raw, body, args.as_slice()),
    }
}

fn have_callees(raw: &RawFacts, body: &RawBody) -> bool
    ensures { result ≡ list_all (has_callees raw.now body.now) body.now.exprs }
{
    body.exprs
        .as_slice()
        .iter()
        .all(|expr| has_callees(raw, body, expr))
}

fn looks_plain(facts: &Facts, body: &RawBody) -> bool
    ghost count: { ℕ }
    requires { AllHold (λ e x. LetsFit facts.now count x) body.now.exprs }
    ensures { IsTrue result ↔ LooksPlain facts.now count body.now }
{
    are_plain_exprs(facts, body.exprs.as_slice())
        && are_plain_pats(facts, body, body.pats.as_slice())
        && have_callees(facts.raw(), body)
        && is_value(facts.raw(), body, body.root)
}

/// Whether the body of a function is plain.
fn is_plain_body(facts: &Facts, body: &RawBody) -> bool
    ghost owner: { FunctionId }
    requires { body_of facts.now (fn_def owner) ≡ Some body.now }
    ensures { IsTrue result ↔ IsPlainBody facts.now (params_of facts.now (fn_def owner)) body.now }
{
    facts.lawful();
    looks_plain(facts, body)
}

/// Whether each type parameter of a function that is there has a size.
fn is_sized_fn(facts: &Facts, function: FunctionId) -> bool
    ensures { IsTrue result ↔ IsSomeAnd (slice_get facts.now.fns function.0) (HasSizedParams facts.now) }
{
    match facts.raw().fns.get(function.0 as usize) {
        None => false,
        Some(function) => has_sized_params(facts.raw(), function),
    }
}

/// Whether a function has a plain body. `owner` is the function again, whose parameters the contracts
/// of the calls below speak of.
fn has_plain_body(facts: &Facts, function: FunctionId) -> bool
    ghost owner: { FunctionId }
    requires { owner ≡ function }
    ensures { IsTrue result ↔ HasPlainBody facts.now function }
{
    facts.lawful();
    match facts.body_id(DefWithBodyId::FunctionId(function)) {
        None => false,
        Some(body) => facts.is_plain_fn(function)
            && is_sized_fn(facts, function)
            && is_plain_body(facts, facts.body(body)),
    }
}

/// Whether the body of a definition is plain: that of a function of a module with a plain signature
/// whose type parameters have a size, and each node of it is plain. False where the definition has no
/// body. It takes no memory.
pub fn is_plain(facts: &Facts, def: DefWithBodyId) -> bool
    ensures { IsTrue result ↔ IsPlainBodyOf facts.now def }
{
    match def {
        DefWithBodyId::FunctionId(function) => has_plain_body(facts, function),
        DefWithBodyId::ConstId(_) | DefWithBodyId::StaticId(_) | DefWithBodyId::VariantId(_) =>
            false,
    }
}
