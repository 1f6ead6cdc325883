//! What inference of a body has found out so far.
ghost use Rattle.std.specs.Prelude.{◌≡◌, ◌<◌, ◌+◌, ◌^◌, ◌↔◌, IfOk, OnOk, IsTrue, None, length, map, replicate};
ghost use Rattle.infer_ctx.specs.Words.{new_state, IsUnused};
ghost use Rattle.infer_ctx.specs.Own.{noted, put, path_variant, expr_variant, pat_variant, IsNoted, IsUnasked, empty_context, with_placeholder_ty, with_seen, with_expr_ty, with_mismatch, with_asked, with_diagnostic, with_pat_mismatch, with_pat_diagnostic, with_pat_ty, with_pat_item, with_mode, with_binding_ty};
ghost use Rattle.infer_ctx.specs.Context.{entered};

use hir_facts::{
    BindingId, ExprId, Facts, GenericDefId, List, PatId, RawBody, RawExpr, RawPat, RawPath, Ty,
    TypeRefId, VariantId,
};
use infer_goals::GoalTable;
use infer_result::{BindingMode, InferenceDiagnostic, InferenceResult, Seen, TypeMismatch};
use std::alloc::{AllocError, Global};

/// What inference of a body has found out so far: `infer.rs`, `InferenceContext`.
#[derive(Drop)]
pub struct InferenceContext<'a> {
    /// The table as far as it is filled.
    pub result: InferenceResult,
    /// What is asked of each expression that waits or waited: that its type be another one, while
    /// nothing was known of either. Where the two come to differ, that is a mismatch.
    pub asked: List<Option<TypeMismatch>>,
    /// How many nodes of the body the walk has come to, the body itself counted.
    pub clock: usize,
    /// The holes in the types that are recorded, what is found out about them, and the goals about
    /// them.
    pub goals: GoalTable<'a>,
}

/// As many empty entries.
fn no_entries<T: Drop>(alloc: Global, count: usize) -> Result<List<Option<T>>, AllocError>
    ensures { IfOk result (λ entries. entries ≡ replicate count None) }
{
    let mut entries = List::new(alloc);
    for _ in 0..count {
        entries.push(None)?;
    }
    Ok(entries)
}

/// The variant whose constructor a path names.
fn path_variant(path: RawPath) -> Option<VariantId>
    ensures { result ≡ path_variant path }
{
    match path {
        RawPath::Ctor(variant) => Some(variant),
        RawPath::Local(_) | RawPath::Function(_) => None,
    }
}

/// The variant whose constructor an expression is a path to.
fn expr_variant(expr: &RawExpr) -> Option<VariantId>
    ensures { result ≡ expr_variant expr.now }
{
    match expr {
        RawExpr::Path(path) => path_variant(*path),
        _ => None,
    }
}

/// The variant whose constructor a pattern names.
fn pat_variant(pat: &RawPat) -> Option<VariantId>
    ensures { result ≡ pat_variant pat.now }
{
    match pat {
        RawPat::TupleStruct { variant, args: _ } => Some(*variant),
        RawPat::Path(path) => path_variant(*path),
        _ => None,
    }
}

/// The variant whose constructor each expression of a body names. The facts' paths are resolved, so
/// this is known before the walk; it is `infer.rs`'s `write_variant_resolution`.
fn expr_variants(alloc: Global, body: &RawBody) -> Result<List<Option<VariantId>>, AllocError>
    ensures { IfOk result (λ variants. variants ≡ map expr_variant body.now.exprs) }
{
    let mut variants = List::new(alloc);
    for expr in body.exprs.as_slice() {
        variants.push(expr_variant(expr))?;
    }
    Ok(variants)
}

/// The variant whose constructor each pattern of a body names.
fn pat_variants(alloc: Global, body: &RawBody) -> Result<List<Option<VariantId>>, AllocError>
    ensures { IfOk result (λ variants. variants ≡ map pat_variant body.now.pats) }
{
    let mut variants = List::new(alloc);
    for pat in body.pats.as_slice() {
        variants.push(pat_variant(pat))?;
    }
    Ok(variants)
}

/// Notes something in a list of what stands at each node, where nothing is there yet.
fn note<T: Drop>(entries: &mut List<Option<T>>, at: u32, entry: T)
    ensures { entries.new ≡ noted entries.old at entry }
{
    if let Some(None) = entries.get(at as usize) {
        entries.set(at as usize, Some(entry));
    }
}

/// Records something in a list of what stands at each place, which grows as far as this one.
pub fn put<T: Drop>(entries: &mut List<Option<T>>, at: u32, entry: T) -> Result<(), AllocError>
    ensures { OnOk result (entries.new ≡ put entries.old at entry) }
{
    let at = at as usize;
    let missing = (at + 1).saturating_sub(entries.len());
    for _ in 0..missing {
        entries.push(None)?;
    }
    entries.set(at, Some(entry));
    Ok(())
}

impl<'a> InferenceContext<'a> {
    /// Nothing is found out yet about a body in the scope of an item of the facts: `infer.rs`,
    /// `InferenceContext::new`.
    pub fn new(
        alloc: Global,
        facts: &'a Facts,
        env: GenericDefId,
        body: &RawBody,
    ) -> Result<InferenceContext<'a>, AllocError>
        ensures empty { IfOk result (λ context. context ≡ empty_context body.now context.goals) }
        ensures table { IfOk result (λ context. context.goals.table ≡ new_state) }
        ensures goals { IfOk result (λ context. IsUnused facts.now env context.goals) }
    {
        let goals = GoalTable::new(alloc, facts, env)?;
        let result = InferenceResult {
            type_of_expr: no_entries(alloc, body.exprs.len())?,
            type_of_pat: no_entries(alloc, body.pats.len())?,
            type_of_binding: no_entries(alloc, body.bindings.len())?,
            item_of_pat: no_entries(alloc, body.pats.len())?,
            type_of_placeholder: List::new(alloc),
            binding_modes: no_entries(alloc, body.pats.len())?,
            expr_mismatches: no_entries(alloc, body.exprs.len())?,
            expr_diagnostics: no_entries(alloc, body.exprs.len())?,
            pat_mismatches: no_entries(alloc, body.pats.len())?,
            pat_diagnostics: no_entries(alloc, body.pats.len())?,
            expr_variants: expr_variants(alloc, body)?,
            pat_variants: pat_variants(alloc, body)?,
            seen: List::new(alloc),
            proofs: List::new(alloc),
            projections: List::new(alloc),
            expr_gaps: List::new(alloc),
            pat_gaps: List::new(alloc),
            general: None,
        };
        Ok(InferenceContext {
            result,
            asked: no_entries(alloc, body.exprs.len())?,
            clock: 1,
            goals,
        })
    }

    /// Comes to one node more.
    pub fn enter(&mut self)
        requires { self.old.clock + 1 < 2 ^ 64 }
        ensures { self.new ≡ entered self.old }
    {
        self.clock += 1;
    }

    /// Records the type of an expression: `infer.rs`, `write_expr_ty`.
    pub fn write_expr_ty(&mut self, expr: ExprId, ty: Ty)
        requires { expr.0 < length self.old.result.type_of_expr }
        ensures { self.new ≡ with_expr_ty self.old expr ty }
    {
        self.result.type_of_expr.set(expr.0 as usize, Some(ty));
    }

    /// Notes a mismatch at an expression. The first one there stays.
    pub fn note_mismatch(&mut self, expr: ExprId, mismatch: TypeMismatch)
        ensures { self.new ≡ with_mismatch self.old expr mismatch }
    {
        note(&mut self.result.expr_mismatches, expr.0, mismatch);
    }

    /// Notes a complaint, other than a mismatch, at an expression. The first one there stays. This is
    /// `infer.rs`'s `push_diagnostic`.
    pub fn push_diagnostic(&mut self, expr: ExprId, diagnostic: InferenceDiagnostic)
        ensures { self.new ≡ with_diagnostic self.old expr diagnostic }
    {
        note(&mut self.result.expr_diagnostics, expr.0, diagnostic);
    }

    /// Keeps what is asked of an expression while nothing is known of it. What was asked first stays.
    pub fn note_asked(&mut self, expr: ExprId, asked: TypeMismatch)
        ensures { self.new ≡ with_asked self.old expr asked }
    {
        note(&mut self.asked, expr.0, asked);
    }

    /// Whether nothing is noted at an expression, and nothing was asked of it.
    pub fn is_unasked(&self, expr: ExprId) -> bool
        ensures { IsTrue result ↔ IsUnasked self.now expr }
    {
        let (asked, noted) = (&self.asked, &self.result.expr_mismatches);
        match (asked.get(expr.0 as usize), noted.get(expr.0 as usize)) {
            (Some(None), Some(None)) => true,
            _ => false,
        }
    }

    /// Whether this mismatch is noted at an expression of which nothing was asked.
    pub fn is_noted(&self, expr: ExprId, expected: &Ty, actual: &Ty) -> bool
        ensures { IsTrue result ↔ IsNoted self.now expr expected.now actual.now }
    {
        let Some(None) = self.asked.get(expr.0 as usize) else {
            return false;
        };
        match self.result.type_mismatch_for_expr(expr) {
            Some(noted) => noted.expected.is_same(expected) && noted.actual.is_same(actual),
            None => false,
        }
    }

    /// Notes a mismatch at a pattern. The first one there stays.
    pub fn note_pat_mismatch(&mut self, pat: PatId, mismatch: TypeMismatch)
        ensures { self.new ≡ with_pat_mismatch self.old pat mismatch }
    {
        note(&mut self.result.pat_mismatches, pat.0, mismatch);
    }

    /// Notes a complaint, other than a mismatch, at a pattern. The first one there stays. This is
    /// `infer.rs`'s `push_diagnostic`.
    pub fn push_pat_diagnostic(&mut self, pat: PatId, diagnostic: InferenceDiagnostic)
        ensures { self.new ≡ with_pat_diagnostic self.old pat diagnostic }
    {
        note(&mut self.result.pat_diagnostics, pat.0, diagnostic);
    }

    /// Records the type of a pattern: `infer.rs`, `write_pat_ty`.
    pub fn write_pat_ty(&mut self, pat: PatId, ty: Ty)
        requires { pat.0 < length self.old.result.type_of_pat }
        ensures { self.new ≡ with_pat_ty self.old pat ty }
    {
        self.result.type_of_pat.set(pat.0 as usize, Some(ty));
    }

    /// Records the constructor that a pattern is of, as an item.
    pub fn write_pat_item(&mut self, pat: PatId, item: Ty)
        requires { pat.0 < length self.old.result.item_of_pat }
        ensures { self.new ≡ with_pat_item self.old pat item }
    {
        self.result.item_of_pat.set(pat.0 as usize, Some(item));
    }

    /// Records how a pattern binds.
    pub fn write_binding_mode(&mut self, pat: PatId, mode: BindingMode)
        requires { pat.0 < length self.old.result.binding_modes }
        ensures { self.new ≡ with_mode self.old pat mode }
    {
        self.result.binding_modes.set(pat.0 as usize, Some(mode));
    }

    /// Records the type that a `_` stands for: `infer.rs`, `write_type_placeholder_ty`.
    pub fn write_type_placeholder_ty(
        &mut self,
        type_ref: TypeRefId,
        ty: Ty,
    ) -> Result<(), AllocError>
        ensures { OnOk result (self.new ≡ with_placeholder_ty self.old type_ref.0 ty) }
    {
        put(&mut self.result.type_of_placeholder, type_ref.0, ty)
    }

    /// Keeps a look-up that failed. That it did is said in the end, unless `{unknown}` stands in its
    /// type then.
    pub fn note_seen(&mut self, seen: Seen) -> Result<(), AllocError>
        ensures { IfOk result (λ _. self.new ≡ with_seen self.old seen) }
    {
        self.result.seen.push(seen)
    }

    /// Records the type of a binding: `infer.rs`, `write_binding_ty`.
    pub fn write_binding_ty(&mut self, binding: BindingId, ty: Ty)
        requires { binding.0 < length self.old.result.type_of_binding }
        ensures { self.new ≡ with_binding_ty self.old binding ty }
    {
        self.result
            .type_of_binding
            .set(binding.0 as usize, Some(ty));
    }
}
