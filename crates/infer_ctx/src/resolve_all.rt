//! The table of a body whose types have no holes.
ghost use Rattle.std.specs.Prelude.{◌≡◌, IfOk, OnOk, Some, option_map, map};
ghost use Rattle.std.specs.Option.{option_copied};
ghost use Rattle.infer_ctx.specs.Words.{terms_of, folded, completion, Respects, Triangular, bindings, Meets};
ghost use Rattle.infer_ctx.specs.Words.infer_table.Solutions.{log_of};
ghost use Rattle.infer_ctx.specs.Own.{closed_types, closed_mismatch, closed_mismatches, closed_table, asked_or_noted, entry_of, said, said_of};

use crate::context::InferenceContext;
use hir_facts::{ExprOrPatId, List, Ty};
use infer_result::{InferenceDiagnostic, InferenceResult, Seen, TypeMismatch, references_error};
use infer_table::InferenceTable;
use std::alloc::{AllocError, Global};

/// A type that may be recorded, resolved.
fn resolve_maybe(table: &InferenceTable, ty: &Option<Ty>) -> Result<Option<Ty>, AllocError>
    ensures { IfOk result (λ made. made ≡ option_map (folded (completion table.now)) ty.now) }
{
    match ty {
        Some(ty) => Ok(Some(table.resolve_completely(ty)?)),
        None => Ok(None),
    }
}

/// Recorded types, resolved.
fn resolve_tys(
    alloc: Global,
    table: &InferenceTable,
    tys: &List<Option<Ty>>,
) -> Result<List<Option<Ty>>, AllocError>
    ensures { IfOk result (λ made. made ≡ closed_types (completion table.now) tys.now) }
{
    let mut resolved = List::new(alloc);
    for ty in tys.as_slice() {
        resolved.push(resolve_maybe(table, ty)?)?;
    }
    Ok(resolved)
}

/// A mismatch that may be recorded, resolved.
fn resolve_mismatch(
    table: &InferenceTable,
    mismatch: &Option<TypeMismatch>,
) -> Result<Option<TypeMismatch>, AllocError>
    ensures { IfOk result (λ made. made ≡ option_map (closed_mismatch (completion table.now)) mismatch.now) }
{
    match mismatch {
        Some(mismatch) => Ok(Some(TypeMismatch {
            expected: table.resolve_completely(&mismatch.expected)?,
            actual: table.resolve_completely(&mismatch.actual)?,
        })),
        None => Ok(None),
    }
}

/// A mismatch, resolved, unless its types are the same then, or else the other one, where there is
/// one.
fn resolve_unless_same(
    table: &InferenceTable,
    asked: &TypeMismatch,
    noted: &Option<TypeMismatch>,
) -> Result<Option<TypeMismatch>, AllocError>
    ensures { IfOk result (λ made. made ≡ asked_or_noted (completion table.now) (Some asked.now) noted.now) }
{
    let expected = table.resolve_completely(&asked.expected)?;
    let actual = table.resolve_completely(&asked.actual)?;
    if expected.is_same(&actual) {
        resolve_mismatch(table, noted)
    } else {
        Ok(Some(TypeMismatch { expected, actual }))
    }
}

/// What stands at an expression, resolved: the mismatch that was asked of it, unless its types are
/// the same, or else the one that is noted.
fn resolve_asked(
    table: &InferenceTable,
    asked: Option<&Option<TypeMismatch>>,
    noted: &Option<TypeMismatch>,
) -> Result<Option<TypeMismatch>, AllocError>
    ensures { IfOk result (λ made. made ≡ asked_or_noted (completion table.now) (entry_of (option_copied asked.entry)) noted.now) }
{
    match asked {
        Some(Some(asked)) => resolve_unless_same(table, asked, noted),
        _ => resolve_mismatch(table, noted),
    }
}

/// The mismatches at expressions, resolved: what was asked of them and what is noted.
fn resolve_expr_mismatches(
    alloc: Global,
    table: &InferenceTable,
    asked: &List<Option<TypeMismatch>>,
    noted: &[Option<TypeMismatch>],
) -> Result<List<Option<TypeMismatch>>, AllocError>
    ensures { IfOk result (λ made. made ≡ closed_mismatches (completion table.now) asked.now noted.now) }
{
    let mut resolved = List::new(alloc);
    for (i, entry) in noted.iter().enumerate() {
        let made = resolve_asked(table, asked.get(i), entry)?;
        resolved.push(made)?;
    }
    Ok(resolved)
}

/// Recorded mismatches, resolved.
fn resolve_mismatches(
    alloc: Global,
    table: &InferenceTable,
    mismatches: &List<Option<TypeMismatch>>,
) -> Result<List<Option<TypeMismatch>>, AllocError>
    ensures { IfOk result (λ made. made ≡ map (option_map (closed_mismatch (completion table.now))) mismatches.now) }
{
    let mut resolved = List::new(alloc);
    for mismatch in mismatches.as_slice() {
        resolved.push(resolve_mismatch(table, mismatch)?)?;
    }
    Ok(resolved)
}

/// Says of a look-up that failed at a call that what is called is no function, with the type that it
/// has in the end, unless `{unknown}` stands in that. This is what `infer.rs`'s `resolve_all` does with
/// `InferenceDiagnostic::ExpectedFunction`.
fn report_failure(
    table: &InferenceTable,
    seen: &Seen,
    diagnostics: &mut List<Option<InferenceDiagnostic>>,
) -> Result<(), AllocError>
    ensures { OnOk result (diagnostics.new ≡ said_of (completion table.now) diagnostics.old seen.now) }
{
    let ExprOrPatId::ExprId(call_expr) = seen.node else {
        return Ok(());
    };
    let found = table.resolve_completely(&seen.ty)?;
    let at = call_expr.0 as usize;
    if !references_error(&found) && at < diagnostics.len() {
        let diagnostic = InferenceDiagnostic::ExpectedFunction { call_expr, found };
        diagnostics.set(at, Some(diagnostic));
    }
    Ok(())
}

/// Says it of each look-up that failed, in their order.
fn report_failures(
    table: &InferenceTable,
    seen: &List<Seen>,
    diagnostics: &mut List<Option<InferenceDiagnostic>>,
) -> Result<(), AllocError>
    ensures { OnOk result (diagnostics.new ≡ said (completion table.now) seen.now diagnostics.old) }
{
    for seen in seen.as_slice() {
        report_failure(table, seen, diagnostics)?;
    }
    Ok(())
}

impl InferenceContext<'_> {
    /// The table, once the body is typed: each type with what its holes are bound to, holes of
    /// integer types that are still open with `i32`, and all others with `{unknown}`, and what is
    /// said then of the look-ups that failed. This is `infer.rs`'s `resolve_all`.
    pub fn resolve_all(self, alloc: Global) -> Result<InferenceResult, AllocError>
        ensures closed { IfOk result (λ made. made ≡ closed_table (completion self.entry.goals.table) self.entry.asked self.entry.result) }
        ensures meets { Meets (terms_of (completion self.entry.goals.table)) self.entry.goals.table }
        ensures respects { Respects (terms_of (completion self.entry.goals.table)) }
        ensures acyclic { Triangular (log_of (bindings self.entry.goals.table)) }
    {
        self.goals.table.lawful();
        let mut result = self.result;
        let table = &self.goals.table;
        result.type_of_expr = resolve_tys(alloc, table, &result.type_of_expr)?;
        result.type_of_pat = resolve_tys(alloc, table, &result.type_of_pat)?;
        result.type_of_binding = resolve_tys(alloc, table, &result.type_of_binding)?;
        result.item_of_pat = resolve_tys(alloc, table, &result.item_of_pat)?;
        result.type_of_placeholder = resolve_tys(alloc, table, &result.type_of_placeholder)?;
        let noted = result.expr_mismatches.as_slice();
        result.expr_mismatches = resolve_expr_mismatches(alloc, table, &self.asked, noted)?;
        report_failures(table, &result.seen, &mut result.expr_diagnostics)?;
        result.pat_mismatches = resolve_mismatches(alloc, table, &result.pat_mismatches)?;
        Ok(result)
    }
}
