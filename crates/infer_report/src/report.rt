//! The report on a table.
ghost use Rattle.std.specs.Prelude.{◌≡◌, ◌≤◌, ◌+◌, ◌^◌, ◌++◌, OnOk, IfOk, List, length, string_bytes, count_by, sum_by, is_some};
ghost use Rattle.std.specs.Option.{option_copied};
ghost use Rattle.infer_report.specs.Words.{recorded, gaps_at, line, def_line, variant_text, expr_line, mode_text, pat_line, binding_line, mismatch_head, type_field, mismatch_line, node_text, counts_text, diagnostic_text, diagnostic_line, gap_text, gap_line, complaints, lines_from, complaint_count, report};

use super::goals::push_goal;
use super::types::{push_ty, push_type};
use hir_facts::{DefWithBodyId, ExprOrPatId, Facts, List, RawFacts, Ty, VariantId};
use infer_result::{
    BindingMode, Gap, InferenceDiagnostic, InferenceResult, Mutability, TypeMismatch,
};
use std::alloc::{AllocError, Global};

fn push_def(out: &mut String, def: DefWithBodyId) -> Result<(), AllocError>
    ensures { OnOk result (string_bytes out.new ≡ string_bytes out.old ++ def_line def) }
{
    match def {
        DefWithBodyId::FunctionId(function) => {
            let number = function.0;
            writeln!(out, "fn {number}")
        }
        DefWithBodyId::ConstId(konst) => {
            let number = konst.0;
            writeln!(out, "const {number}")
        }
        DefWithBodyId::StaticId(item) => {
            let number = item.0;
            writeln!(out, "static {number}")
        }
        DefWithBodyId::VariantId(variant) => {
            let number = variant.0;
            writeln!(out, "variant {number}")
        }
    }
}

fn variant_at(variants: &[Option<VariantId>], at: usize) -> Option<VariantId>
    ensures { result ≡ recorded variants.now at }
{
    *variants.get(at)?
}

fn push_variant(out: &mut String, variant: Option<VariantId>) -> Result<(), AllocError>
    ensures { OnOk result (string_bytes out.new ≡ string_bytes out.old ++ variant_text variant) }
{
    match variant {
        None => Ok(()),
        Some(variant) => {
            let number = variant.0;
            write!(out, " = variant{number}")
        }
    }
}

fn push_expr(
    out: &mut String,
    facts: &RawFacts,
    variants: &[Option<VariantId>],
    at: usize,
    ty: &Option<Ty>,
) -> Result<(), AllocError>
    ensures { OnOk result (string_bytes out.new ≡ string_bytes out.old ++ expr_line facts.now variants.now at ty.now) }
{
    write!(out, "e{at} ")?;
    push_type(out, facts, ty)?;
    push_variant(out, variant_at(variants, at))?;
    out.push_str("\n")
}

fn push_exprs(
    out: &mut String,
    facts: &RawFacts,
    variants: &[Option<VariantId>],
    types: &[Option<Ty>],
) -> Result<(), AllocError>
    ensures { OnOk result (string_bytes out.new ≡ string_bytes out.old ++ lines_from (expr_line facts.now variants.now) 0 types.now) }
{
    for (at, ty) in types.iter().enumerate() {
        push_expr(out, facts, variants, at, ty)?;
    }
    Ok(())
}

fn mode_name(mode: Option<BindingMode>) -> &'static str
    ensures { result.now ≡ mode_text mode }
{
    match mode {
        None => "",
        Some(BindingMode::Move) => " move",
        Some(BindingMode::Ref(Mutability::Not)) => " ref",
        Some(BindingMode::Ref(Mutability::Mut)) => " refmut",
    }
}

fn mode_at(modes: &[Option<BindingMode>], at: usize) -> Option<BindingMode>
    ensures { result ≡ recorded modes.now at }
{
    *modes.get(at)?
}

fn push_pat(
    out: &mut String,
    facts: &RawFacts,
    modes: &[Option<BindingMode>],
    variants: &[Option<VariantId>],
    at: usize,
    ty: &Option<Ty>,
) -> Result<(), AllocError>
    ensures { OnOk result (string_bytes out.new ≡ string_bytes out.old ++ pat_line facts.now modes.now variants.now at ty.now) }
{
    write!(out, "p{at} ")?;
    push_type(out, facts, ty)?;
    out.push_str(mode_name(mode_at(modes, at)))?;
    push_variant(out, variant_at(variants, at))?;
    out.push_str("\n")
}

fn push_pats(
    out: &mut String,
    facts: &RawFacts,
    modes: &[Option<BindingMode>],
    variants: &[Option<VariantId>],
    types: &[Option<Ty>],
) -> Result<(), AllocError>
    ensures { OnOk result (string_bytes out.new ≡ string_bytes out.old ++ lines_from (pat_line facts.now modes.now variants.now) 0 types.now) }
{
    for (at, ty) in types.iter().enumerate() {
        push_pat(out, facts, modes, variants, at, ty)?;
    }
    Ok(())
}

fn push_binding(
    out: &mut String,
    facts: &RawFacts,
    at: usize,
    ty: &Option<Ty>,
) -> Result<(), AllocError>
    ensures { OnOk result (string_bytes out.new ≡ string_bytes out.old ++ binding_line facts.now at ty.now) }
{
    write!(out, "b{at} ")?;
    push_type(out, facts, ty)?;
    out.push_str("\n")
}

fn push_bindings(out: &mut String, facts: &RawFacts, types: &[Option<Ty>]) -> Result<(), AllocError>
    ensures { OnOk result (string_bytes out.new ≡ string_bytes out.old ++ lines_from (binding_line facts.now) 0 types.now) }
{
    for (at, ty) in types.iter().enumerate() {
        push_binding(out, facts, at, ty)?;
    }
    Ok(())
}

#[tactic(auto, unfolding(crate::specs::Words::mismatch_head))]
fn push_head(out: &mut String, letter: &str, at: usize) -> Result<(), AllocError>
    ensures { OnOk result (string_bytes out.new ≡ string_bytes out.old ++ mismatch_head letter.now at) }
{
    write!(out, "TypeMismatch {letter}{at}")
}

#[tactic(auto, unfolding(crate::specs::Words::type_field))]
fn push_field(out: &mut String, facts: &RawFacts, name: &str, ty: &Ty) -> Result<(), AllocError>
    ensures { OnOk result (string_bytes out.new ≡ string_bytes out.old ++ type_field facts.now name.now ty.now) }
{
    out.push_str(name)?;
    push_ty(out, facts, ty)
}

fn push_mismatch(
    out: &mut String,
    facts: &RawFacts,
    letter: &str,
    at: usize,
    mismatch: &Option<TypeMismatch>,
) -> Result<(), AllocError>
    ensures { OnOk result (string_bytes out.new ≡ string_bytes out.old ++ mismatch_line facts.now letter.now at mismatch.now) }
{
    match mismatch {
        None => Ok(()),
        Some(mismatch) => {
            push_head(out, letter, at)?;
            push_field(out, facts, " expected=", &mismatch.expected)?;
            push_field(out, facts, " actual=", &mismatch.actual)?;
            out.push_str("\n")
        }
    }
}

#[tactic(auto, unfolding(crate::specs::Words::node_text))]
fn push_node(out: &mut String, node: ExprOrPatId) -> Result<(), AllocError>
    ensures { OnOk result (string_bytes out.new ≡ string_bytes out.old ++ node_text node) }
{
    match node {
        ExprOrPatId::ExprId(expr) => {
            let number = expr.0;
            write!(out, "e{number}")
        }
        ExprOrPatId::PatId(pat) => {
            let number = pat.0;
            write!(out, "p{number}")
        }
    }
}

#[tactic(auto, unfolding(crate::specs::Words::counts_text))]
fn push_counts(out: &mut String, expected: usize, found: usize) -> Result<(), AllocError>
    ensures { OnOk result (string_bytes out.new ≡ string_bytes out.old ++ counts_text expected found) }
{
    write!(out, " expected={expected} found={found}")
}

#[tactic(auto, unfolding(crate::specs::Words::diagnostic_text))]
fn push_diagnostic_text(
    out: &mut String,
    facts: &RawFacts,
    diagnostic: &InferenceDiagnostic,
) -> Result<(), AllocError>
    ensures { OnOk result (string_bytes out.new ≡ string_bytes out.old ++ diagnostic_text facts.now diagnostic.now) }
{
    match diagnostic {
        InferenceDiagnostic::MismatchedArgCount {
            call_expr,
            expected,
            found,
        } => {
            let call = call_expr.0;
            write!(out, "MismatchedArgCount e{call}")?;
            push_counts(out, *expected, *found)
        }
        InferenceDiagnostic::MismatchedTupleStructPatArgCount {
            pat,
            expected,
            found,
        } => {
            out.push_str("MismatchedTupleStructPatArgCount ")?;
            push_node(out, *pat)?;
            push_counts(out, *expected, *found)
        }
        InferenceDiagnostic::ExpectedFunction { call_expr, found } => {
            let call = call_expr.0;
            write!(out, "ExpectedFunction e{call}")?;
            push_field(out, facts, " found=", found)
        }
    }
}

fn push_diagnostic(
    out: &mut String,
    facts: &RawFacts,
    diagnostic: Option<&InferenceDiagnostic>,
) -> Result<(), AllocError>
    ensures { OnOk result (string_bytes out.new ≡ string_bytes out.old ++ diagnostic_line facts.now (option_copied diagnostic.entry)) }
{
    match diagnostic {
        None => Ok(()),
        Some(diagnostic) => {
            push_diagnostic_text(out, facts, diagnostic)?;
            out.push_str("\n")
        }
    }
}

fn diagnostic_at(
    diagnostics: &[Option<InferenceDiagnostic>],
    at: usize,
) -> Option<&InferenceDiagnostic>
    ensures { option_copied result ≡ recorded diagnostics.now at }
{
    diagnostics.get(at)?.as_ref()
}

#[tactic(auto, unfolding(crate::specs::Words::gap_text))]
fn push_gap_text(out: &mut String, facts: &RawFacts, gap: &Gap) -> Result<(), AllocError>
    ensures { OnOk result (string_bytes out.new ≡ string_bytes out.old ++ gap_text facts.now gap.now) }
{
    match gap {
        Gap::Unproved { node, goal } => {
            out.push_str("Unproved ")?;
            push_node(out, *node)?;
            out.push_str(" goal=")?;
            push_goal(out, facts, goal)
        }
        Gap::Clash {
            node,
            alias,
            first,
            second,
        } => {
            out.push_str("Clash ")?;
            push_node(out, *node)?;
            push_field(out, facts, " alias=", alias)?;
            push_field(out, facts, " first=", first)?;
            push_field(out, facts, " second=", second)
        }
    }
}

fn push_gap(out: &mut String, facts: &RawFacts, gap: &Gap) -> Result<(), AllocError>
    ensures { OnOk result (string_bytes out.new ≡ string_bytes out.old ++ line (gap_text facts.now gap.now)) }
{
    push_gap_text(out, facts, gap)?;
    out.push_str("\n")
}

fn push_gaps(out: &mut String, facts: &RawFacts, gaps: &[Gap]) -> Result<(), AllocError>
    ensures { OnOk result (string_bytes out.new ≡ string_bytes out.old ++ lines_from (gap_line facts.now) 0 gaps.now) }
{
    for gap in gaps {
        push_gap(out, facts, gap)?;
    }
    Ok(())
}

fn gaps_of(gaps: &[List<Gap>], at: usize) -> &[Gap]
    ensures { result.now ≡ gaps_at gaps.now at }
{
    match gaps.get(at) {
        Some(gaps) => gaps.as_slice(),
        None => &[],
    }
}

fn push_complaints_at(
    out: &mut String,
    facts: &RawFacts,
    letter: &str,
    diagnostics: &[Option<InferenceDiagnostic>],
    gaps: &[List<Gap>],
    at: usize,
    mismatch: &Option<TypeMismatch>,
) -> Result<(), AllocError>
    ensures { OnOk result (string_bytes out.new ≡ string_bytes out.old ++ complaints facts.now letter.now diagnostics.now gaps.now at mismatch.now) }
{
    push_mismatch(out, facts, letter, at, mismatch)?;
    push_diagnostic(out, facts, diagnostic_at(diagnostics, at))?;
    push_gaps(out, facts, gaps_of(gaps, at))
}

/// The complaints at all expressions, or at all patterns, whose letter this is.
fn push_complaints(
    out: &mut String,
    facts: &RawFacts,
    letter: &str,
    diagnostics: &[Option<InferenceDiagnostic>],
    gaps: &[List<Gap>],
    mismatches: &[Option<TypeMismatch>],
) -> Result<(), AllocError>
    ensures { OnOk result (string_bytes out.new ≡ string_bytes out.old ++ lines_from (complaints facts.now letter.now diagnostics.now gaps.now) 0 mismatches.now) }
{
    for (at, mismatch) in mismatches.iter().enumerate() {
        push_complaints_at(out, facts, letter, diagnostics, gaps, at, mismatch)?;
    }
    Ok(())
}

fn count_some<T>(entries: &[Option<T>]) -> usize
    ensures { result ≡ count_by is_some entries.now }
{
    entries.iter().filter(|entry| entry.is_some()).count()
}

fn count_gaps(lists: &[List<Gap>]) -> u128
    ensures value { result ≡ sum_by length lists.now }
    ensures room { result + 2 ^ 64 ≤ 2 ^ 127 }
{
    let mut count = 0;
    for gaps in lists {
        count += gaps.len() as u128;
    }
    count
}

/// How many complaints a table has. There is a list of gaps for each expression and for each pattern, so that
/// `usize` would not do.
pub fn count_complaints(table: &InferenceResult) -> u128
    ensures { result ≡ complaint_count table.now }
{
    let others = count_some(table.expr_mismatches.as_slice())
        + count_some(table.expr_diagnostics.as_slice())
        + count_some(table.pat_mismatches.as_slice())
        + count_some(table.pat_diagnostics.as_slice());
    others as u128 + count_gaps(table.expr_gaps.as_slice()) + count_gaps(table.pat_gaps.as_slice())
}

/// The report on the table of a definition's body: docs/FORMAT.md. Its one error is want of memory.
pub fn write_report(
    alloc: Global,
    def: DefWithBodyId,
    facts: &Facts,
    table: &InferenceResult,
) -> Result<String, AllocError>
    ensures { IfOk result (λ text. string_bytes text ≡ report def facts.now table.now) }
{
    let mut out = String::new(alloc);
    let raw = facts.raw();
    push_def(&mut out, def)?;
    push_exprs(
        &mut out,
        raw,
        table.expr_variants.as_slice(),
        table.type_of_expr.as_slice(),
    )?;
    push_pats(
        &mut out,
        raw,
        table.binding_modes.as_slice(),
        table.pat_variants.as_slice(),
        table.type_of_pat.as_slice(),
    )?;
    push_bindings(&mut out, raw, table.type_of_binding.as_slice())?;
    push_complaints(
        &mut out,
        raw,
        "e",
        table.expr_diagnostics.as_slice(),
        table.expr_gaps.as_slice(),
        table.expr_mismatches.as_slice(),
    )?;
    push_complaints(
        &mut out,
        raw,
        "p",
        table.pat_diagnostics.as_slice(),
        table.pat_gaps.as_slice(),
        table.pat_mismatches.as_slice(),
    )?;
    let count = count_complaints(table);
    writeln!(&mut out, "complaints {count}")?;
    Ok(out)
}
