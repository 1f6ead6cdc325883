//! The proofs of a table, as text, and what an inspector is told.
use crate::goals::word_of;
use goal_facts::{Proof, ProofSource};
use hir_facts::{DefWithBodyId, FunctionId, ImplId, RawFacts};
use infer_expr::infer_query_with_inspect;
use infer_goals::ToldList;
use infer_report::{push_goal, push_ty};
use infer_run::Ran;
use std::alloc::{AllocError, Global};

/// Writes by what a proof is.
pub fn push_source(out: &mut String, source: &ProofSource) -> Result<(), AllocError> {
    match source {
        ProofSource::Clause(_) => out.push_str(" by clause"),
        ProofSource::Impl(ImplId(number), _) => write!(out, " by impl {number}"),
        ProofSource::BuiltIn => out.push_str(" by size or parts"),
    }
}

fn push_proof(out: &mut String, facts: &RawFacts, proof: &Proof) -> Result<(), AllocError> {
    push_goal(out, facts, &proof.goal)?;
    push_source(out, &proof.source)?;
    for (at, child) in proof.children.as_slice().iter().enumerate() {
        out.push_str(if at == 0 { " from " } else { " " })?;
        write!(out, "{child}")?;
    }
    out.push_str("\n")
}

/// The proofs of the table, a line for each.
pub fn proofs_of(alloc: Global, ran: &Ran) -> Result<String, AllocError> {
    let mut out = String::new(alloc);
    let (Some(facts), Some(table)) = (&ran.facts, &ran.table) else {
        return String::from_str(alloc, "there is no table\n");
    };
    for proof in table.proofs() {
        push_proof(&mut out, facts.raw(), proof)?;
    }
    Ok(out)
}

/// What associated types were found to be in the table, a line for each.
pub fn projections_of(alloc: Global, ran: &Ran) -> Result<String, AllocError> {
    let mut out = String::new(alloc);
    let (Some(facts), Some(table)) = (&ran.facts, &ran.table) else {
        return String::from_str(alloc, "there is no table\n");
    };
    for (alias, ty) in table.projections() {
        push_ty(&mut out, facts.raw(), alias)?;
        out.push_str(" == ")?;
        push_ty(&mut out, facts.raw(), ty)?;
        out.push_str("\n")?;
    }
    Ok(out)
}

/// The answers that an inspector is told of function 0, in words with a space after each.
pub fn told_of(alloc: Global, ran: &Ran) -> Result<String, AllocError> {
    let mut out = String::new(alloc);
    let (Some(facts), Some(table)) = (&ran.facts, &ran.table) else {
        return String::from_str(alloc, "there is no table");
    };
    let def = DefWithBodyId::FunctionId(FunctionId(0));
    if !facts.has_carried_body(def) {
        return String::from_str(alloc, "there is no body");
    }
    let mut list = ToldList::new(alloc);
    let inspected = infer_query_with_inspect(alloc, facts, def, Some(&mut list))?;
    if inspected != *table {
        return String::from_str(alloc, "the table is another");
    }
    for (_, answer) in list.entries.as_slice() {
        out.push_str(word_of(*answer))?;
    }
    if out.is_empty() {
        out.push_str("nothing")?;
    }
    Ok(out)
}
