//! Associated types that are left in the types of a table: what those read as that don't stay is listed.
ghost use Rattle.std.specs.Prelude.{◌≡◌, List, map, OnOk};
ghost use Rattle.infer_needs.specs.Words.{GenericArg, chain, arg_term, system, term_of, AllTypes, StaysOrIsListed, NoneIsLeft};
ghost use Rattle.infer_needs.specs.Own.{TakesThese, MayFollow, WereRead, Lists, IsFinal, IsFinalType, staying_head, NoneHere, NoneStands, StandsInType, StandsInMismatch, StandsInDiagnostic, EachIn, EachOf};

use crate::found::Found;
use crate::unknown::holds_unknown;
use goal_facts::{ItemSources, Proof};
use goal_prove::prove_goal;
use goal_terms::{Term, args_term, staying_term, term_args, type_term};
use hir_facts::{Goal, Ty, TypeAliasId};
use hir_types::Head;
use infer_result::{InferenceDiagnostic, InferenceResult, TypeMismatch};
use std::alloc::{AllocError, Global};

/// Lists what an associated type reads as, unless it stays.
pub fn look_at_alias(
    alloc: Global,
    sources: &ItemSources<'_>,
    alias: TypeAliasId,
    args: &Term,
    proofs: &mut Vec<Proof>,
    found: &mut Found,
) -> Result<(), AllocError>
    requires whole { IsFinal sources.now.facts sources.now.item (term_of args.now) }
    requires many { TakesThese sources.now.facts alias (term_of args.now) }
    requires read { WereRead (system sources.now.sources) sources.now.facts.limits.goal_depth found.old }
    ensures { OnOk result (Lists sources.now.facts sources.now.item (system sources.now.sources) (λ js. (xs : List GenericArg) → chain (map arg_term xs) ≡ term_of args.now → StaysOrIsListed (system sources.now.sources) sources.now.facts.limits.goal_depth js alias xs) proofs.old.items proofs.new.items found.old found.new) }
{
    let made = term_args(alloc, args)?;
    let chain = args_term(alloc, &made)?;
    // What is no list of arguments stands in no type.
    if !chain.is_same(args) {
        return Ok(());
    }
    let ty = Ty::Projection(alias, made);
    let Some(read) = sources.read_ty(alloc, &ty)? else {
        return Ok(());
    };
    let stays = staying_term(alloc, alias, args)?;
    let term = type_term(alloc, &read)?;
    if term.is_same(&stays) {
        return Ok(());
    }
    if let Some(_type) = found.find(&ty) {
        return Ok(());
    }
    let goal = Goal::Projection {
        alias,
        args: term_args(alloc, args)?,
        ty: read.dup(alloc)?,
    };
    let unknown = holds_unknown(alloc, &goal)?;
    if unknown {
        return Ok(());
    }
    let depth = sources.facts().raw().limits.goal_depth;
    let Some(_number) = prove_goal(alloc, sources, &goal, depth, proofs)? else {
        unreachable!()
    };
    found.add(alloc, ty, read)
}

/// The associated type that stays over the arguments that follow, if this is one.
#[tactic(auto, using(crate::specs::Words::term_is))]
fn staying_alias(first: &Term) -> Option<TypeAliasId>
    ensures { result ≡ staying_head (term_of first.now) }
{
    match first {
        Term::Leaf(Head::AssociatedType(alias)) => Some(*alias),
        _ => None,
    }
}

/// The same of one that stands over these arguments, if any does.
fn look_at_head(
    alloc: Global,
    sources: &ItemSources<'_>,
    first: &Term,
    args: &Term,
    proofs: &mut Vec<Proof>,
    found: &mut Found,
) -> Result<(), AllocError>
    requires whole { IsFinal sources.now.facts sources.now.item (term_of args.now) }
    requires follows { MayFollow sources.now.facts (term_of first.now) (term_of args.now) }
    requires read { WereRead (system sources.now.sources) sources.now.facts.limits.goal_depth found.old }
    ensures { OnOk result (Lists sources.now.facts sources.now.item (system sources.now.sources) (NoneHere (system sources.now.sources) sources.now.facts.limits.goal_depth (term_of first.now) (term_of args.now)) proofs.old.items proofs.new.items found.old found.new) }
{
    match staying_alias(first) {
        Some(alias) => look_at_alias(alloc, sources, alias, args, proofs, found),
        None => Ok(()),
    }
}

/// The same of each associated type in a term.
#[tactic(auto, using(crate::specs::Words::term_is))]
fn look_at(
    alloc: Global,
    sources: &ItemSources<'_>,
    term: &Term,
    proofs: &mut Vec<Proof>,
    found: &mut Found,
) -> Result<(), AllocError>
    requires whole { IsFinal sources.now.facts sources.now.item (term_of term.now) }
    requires read { WereRead (system sources.now.sources) sources.now.facts.limits.goal_depth found.old }
    ensures { OnOk result (Lists sources.now.facts sources.now.item (system sources.now.sources) (NoneStands (system sources.now.sources) sources.now.facts.limits.goal_depth (term_of term.now)) proofs.old.items proofs.new.items found.old found.new) }
{
    match term {
        Term::Hole(_) | Term::Leaf(_) => Ok(()),
        Term::Pair(first, rest) => {
            look_at_head(alloc, sources, first.get(), rest.get(), proofs, found)?;
            look_at(alloc, sources, first.get(), proofs, found)?;
            look_at(alloc, sources, rest.get(), proofs, found)?;
            Ok(())
        }
    }
}

/// The same of each associated type in a type.
fn look_at_type(
    alloc: Global,
    sources: &ItemSources<'_>,
    ty: &Ty,
    proofs: &mut Vec<Proof>,
    found: &mut Found,
) -> Result<(), AllocError>
    requires whole { IsFinalType sources.now.facts sources.now.item ty.now }
    requires read { WereRead (system sources.now.sources) sources.now.facts.limits.goal_depth found.old }
    ensures { OnOk result (Lists sources.now.facts sources.now.item (system sources.now.sources) (λ js. NoneIsLeft (system sources.now.sources) sources.now.facts.limits.goal_depth js ty.now) proofs.old.items proofs.new.items found.old found.new) }
{
    let term = type_term(alloc, ty)?;
    look_at(alloc, sources, &term, proofs, found)
}

/// The same of a type, if one is recorded.
fn look_at_entry(
    alloc: Global,
    sources: &ItemSources<'_>,
    entry: &Option<Ty>,
    proofs: &mut Vec<Proof>,
    found: &mut Found,
) -> Result<(), AllocError>
    requires whole { EachIn StandsInType (IsFinalType sources.now.facts sources.now.item) entry.now }
    requires read { WereRead (system sources.now.sources) sources.now.facts.limits.goal_depth found.old }
    ensures { OnOk result (Lists sources.now.facts sources.now.item (system sources.now.sources) (λ js. EachIn StandsInType (NoneIsLeft (system sources.now.sources) sources.now.facts.limits.goal_depth js) entry.now) proofs.old.items proofs.new.items found.old found.new) }
{
    match entry {
        Some(ty) => look_at_type(alloc, sources, ty, proofs, found),
        None => Ok(()),
    }
}

/// The same of each of these.
fn look_at_types(
    alloc: Global,
    sources: &ItemSources<'_>,
    entries: &[Option<Ty>],
    proofs: &mut Vec<Proof>,
    found: &mut Found,
) -> Result<(), AllocError>
    requires whole { EachOf StandsInType (IsFinalType sources.now.facts sources.now.item) entries.now }
    requires read { WereRead (system sources.now.sources) sources.now.facts.limits.goal_depth found.old }
    ensures { OnOk result (Lists sources.now.facts sources.now.item (system sources.now.sources) (λ js. EachOf StandsInType (NoneIsLeft (system sources.now.sources) sources.now.facts.limits.goal_depth js) entries.now) proofs.old.items proofs.new.items found.old found.new) }
{
    for entry in entries {
        look_at_entry(alloc, sources, entry, proofs, found)?;
    }
    Ok(())
}

/// The same of what was expected and what was found, where these differ.
fn look_at_mismatch(
    alloc: Global,
    sources: &ItemSources<'_>,
    entry: &Option<TypeMismatch>,
    proofs: &mut Vec<Proof>,
    found: &mut Found,
) -> Result<(), AllocError>
    requires whole { EachIn StandsInMismatch (IsFinalType sources.now.facts sources.now.item) entry.now }
    requires read { WereRead (system sources.now.sources) sources.now.facts.limits.goal_depth found.old }
    ensures { OnOk result (Lists sources.now.facts sources.now.item (system sources.now.sources) (λ js. EachIn StandsInMismatch (NoneIsLeft (system sources.now.sources) sources.now.facts.limits.goal_depth js) entry.now) proofs.old.items proofs.new.items found.old found.new) }
{
    match entry {
        Some(mismatch) => {
            look_at_type(alloc, sources, &mismatch.expected, proofs, found)?;
            look_at_type(alloc, sources, &mismatch.actual, proofs, found)
        }
        None => Ok(()),
    }
}

/// The same of each of these.
fn look_at_mismatches(
    alloc: Global,
    sources: &ItemSources<'_>,
    entries: &[Option<TypeMismatch>],
    proofs: &mut Vec<Proof>,
    found: &mut Found,
) -> Result<(), AllocError>
    requires whole { EachOf StandsInMismatch (IsFinalType sources.now.facts sources.now.item) entries.now }
    requires read { WereRead (system sources.now.sources) sources.now.facts.limits.goal_depth found.old }
    ensures { OnOk result (Lists sources.now.facts sources.now.item (system sources.now.sources) (λ js. EachOf StandsInMismatch (NoneIsLeft (system sources.now.sources) sources.now.facts.limits.goal_depth js) entries.now) proofs.old.items proofs.new.items found.old found.new) }
{
    for entry in entries {
        look_at_mismatch(alloc, sources, entry, proofs, found)?;
    }
    Ok(())
}

/// The same of what is called and is no function.
fn look_at_diagnostic(
    alloc: Global,
    sources: &ItemSources<'_>,
    entry: &Option<InferenceDiagnostic>,
    proofs: &mut Vec<Proof>,
    found: &mut Found,
) -> Result<(), AllocError>
    requires whole { EachIn StandsInDiagnostic (IsFinalType sources.now.facts sources.now.item) entry.now }
    requires read { WereRead (system sources.now.sources) sources.now.facts.limits.goal_depth found.old }
    ensures { OnOk result (Lists sources.now.facts sources.now.item (system sources.now.sources) (λ js. EachIn StandsInDiagnostic (NoneIsLeft (system sources.now.sources) sources.now.facts.limits.goal_depth js) entry.now) proofs.old.items proofs.new.items found.old found.new) }
{
    match entry {
        Some(diagnostic) => match diagnostic {
            InferenceDiagnostic::ExpectedFunction {
                call_expr: _,
                found: ty,
            } => look_at_type(alloc, sources, ty, proofs, found),
            _ => Ok(()),
        },
        None => Ok(()),
    }
}

/// The same of each of these.
fn look_at_diagnostics(
    alloc: Global,
    sources: &ItemSources<'_>,
    entries: &[Option<InferenceDiagnostic>],
    proofs: &mut Vec<Proof>,
    found: &mut Found,
) -> Result<(), AllocError>
    requires whole { EachOf StandsInDiagnostic (IsFinalType sources.now.facts sources.now.item) entries.now }
    requires read { WereRead (system sources.now.sources) sources.now.facts.limits.goal_depth found.old }
    ensures { OnOk result (Lists sources.now.facts sources.now.item (system sources.now.sources) (λ js. EachOf StandsInDiagnostic (NoneIsLeft (system sources.now.sources) sources.now.facts.limits.goal_depth js) entries.now) proofs.old.items proofs.new.items found.old found.new) }
{
    for entry in entries {
        look_at_diagnostic(alloc, sources, entry, proofs, found)?;
    }
    Ok(())
}

/// Lists what each associated type in a type of the table reads as, unless it stays, or `{unknown}` stands in one of them.
pub fn look_at_table(
    alloc: Global,
    sources: &ItemSources<'_>,
    table: &InferenceResult,
    proofs: &mut Vec<Proof>,
    found: &mut Found,
) -> Result<(), AllocError>
    requires whole { AllTypes (IsFinalType sources.now.facts sources.now.item) table.now }
    requires read { WereRead (system sources.now.sources) sources.now.facts.limits.goal_depth found.old }
    ensures { OnOk result (Lists sources.now.facts sources.now.item (system sources.now.sources) (λ js. AllTypes (NoneIsLeft (system sources.now.sources) sources.now.facts.limits.goal_depth js) table.now) proofs.old.items proofs.new.items found.old found.new) }
{
    look_at_types(alloc, sources, table.type_of_expr.as_slice(), proofs, found)?;
    look_at_types(alloc, sources, table.type_of_pat.as_slice(), proofs, found)?;
    look_at_types(
        alloc,
        sources,
        table.type_of_binding.as_slice(),
        proofs,
        found,
    )?;
    look_at_types(
        alloc,
        sources,
        table.type_of_placeholder.as_slice(),
        proofs,
        found,
    )?;
    look_at_types(alloc, sources, table.item_of_pat.as_slice(), proofs, found)?;
    look_at_mismatches(
        alloc,
        sources,
        table.expr_mismatches.as_slice(),
        proofs,
        found,
    )?;
    look_at_mismatches(
        alloc,
        sources,
        table.pat_mismatches.as_slice(),
        proofs,
        found,
    )?;
    look_at_diagnostics(
        alloc,
        sources,
        table.expr_diagnostics.as_slice(),
        proofs,
        found,
    )
}
