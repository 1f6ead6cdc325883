//! What is undone, and what stays.
ghost use Rattle.table_tests.specs.Words.{Grew};

use super::{check_known, expr, pair, table_of, unify, wait};
use hir_types::{HoleKind, Ty, UintTy};
use infer_table::{InferenceTable, NoUnifier};
use std::alloc::{AllocError, Global};

fn binds(table: &mut InferenceTable) -> Result<Result<bool, NoUnifier>, AllocError>
    ensures { Grew table.old table.new }
{
    let unifies = unify(table, &Ty::Var(0), &Ty::Bool)?;
    Ok(Ok(unifies))
}

fn binds_and_refuses(table: &mut InferenceTable) -> Result<Result<bool, NoUnifier>, AllocError>
    ensures { Grew table.old table.new }
{
    let _unifies = unify(table, &Ty::Var(0), &Ty::Uint(UintTy::U8))?;
    Ok(Err(NoUnifier))
}

fn binds_and_fails(table: &mut InferenceTable) -> Result<Result<bool, NoUnifier>, AllocError>
    ensures { Grew table.old table.new }
{
    let _unifies = unify(table, &Ty::Var(0), &Ty::Str)?;
    Err(AllocError)
}

fn commit(table: &mut InferenceTable) -> Result<Result<bool, NoUnifier>, AllocError> {
    table.commit_if_ok(binds)
}

fn commit_a_refusal(table: &mut InferenceTable) -> Result<Result<bool, NoUnifier>, AllocError> {
    table.commit_if_ok(binds_and_refuses)
}

fn commit_a_failure(table: &mut InferenceTable) -> Result<Result<bool, NoUnifier>, AllocError> {
    table.commit_if_ok(binds_and_fails)
}

#[test]
fn commits_if_ok(rt: HostRuntime) -> Result<(), AllocError> {
    let mut table = table_of(rt.alloc(), &[HoleKind::Ty])?;
    assert_eq!(rt; commit(&mut table)?, Ok(true));
    check_known(&rt, &table, Ok(Ty::Var(0)), Ok(Ty::Bool))
}

#[test]
fn undoes_if_not_ok(rt: HostRuntime) -> Result<(), AllocError> {
    let mut table = table_of(rt.alloc(), &[HoleKind::Ty])?;
    assert_eq!(rt; commit_a_refusal(&mut table)?, Err(NoUnifier));
    check_known(&rt, &table, Ok(Ty::Var(0)), Ok(Ty::Var(0)))?;
    assert!(rt; commit_a_failure(&mut table).is_err());
    check_known(&rt, &table, Ok(Ty::Var(0)), Ok(Ty::Var(0)))
}

/// Binds hole 0 to a pair of a new hole and `bool`.
fn guesses(alloc: Global, table: &mut InferenceTable) -> Result<Result<Ty, NoUnifier>, AllocError>
    ensures { Grew table.old table.new }
{
    let hole = table.next_ty_var()?;
    let ty = pair(alloc, hole, Ty::Bool)?;
    let _unifies = unify(table, &Ty::Var(0), &ty)?;
    Ok(Ok(Ty::Var(0)))
}

fn fudge(alloc: Global, table: &mut InferenceTable) -> Result<Result<Ty, NoUnifier>, AllocError> {
    table.fudge(|table| guesses(alloc, table))
}

#[test]
fn fudges(rt: HostRuntime) -> Result<(), AllocError> {
    let alloc = rt.alloc();
    let mut table = table_of(alloc, &[HoleKind::Ty])?;
    let guess = fudge(alloc, &mut table)?;
    assert_eq!(rt; guess, Ok(pair(alloc, Ty::Var(1), Ty::Bool)?));
    check_known(&rt, &table, Ok(Ty::Var(0)), Ok(Ty::Var(0)))?;
    assert_eq!(rt; table.next_ty_var()?, Ty::Var(2));
    Ok(())
}

fn diverges(table: &mut InferenceTable) -> Result<(), AllocError>
    ensures { Grew table.old table.new }
{
    let hole = table.new_maybe_never_var()?;
    wait(table, &hole, &Ty::Never, expr(0))
}

#[test]
fn forgets_diverging_holes(rt: HostRuntime) -> Result<(), AllocError> {
    let mut table = InferenceTable::new(rt.alloc())?;
    diverges(&mut table)?;
    let before = table.snapshot()?;
    diverges(&mut table)?;
    assert_eq!(rt; table.diverging(), [0, 1].as_slice());
    table.rollback_to(before);
    assert_eq!(rt; table.diverging(), [0].as_slice());
    assert_eq!(rt; table.pairs()?.len(), 1);
    assert!(rt; table.has_made(&Ty::Var(1))?);
    Ok(())
}
