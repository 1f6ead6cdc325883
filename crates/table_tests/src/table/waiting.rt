//! Pairs that wait.
ghost use Rattle.table_tests.specs.Words.{Grew};

use super::{expr, table_of, unify, wait};
use hir_types::{HoleKind, Ty};
use infer_table::{InferenceTable, WaitingPair};
use std::alloc::{AllocError, Global};
use std::process::Abort;

fn waiting(source: Ty, target: Ty, number: u32) -> WaitingPair {
    WaitingPair {
        source,
        target,
        node: expr(number),
    }
}

/// Takes a pair whose types are known, and compares it.
fn check_taken(
    rt: &impl Abort,
    table: &mut InferenceTable,
    wanted: Option<WaitingPair>,
) -> Result<(), AllocError> {
    let taken = table.take_known()?;
    assert_eq!(rt; taken, wanted);
    Ok(())
}

#[test]
fn takes_known_pairs(rt: HostRuntime) -> Result<(), AllocError> {
    let mut table = table_of(rt.alloc(), &[HoleKind::Ty, HoleKind::Ty])?;
    wait(&mut table, &Ty::Var(0), &Ty::Var(1), expr(7))?;
    wait(&mut table, &Ty::Bool, &Ty::Var(1), expr(8))?;
    let first = waiting(Ty::Bool, Ty::Var(1), 8);
    check_taken(&rt, &mut table, Some(first))?;
    check_taken(&rt, &mut table, None)?;
    assert!(rt; unify(&mut table, &Ty::Var(1), &Ty::Char)?);
    let second = waiting(Ty::Var(0), Ty::Var(1), 7);
    check_taken(&rt, &mut table, Some(second))?;
    assert_eq!(rt; table.pairs()?.len(), 0);
    Ok(())
}

fn take(table: &mut InferenceTable) -> Result<Option<WaitingPair>, AllocError>
    ensures { Grew table.old table.new }
{
    let pair = table.take_known()?;
    Ok(pair)
}

/// Takes a pair, and has another wait.
fn take_and_wait(table: &mut InferenceTable) -> Result<Option<WaitingPair>, AllocError>
    ensures { Grew table.old table.new }
{
    let pair = take(table)?;
    wait(table, &Ty::Var(0), &Ty::Str, expr(9))?;
    Ok(pair)
}

/// A table in which two known pairs wait.
fn two_wait(alloc: Global) -> Result<InferenceTable, AllocError> {
    let mut table = table_of(alloc, &[HoleKind::Ty, HoleKind::Ty])?;
    wait(&mut table, &Ty::Var(0), &Ty::Bool, expr(7))?;
    wait(&mut table, &Ty::Char, &Ty::Var(1), expr(8))?;
    Ok(table)
}

/// Whether these two wait, in this order, and no others.
fn are_two(pairs: &[WaitingPair]) -> bool {
    match pairs {
        [first, second] => {
            *first == waiting(Ty::Var(0), Ty::Bool, 7)
                && *second == waiting(Ty::Char, Ty::Var(1), 8)
        }
        _ => false,
    }
}

#[test]
fn puts_taken_pairs_back(rt: HostRuntime) -> Result<(), AllocError> {
    let mut table = two_wait(rt.alloc())?;
    let before = table.snapshot()?;
    let taken = take_and_wait(&mut table)?;
    table.rollback_to(before);
    assert_eq!(rt; taken, Some(waiting(Ty::Var(0), Ty::Bool, 7)));
    let pairs = table.pairs()?;
    assert!(rt; are_two(&pairs));
    Ok(())
}
