//! Tables with hand-worked answers. The calls that require of a type that the table made its holes
//! go through functions that ask first. The checks take types that may be wanting, so that each test
//! is short.
mod aliases;
mod heads;
mod large;
mod undo;
mod unifying;
mod waiting;

ghost use Rattle.std.specs.Prelude.{OnOk};
ghost use Rattle.table_tests.specs.Words.{Grew, HolesAreOf};

use hir_types::{Boxed, Const, ExprId, ExprOrPatId, HoleKind, List, Ty};
use infer_table::InferenceTable;
use std::alloc::{AllocError, Global};
use std::process::Abort;

/// A table with a hole of each of these kinds, numbered from 0 on.
fn table_of(alloc: Global, kinds: &[HoleKind]) -> Result<InferenceTable, AllocError> {
    let mut table = InferenceTable::new(alloc)?;
    for kind in kinds {
        match kind {
            HoleKind::Ty => {
                let _hole = table.next_ty_var()?;
            }
            HoleKind::Int => {
                let _hole = table.next_int_var()?;
            }
            HoleKind::Const => {
                let _hole = table.next_const_var()?;
            }
        }
    }
    Ok(table)
}

fn single(alloc: Global, ty: Ty) -> Result<Ty, AllocError> {
    let mut types = List::new(alloc);
    types.push(ty)?;
    Ok(Ty::Tuple(types))
}

fn pair(alloc: Global, first: Ty, second: Ty) -> Result<Ty, AllocError> {
    let mut types = List::new(alloc);
    types.push(first)?;
    types.push(second)?;
    Ok(Ty::Tuple(types))
}

fn array(alloc: Global, ty: Ty, length: Const) -> Result<Ty, AllocError> {
    Ok(Ty::Array(Boxed::new(alloc, ty)?, length))
}

/// That the table made each hole of the type; a type of other holes is an error.
fn own(table: &InferenceTable, ty: &Ty) -> Result<(), AllocError>
    ensures { OnOk result (HolesAreOf table.now ty.now) }
{
    if table.has_made(ty)? {
        Ok(())
    } else {
        Err(AllocError)
    }
}

fn unify(table: &mut InferenceTable, left: &Ty, right: &Ty) -> Result<bool, AllocError>
    ensures { Grew table.old table.new }
{
    own(table, left)?;
    own(table, right)?;
    table.unify(left, right)
}

fn wait(
    table: &mut InferenceTable,
    source: &Ty,
    target: &Ty,
    node: ExprOrPatId,
) -> Result<(), AllocError>
    ensures { Grew table.old table.new }
{
    own(table, source)?;
    own(table, target)?;
    table.wait(source, target, node)
}

fn expr(number: u32) -> ExprOrPatId {
    ExprOrPatId::ExprId(ExprId(number))
}

/// Unifies two types, and compares the answer.
fn check_unify(
    rt: &impl Abort,
    table: &mut InferenceTable,
    left: Result<Ty, AllocError>,
    right: Result<Ty, AllocError>,
    answer: bool,
) -> Result<(), AllocError> {
    let left = left?;
    let right = right?;
    let unifies = unify(table, &left, &right)?;
    assert_eq!(rt; unifies, answer);
    Ok(())
}

/// Compares what a type resolves to.
fn check_known(
    rt: &impl Abort,
    table: &InferenceTable,
    ty: Result<Ty, AllocError>,
    wanted: Result<Ty, AllocError>,
) -> Result<(), AllocError> {
    let ty = ty?;
    let wanted = wanted?;
    let known = table.resolve(&ty)?;
    assert!(rt; known.is_same(&wanted));
    Ok(())
}
