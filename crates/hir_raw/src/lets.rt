//! Associated types in the written types of `let`s.
ghost use Rattle.std.specs.Prelude.{◌≡◌, ◌++◌, IfOk, OnOk, Some};
ghost use Rattle.hir_raw.specs.Own.{stmts_of, stmt_aliases, expr_aliases, let_aliases};

use crate::hidden::push_aliases;
use crate::raw::{RawBody, RawExpr, RawStmt, RawType};
use std::alloc::{AllocError, Global};

/// The statements of an expression, where it is a block.
pub fn stmts_of(expr: &RawExpr) -> &[RawStmt]
    ensures { result.now ≡ stmts_of (Some expr.now) }
{
    match expr {
        RawExpr::Block { statements, .. } => statements.as_slice(),
        _ => &[],
    }
}

fn push_stmt(types: &[RawType], stmt: &RawStmt, found: &mut Vec<usize>) -> Result<(), AllocError>
    ensures { OnOk result (found.new.items ≡ found.old.items ++ stmt_aliases types.now stmt.now) }
{
    if let RawStmt::Let {
        type_ref: Some(ty),
        ..
    } = stmt
    {
        push_aliases(types, types.len(), ty.0 as usize, found)?;
    }
    Ok(())
}

fn push_expr(types: &[RawType], expr: &RawExpr, found: &mut Vec<usize>) -> Result<(), AllocError>
    ensures { OnOk result (found.new.items ≡ found.old.items ++ expr_aliases types.now expr.now) }
{
    for stmt in stmts_of(expr) {
        push_stmt(types, stmt, found)?;
    }
    Ok(())
}

/// The associated types that stand outermost in what the `let`s of a body are written with, in order.
pub fn let_aliases(
    alloc: Global,
    types: &[RawType],
    body: &RawBody,
) -> Result<Vec<usize>, AllocError>
    ensures { IfOk result (λ ks. ks.items ≡ let_aliases types.now body.now) }
{
    let mut found = Vec::new(alloc);
    for expr in body.exprs.as_slice() {
        push_expr(types, expr, &mut found)?;
    }
    Ok(found)
}
