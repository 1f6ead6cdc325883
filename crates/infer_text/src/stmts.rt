//! Reading statements.
ghost use Rattle.std.specs.Prelude.{◌≡◌, List, Result, Ok, Err};
ghost use Rattle.serde_json.specs.View.{view};
ghost use Rattle.infer_text.specs.Own.{IsAsRead, let_in, expr_stmt_in, stmt_in};

use super::fault::Misread;
use super::reader::{FromData, is, misshapen, part_of, tag_of};
use hir_facts::RawStmt;
use serde_json::Value;
use std::alloc::Global;

#[tactic(auto, unfolding(crate::specs::Stmts::let_in))]
fn let_stmt(alloc: Global, value: &Value) -> Result<RawStmt, Misread>
    ensures { IsAsRead result (let_in (view value.now)) }
{
    let pat = part_of(alloc, value, 1)?;
    let type_ref = part_of(alloc, value, 2)?;
    let initializer = part_of(alloc, value, 3)?;
    let else_branch = part_of(alloc, value, 4)?;
    Ok(RawStmt::Let {
        pat,
        type_ref,
        initializer,
        else_branch,
    })
}

#[tactic(auto, unfolding(crate::specs::Stmts::expr_stmt_in))]
fn expr_stmt(alloc: Global, value: &Value) -> Result<RawStmt, Misread>
    ensures { IsAsRead result (expr_stmt_in (view value.now)) }
{
    let expr = part_of(alloc, value, 1)?;
    let has_semi = part_of(alloc, value, 2)?;
    Ok(RawStmt::Expr { expr, has_semi })
}

#[tactic(auto, unfolding(crate::specs::Stmts::stmt_in))]
impl FromData for RawStmt {
    ghost reads = { stmt_in };

    fn from_data(alloc: Global, value: &Value) -> Result<RawStmt, Misread> {
        let tag = tag_of(alloc, value)?;
        if is(tag, "let", 5) {
            let_stmt(alloc, value)
        } else if is(tag, "expr", 3) {
            expr_stmt(alloc, value)
        } else {
            Err(misshapen(alloc))
        }
    }
}
