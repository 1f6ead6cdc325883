//! Reading expressions.
ghost use Rattle.std.specs.Prelude.{◌≡◌, List, Result, Some, None, Ok, Err};
ghost use Rattle.serde_json.specs.View.{view};
ghost use Rattle.infer_text.specs.Own.{IsAsRead, lit_expr_in, path_expr_in, block_in, if_in, arm_in, match_in, call_in, expr_in};

use super::fault::Misread;
use super::later_exprs::later_expr;
use super::literals::AnyLiteral;
use super::paths::AnyPath;
use super::reader::{FromData, expect_parts, is, part_of, tag_of};
use hir_facts::{RawArm, RawExpr};
use hir_raw::LaterExpr;
use serde_json::Value;
use std::alloc::Global;

#[tactic(auto, unfolding(crate::specs::Exprs::lit_expr_in))]
fn lit_expr(alloc: Global, value: &Value) -> Result<RawExpr, Misread>
    ensures { IsAsRead result (lit_expr_in (view value.now)) }
{
    match part_of(alloc, value, 1)? {
        AnyLiteral::Raw(literal) => Ok(RawExpr::Lit(literal)),
        AnyLiteral::Later(literal) => Ok(RawExpr::Later(LaterExpr::Lit(literal))),
    }
}

#[tactic(auto, unfolding(crate::specs::Exprs::path_expr_in))]
fn path_expr(alloc: Global, value: &Value) -> Result<RawExpr, Misread>
    ensures { IsAsRead result (path_expr_in (view value.now)) }
{
    match part_of(alloc, value, 1)? {
        AnyPath::Raw(path) => Ok(RawExpr::Path(path)),
        AnyPath::Later(path) => Ok(RawExpr::Later(LaterExpr::Path(path))),
    }
}

#[tactic(auto, unfolding(crate::specs::Exprs::block_in))]
fn block(alloc: Global, value: &Value) -> Result<RawExpr, Misread>
    ensures { IsAsRead result (block_in (view value.now)) }
{
    let label = part_of(alloc, value, 1)?;
    let statements = part_of(alloc, value, 2)?;
    let tail = part_of(alloc, value, 3)?;
    Ok(RawExpr::Block {
        label,
        statements,
        tail,
    })
}

#[tactic(auto, unfolding(crate::specs::Exprs::if_in))]
fn if_expr(alloc: Global, value: &Value) -> Result<RawExpr, Misread>
    ensures { IsAsRead result (if_in (view value.now)) }
{
    let condition = part_of(alloc, value, 1)?;
    let then_branch = part_of(alloc, value, 2)?;
    let else_branch = part_of(alloc, value, 3)?;
    Ok(RawExpr::If {
        condition,
        then_branch,
        else_branch,
    })
}

#[tactic(auto, unfolding(crate::specs::Exprs::arm_in))]
impl FromData for RawArm {
    ghost reads = { arm_in };

    fn from_data(alloc: Global, value: &Value) -> Result<RawArm, Misread> {
        expect_parts(alloc, value, 3)?;
        let pat = part_of(alloc, value, 0)?;
        let guard = part_of(alloc, value, 1)?;
        let expr = part_of(alloc, value, 2)?;
        Ok(RawArm { pat, guard, expr })
    }
}

#[tactic(auto, unfolding(crate::specs::Exprs::match_in))]
fn match_expr(alloc: Global, value: &Value) -> Result<RawExpr, Misread>
    ensures { IsAsRead result (match_in (view value.now)) }
{
    let scrutinee = part_of(alloc, value, 1)?;
    let arms = part_of(alloc, value, 2)?;
    Ok(RawExpr::Match { scrutinee, arms })
}

#[tactic(auto, unfolding(crate::specs::Exprs::call_in))]
fn call(alloc: Global, value: &Value) -> Result<RawExpr, Misread>
    ensures { IsAsRead result (call_in (view value.now)) }
{
    let callee = part_of(alloc, value, 1)?;
    let args = part_of(alloc, value, 2)?;
    Ok(RawExpr::Call { callee, args })
}

#[tactic(auto, unfolding(crate::specs::Exprs::expr_in))]
impl FromData for RawExpr {
    ghost reads = { expr_in };

    fn from_data(alloc: Global, value: &Value) -> Result<RawExpr, Misread> {
        let tag = tag_of(alloc, value)?;
        if is(tag, "lit", 2) {
            lit_expr(alloc, value)
        } else if is(tag, "path", 2) {
            path_expr(alloc, value)
        } else if is(tag, "block", 4) {
            block(alloc, value)
        } else if is(tag, "tuple", 2) {
            Ok(RawExpr::Tuple(part_of(alloc, value, 1)?))
        } else if is(tag, "if", 4) {
            if_expr(alloc, value)
        } else if is(tag, "match", 3) {
            match_expr(alloc, value)
        } else if is(tag, "call", 3) {
            call(alloc, value)
        } else {
            Ok(RawExpr::Later(later_expr(alloc, tag, value)?))
        }
    }
}
