//! What an expression, a pattern or a body is made of, in the order of the walk.
ghost use Rattle.std.specs.Prelude.{◌≡◌, ◌++◌, ℕ, map, IfOk, OnOk};
ghost use Rattle.hir_types.specs.declared.ids.ExprOrPatId.TheVariants.{ExprId as expr_node, PatId as pat_node};
ghost use Rattle.hir_schedule.specs.Words.{Role, maybe_part, stmt_parts, stmts_parts, arm_parts, arms_parts, expr_parts, pat_parts, body_parts, bound_sub, nodes, RawBody};
ghost use Rattle.hir_raw.specs.declared.raw.RawExpr.TheVariants.{If, Match, Call};

use crate::later_parts::{push_arguments, push_later, push_later_pat};
use hir_raw::{RawArm, RawBody, RawExpr, RawPat, RawStmt};
use hir_types::{ExprId, ExprOrPatId, PatId};
use std::alloc::{AllocError, Global};

fn push_maybe(out: &mut Vec<ExprOrPatId>, expr: Option<ExprId>) -> Result<(), AllocError>
    ensures { OnOk result ((role : Role) →
        out.new.items ≡ out.old.items ++ nodes (maybe_part role expr)) }
{
    if let Some(expr) = expr {
        out.push(ExprOrPatId::ExprId(expr))?;
    }
    Ok(())
}

fn push_stmt(out: &mut Vec<ExprOrPatId>, stmt: &RawStmt) -> Result<(), AllocError>
    ensures { OnOk result (out.new.items ≡ out.old.items ++ nodes (stmt_parts stmt.now)) }
{
    match stmt {
        RawStmt::Let {
            pat,
            type_ref: _,
            initializer,
            else_branch,
        } => {
            push_maybe(out, *initializer)?;
            out.push(ExprOrPatId::PatId(*pat))?;
            push_maybe(out, *else_branch)?;
        }
        RawStmt::Expr { expr, has_semi: _ } => out.push(ExprOrPatId::ExprId(*expr))?,
    }
    Ok(())
}

pub fn push_stmts(out: &mut Vec<ExprOrPatId>, stmts: &[RawStmt]) -> Result<(), AllocError>
    ensures { OnOk result (out.new.items ≡ out.old.items ++ nodes (stmts_parts stmts.now)) }
{
    for stmt in stmts {
        push_stmt(out, stmt)?;
    }
    Ok(())
}

fn push_exprs(out: &mut Vec<ExprOrPatId>, exprs: &[ExprId]) -> Result<(), AllocError>
    ensures { OnOk result (out.new.items ≡ out.old.items ++ map expr_node exprs.now) }
{
    for expr in exprs {
        out.push(ExprOrPatId::ExprId(*expr))?;
    }
    Ok(())
}

fn push_pats(out: &mut Vec<ExprOrPatId>, pats: &[PatId]) -> Result<(), AllocError>
    ensures { OnOk result (out.new.items ≡ out.old.items ++ map pat_node pats.now) }
{
    for pat in pats {
        out.push(ExprOrPatId::PatId(*pat))?;
    }
    Ok(())
}

fn push_arm_pats(out: &mut Vec<ExprOrPatId>, arms: &[RawArm]) -> Result<(), AllocError>
    ensures { OnOk result (out.new.items ≡ out.old.items ++ map (λ a. pat_node a.pat) arms.now) }
{
    for arm in arms {
        out.push(ExprOrPatId::PatId(arm.pat))?;
    }
    Ok(())
}

fn push_arm(out: &mut Vec<ExprOrPatId>, arm: RawArm) -> Result<(), AllocError>
    ensures { OnOk result ((i : ℕ) →
        out.new.items ≡ out.old.items ++ nodes (arm_parts i arm)) }
{
    push_maybe(out, arm.guard)?;
    out.push(ExprOrPatId::ExprId(arm.expr))?;
    Ok(())
}

fn push_arms(out: &mut Vec<ExprOrPatId>, arms: &[RawArm]) -> Result<(), AllocError>
    ensures { OnOk result (out.new.items ≡ out.old.items ++ nodes (arms_parts 0 arms.now)) }
{
    for arm in arms {
        push_arm(out, *arm)?;
    }
    Ok(())
}

fn push_if(
    out: &mut Vec<ExprOrPatId>,
    condition: ExprId,
    then_branch: ExprId,
    else_branch: Option<ExprId>,
) -> Result<(), AllocError>
    ensures { OnOk result ((b : RawBody) → out.new.items ≡ out.old.items
        ++ nodes (expr_parts b (If condition then_branch else_branch))) }
{
    out.push(ExprOrPatId::ExprId(condition))?;
    out.push(ExprOrPatId::ExprId(then_branch))?;
    push_maybe(out, else_branch)?;
    Ok(())
}

fn push_match(
    out: &mut Vec<ExprOrPatId>,
    scrutinee: ExprId,
    arms: &[RawArm],
) -> Result<(), AllocError>
    ensures { OnOk result ((b : RawBody) → out.new.items ≡ out.old.items
        ++ nodes (expr_parts b (Match scrutinee arms.now))) }
{
    out.push(ExprOrPatId::ExprId(scrutinee))?;
    push_arm_pats(out, arms)?;
    push_arms(out, arms)?;
    Ok(())
}

fn push_call(
    out: &mut Vec<ExprOrPatId>,
    body: &RawBody,
    callee: ExprId,
    args: &[ExprId],
) -> Result<(), AllocError>
    ensures { OnOk result (out.new.items ≡ out.old.items
        ++ nodes (expr_parts body.now (Call callee args.now))) }
{
    out.push(ExprOrPatId::ExprId(callee))?;
    push_arguments(out, body, args)?;
    Ok(())
}

fn push_bound(out: &mut Vec<ExprOrPatId>, subpat: Option<PatId>) -> Result<(), AllocError>
    ensures { OnOk result (out.new.items ≡ out.old.items ++ nodes (bound_sub subpat)) }
{
    if let Some(pat) = subpat {
        out.push(ExprOrPatId::PatId(pat))?;
    }
    Ok(())
}

/// The parts of an expression of this body.
pub fn nodes_of_expr(
    alloc: Global,
    body: &RawBody,
    expr: &RawExpr,
) -> Result<Vec<ExprOrPatId>, AllocError>
    ensures { IfOk result (λ v. v.items ≡ nodes (expr_parts body.now expr.now)) }
{
    let mut out = Vec::new(alloc);
    match expr {
        RawExpr::Lit(_) => {}
        RawExpr::Path(_) => {}
        RawExpr::Block {
            label: _,
            statements,
            tail,
        } => {
            push_stmts(&mut out, statements.as_slice())?;
            push_maybe(&mut out, *tail)?;
        }
        RawExpr::Tuple(exprs) => push_exprs(&mut out, exprs.as_slice())?,
        RawExpr::If {
            condition,
            then_branch,
            else_branch,
        } => push_if(&mut out, *condition, *then_branch, *else_branch)?,
        RawExpr::Match { scrutinee, arms } => push_match(&mut out, *scrutinee, arms.as_slice())?,
        RawExpr::Call { callee, args } => push_call(&mut out, body, *callee, args.as_slice())?,
        RawExpr::Later(expr) => push_later(&mut out, body, expr)?,
    }
    Ok(out)
}

/// The parts of a pattern.
pub fn nodes_of_pat(alloc: Global, pat: &RawPat) -> Result<Vec<ExprOrPatId>, AllocError>
    ensures { IfOk result (λ v. v.items ≡ nodes (pat_parts pat.now)) }
{
    let mut out = Vec::new(alloc);
    match pat {
        RawPat::Wild => {}
        RawPat::Bind { id: _, subpat } => push_bound(&mut out, *subpat)?,
        RawPat::Tuple(pats) => push_pats(&mut out, pats.as_slice())?,
        RawPat::TupleStruct { variant: _, args } => push_pats(&mut out, args.as_slice())?,
        RawPat::Path(_) => {}
        RawPat::Lit(expr) => out.push(ExprOrPatId::ExprId(*expr))?,
        RawPat::Later(pat) => push_later_pat(&mut out, pat)?,
    }
    Ok(out)
}

/// The parts of a body: the patterns of its parameters, then its root.
pub fn nodes_of_body(alloc: Global, body: &RawBody) -> Result<Vec<ExprOrPatId>, AllocError>
    ensures { IfOk result (λ v. v.items ≡ nodes (body_parts body.now)) }
{
    let mut out = Vec::new(alloc);
    push_pats(&mut out, body.params.as_slice())?;
    out.push(ExprOrPatId::ExprId(body.root))?;
    Ok(out)
}
