//! What the nodes of a body name beside their parts, one after another.
ghost use Rattle.std.specs.Prelude.{◌≡◌, ◌∷◌, ◌++◌, ◌+◌, ◌<◌, ◌^◌, List, [], length, flat_map, OnOk, IfOk};
ghost use Rattle.hir_ids.specs.Words.hir_raw.declared.mention.Mention.TheVariants.{List as list_mention};
ghost use Rattle.hir_ids.specs.Words.{label_here, type_here, bound_here, path_mentions, stmt_mentions, expr_mentions, pat_mentions, body_mentions, said, each, expr_said, pat_said, body_said};

use crate::saying_later::{say_later, say_later_pat};
use hir_raw::{LabelRole, Mention, RawBody, RawExpr, RawPat, RawPath, RawStmt, Said};
use hir_types::{BindingId, LabelId, TypeRefId};
use std::alloc::{AllocError, Global};

pub fn say(out: &mut Vec<Said>, node: usize, mention: Mention) -> Result<(), AllocError>
    ensures { OnOk result (out.new.items ≡ out.old.items ++ said node (mention ∷ [])) }
{
    out.push(Said { node, mention })?;
    Ok(())
}

pub fn say_label(
    out: &mut Vec<Said>,
    node: usize,
    label: &Option<LabelId>,
) -> Result<(), AllocError>
    ensures { OnOk result (out.new.items ≡ out.old.items ++ said node (label_here label.now)) }
{
    match label {
        None => Ok(()),
        Some(label) => say(out, node, Mention::Label(LabelRole::Here, *label)),
    }
}

pub fn say_type(
    out: &mut Vec<Said>,
    node: usize,
    written: &Option<TypeRefId>,
) -> Result<(), AllocError>
    ensures { OnOk result (out.new.items ≡ out.old.items ++ said node (type_here written.now)) }
{
    match written {
        None => Ok(()),
        Some(written) => say(out, node, Mention::Type(*written)),
    }
}

fn say_bound(out: &mut Vec<Said>, node: usize, bound: &Option<BindingId>) -> Result<(), AllocError>
    ensures { OnOk result (out.new.items ≡ out.old.items ++ said node (bound_here bound.now)) }
{
    match bound {
        None => Ok(()),
        Some(bound) => say(out, node, Mention::Binds(*bound)),
    }
}

pub fn say_list(out: &mut Vec<Said>, node: usize, count: usize) -> Result<(), AllocError>
    ensures { OnOk result (out.new.items ≡ out.old.items ++ said node (list_mention count ∷ [])) }
{
    say(out, node, Mention::List(count))
}

fn say_path(out: &mut Vec<Said>, node: usize, path: &RawPath) -> Result<(), AllocError>
    ensures { OnOk result (out.new.items ≡ out.old.items ++ said node (path_mentions path.now)) }
{
    match path {
        RawPath::Local(v) => say(out, node, Mention::Local(*v)),
        RawPath::Function(function) => say(out, node, Mention::Function(*function)),
        RawPath::Ctor(variant) => say(out, node, Mention::Variant(*variant)),
    }
}

fn say_stmt(out: &mut Vec<Said>, node: usize, stmt: &RawStmt) -> Result<(), AllocError>
    ensures { OnOk result (out.new.items ≡ out.old.items ++ said node (stmt_mentions stmt.now)) }
{
    match stmt {
        RawStmt::Let { type_ref, .. } => say_type(out, node, type_ref),
        RawStmt::Expr { .. } => Ok(()),
    }
}

pub fn say_stmts(out: &mut Vec<Said>, node: usize, stmts: &[RawStmt]) -> Result<(), AllocError>
    ensures { OnOk result (out.new.items ≡ out.old.items
        ++ said node (flat_map stmt_mentions stmts.now)) }
{
    for stmt in stmts {
        say_stmt(out, node, stmt)?;
    }
    Ok(())
}

fn say_expr(out: &mut Vec<Said>, node: usize, expr: &RawExpr) -> Result<(), AllocError>
    ensures { OnOk result (out.new.items ≡ out.old.items ++ said node (expr_mentions expr.now)) }
{
    match expr {
        RawExpr::Lit(_) => Ok(()),
        RawExpr::Path(path) => say_path(out, node, path),
        RawExpr::Block {
            label,
            statements,
            tail: _,
        } => {
            say_label(out, node, label)?;
            say_list(out, node, statements.len())?;
            say_stmts(out, node, statements.as_slice())
        }
        RawExpr::Tuple(exprs) => say_list(out, node, exprs.len()),
        RawExpr::If { .. } => Ok(()),
        RawExpr::Match { scrutinee: _, arms } => say_list(out, node, arms.len()),
        RawExpr::Call { callee: _, args } => say_list(out, node, args.len()),
        RawExpr::Later(expr) => say_later(out, node, expr),
    }
}

fn say_pat(out: &mut Vec<Said>, node: usize, pat: &RawPat) -> Result<(), AllocError>
    ensures { OnOk result (out.new.items ≡ out.old.items ++ said node (pat_mentions pat.now)) }
{
    match pat {
        RawPat::Wild => Ok(()),
        RawPat::Bind { id, subpat: _ } => say(out, node, Mention::Binds(*id)),
        RawPat::Tuple(pats) => say_list(out, node, pats.len()),
        RawPat::TupleStruct { variant, args } => {
            say(out, node, Mention::Variant(*variant))?;
            say_list(out, node, args.len())
        }
        RawPat::Path(path) => say_path(out, node, path),
        RawPat::Lit(_) => Ok(()),
        RawPat::Later(pat) => say_later_pat(out, node, pat),
    }
}

fn say_exprs(out: &mut Vec<Said>, exprs: &[RawExpr]) -> Result<(), AllocError>
    ensures { OnOk result (out.new.items ≡ out.old.items ++ each expr_said 0 exprs.now) }
{
    for (e, expr) in exprs.iter().enumerate() {
        say_expr(out, e, expr)?;
    }
    Ok(())
}

fn say_pats(out: &mut Vec<Said>, first: usize, pats: &[RawPat]) -> Result<(), AllocError>
    requires { first + length pats.now < 2 ^ 64 }
    ensures { OnOk result (out.new.items ≡ out.old.items ++ each (pat_said first) 0 pats.now) }
{
    for (p, pat) in pats.iter().enumerate() {
        say_pat(out, first + p, pat)?;
    }
    Ok(())
}

fn say_body(out: &mut Vec<Said>, node: usize, body: &RawBody) -> Result<(), AllocError>
    ensures { OnOk result (out.new.items ≡ out.old.items ++ said node (body_mentions body.now)) }
{
    say_bound(out, node, &body.self_)?;
    say_list(out, node, body.params.len())
}

/// What a body mentions, by the body, by its expressions and by its patterns.
pub fn said_of_body(alloc: Global, body: &RawBody) -> Result<Vec<Said>, AllocError>
    ensures { IfOk result (λ v. v.items ≡ body_said body.now) }
{
    let mut out = Vec::new(alloc);
    let exprs = body.exprs.as_slice();
    let pats = body.pats.as_slice();
    say_body(&mut out, exprs.len() + pats.len(), body)?;
    say_exprs(&mut out, exprs)?;
    say_pats(&mut out, exprs.len(), pats)?;
    Ok(out)
}
