//! Whether a body is of kinds that inference carries.
ghost use Rattle.std.specs.Prelude.{◌≡◌};
ghost use Rattle.std.specs.List.{list_all};
ghost use Rattle.hir_facts.specs.Own.{is_ctor_path, is_carried_stmt, is_carried_expr, is_carried_pat, is_carried_binding, is_carried_body};

use hir_raw::{BindingAnnotation, RawBinding, RawBody, RawExpr, RawPat, RawPath, RawStmt};

fn carries_stmt(stmt: &RawStmt) -> bool
    ensures { result ≡ is_carried_stmt stmt.now }
{
    match stmt {
        RawStmt::Let { else_branch, .. } => else_branch.is_none(),
        RawStmt::Expr {
            expr: _,
            has_semi: _,
        } => true,
    }
}

fn carries_stmts(stmts: &[RawStmt]) -> bool
    ensures { result ≡ list_all is_carried_stmt stmts.now }
{
    stmts.iter().all(|stmt| carries_stmt(stmt))
}

/// Whether inference carries an expression, whatever its parts are.
pub fn is_carried_expr(expr: &RawExpr) -> bool
    ensures { result ≡ is_carried_expr expr.now }
{
    match expr {
        RawExpr::Lit(_) | RawExpr::Path(_) => true,
        RawExpr::Block {
            label,
            statements,
            tail: _,
        } => label.is_none() && carries_stmts(statements.as_slice()),
        RawExpr::Tuple(_) | RawExpr::If { .. } | RawExpr::Call { .. } => true,
        RawExpr::Match { scrutinee: _, arms } => !arms.is_empty(),
        RawExpr::Later(_) => false,
    }
}

fn is_ctor_path(path: &RawPath) -> bool
    ensures { result ≡ is_ctor_path path.now }
{
    match path {
        RawPath::Ctor(_) => true,
        RawPath::Local(_) | RawPath::Function(_) => false,
    }
}

/// Whether inference carries a pattern, whatever its parts are.
pub fn is_carried_pat(pat: &RawPat) -> bool
    ensures { result ≡ is_carried_pat pat.now }
{
    match pat {
        RawPat::Wild | RawPat::Tuple(_) | RawPat::Lit(_) => true,
        RawPat::Bind { id: _, subpat } => subpat.is_none(),
        RawPat::TupleStruct { .. } => true,
        RawPat::Path(path) => is_ctor_path(path),
        RawPat::Later(_) => false,
    }
}

/// Whether inference carries a binding.
pub fn is_carried_binding(binding: &RawBinding) -> bool
    ensures { result ≡ is_carried_binding binding.now }
{
    match binding.mode {
        BindingAnnotation::Unannotated | BindingAnnotation::Mutable => true,
        BindingAnnotation::Ref | BindingAnnotation::RefMut => false,
    }
}

fn carries_exprs(exprs: &[RawExpr]) -> bool
    ensures { result ≡ list_all is_carried_expr exprs.now }
{
    exprs.iter().all(|expr| is_carried_expr(expr))
}

fn carries_pats(pats: &[RawPat]) -> bool
    ensures { result ≡ list_all is_carried_pat pats.now }
{
    pats.iter().all(|pat| is_carried_pat(pat))
}

fn carries_bindings(bindings: &[RawBinding]) -> bool
    ensures { result ≡ list_all is_carried_binding bindings.now }
{
    bindings.iter().all(|binding| is_carried_binding(binding))
}

/// Whether the nodes and bindings of a body are of kinds that inference carries, and it has no `self`.
pub fn is_carried_body(body: &RawBody) -> bool
    ensures { result ≡ is_carried_body body.now }
{
    carries_exprs(body.exprs.as_slice())
        && carries_pats(body.pats.as_slice())
        && carries_bindings(body.bindings.as_slice())
        && body.self_.is_none()
}
