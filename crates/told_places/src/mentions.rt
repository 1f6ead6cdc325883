//! What the nodes of a body name besides their parts, from the text again.

use crate::look::{items, number, word};
use crate::nodes::Node;
use serde_json::Value;
use std::alloc::AllocError;

/// What a node names.
#[derive(Clone, Copy, PartialEq, Eq)]
pub enum Mention {
    Type(usize),
    Local(usize),
    /// A binding, which it binds.
    Binds(usize),
    Function(usize),
    Variant(usize),
    Const(usize),
    Static(usize),
    Trait(usize),
    Impl(usize),
    /// A const parameter, by its number.
    Param(usize),
    /// A label that stands here.
    Label(usize),
    /// A label of the loop or block that is left.
    Left(usize),
    /// A list with so many entries.
    List(usize),
}

fn push(out: &mut Vec<Mention>, mention: Option<Mention>) -> Result<(), AllocError> {
    if let Some(mention) = mention {
        out.push(mention)?;
    }
    Ok(())
}

/// That a list stands there, where one does.
fn push_list(out: &mut Vec<Mention>, value: Option<&Value>) -> Result<(), AllocError> {
    if let Some(Value::Array(items)) = value {
        out.push(Mention::List(items.len()))?;
    }
    Ok(())
}

fn push_const(out: &mut Vec<Mention>, value: Option<&Value>) -> Result<(), AllocError> {
    match value {
        Some(value) if word(Some(value)) == "param" => push(
            out,
            number(value.get(1usize)).map(Mention::Param),
        ),
        _ => Ok(()),
    }
}

/// A written list of arguments.
fn push_args(out: &mut Vec<Mention>, args: Option<&Value>) -> Result<(), AllocError> {
    push_list(out, args)?;
    for arg in items(args) {
        if word(Some(arg)) == "t" {
            push(out, number(arg.get(1usize)).map(Mention::Type))?;
        } else {
            push_const(out, arg.get(1usize))?;
        }
    }
    Ok(())
}

/// What a path to a value or to a variant names, and its lists.
fn push_path(out: &mut Vec<Mention>, path: Option<&Value>) -> Result<(), AllocError> {
    let Some(path) = path else { return Ok(()) };
    let named = path.get(1usize);
    match word(Some(path)) {
        "local" => push(out, number(named).map(Mention::Local))?,
        "fn" => push(out, number(named).map(Mention::Function))?,
        "ctor" | "variant" => push(out, number(named).map(Mention::Variant))?,
        "const" => push(out, number(named).map(Mention::Const))?,
        "static" => push(out, number(named).map(Mention::Static))?,
        "implself" => push(out, number(named).map(Mention::Impl))?,
        "constparam" => push(out, number(named).map(Mention::Param))?,
        "type" => return push(out, number(named).map(Mention::Type)),
        "typed" => {
            push(out, number(named).map(Mention::Type))?;
            return push_args(out, path.get(3usize));
        }
        "trait" => {
            push(out, number(named).map(Mention::Trait))?;
            push_args(out, path.get(2usize))?;
            return push_args(out, path.get(4usize));
        }
        _ => return Ok(()),
    }
    push_args(out, path.get(2usize))
}

fn push_stmts(out: &mut Vec<Mention>, stmts: Option<&Value>) -> Result<(), AllocError> {
    push_list(out, stmts)?;
    for stmt in items(stmts) {
        if word(Some(stmt)) == "let" {
            push(out, number(stmt.get(2usize)).map(Mention::Type))?;
        }
    }
    Ok(())
}

fn push_closure(out: &mut Vec<Mention>, closure: &Value) -> Result<(), AllocError> {
    let params = closure.get(1usize);
    push_list(out, params)?;
    for param in items(params) {
        push(out, number(param.get(1usize)).map(Mention::Type))?;
    }
    push(out, number(closure.get(2usize)).map(Mention::Type))
}

fn push_expr(out: &mut Vec<Mention>, expr: &Value) -> Result<(), AllocError> {
    match word(Some(expr)) {
        "path" => push_path(out, expr.get(1usize)),
        "block" => {
            push(out, number(expr.get(1usize)).map(Mention::Label))?;
            push_stmts(out, expr.get(2usize))
        }
        "unsafe" => push_stmts(out, expr.get(1usize)),
        "loop" => push(out, number(expr.get(1usize)).map(Mention::Label)),
        "break" | "continue" => push(out, number(expr.get(1usize)).map(Mention::Left)),
        "tuple" | "array" => push_list(out, expr.get(1usize)),
        "match" | "call" => push_list(out, expr.get(2usize)),
        "method" => {
            push_args(out, expr.get(3usize))?;
            push_list(out, expr.get(4usize))
        }
        "record" => {
            push_path(out, expr.get(1usize))?;
            push_list(out, expr.get(2usize))
        }
        "cast" => push(out, number(expr.get(2usize)).map(Mention::Type)),
        "repeat" => push_const(out, expr.get(3usize)),
        "closure" => push_closure(out, expr),
        _ => Ok(()),
    }
}

fn push_pat(out: &mut Vec<Mention>, pat: &Value) -> Result<(), AllocError> {
    match word(Some(pat)) {
        "bind" => push(out, number(pat.get(1usize)).map(Mention::Binds)),
        "path" => push_path(out, pat.get(1usize)),
        "tuple" | "or" => push_list(out, pat.get(1usize)),
        "ctor" | "record" => {
            push_path(out, pat.get(1usize))?;
            push_list(out, pat.get(2usize))
        }
        "slice" => {
            push_list(out, pat.get(1usize))?;
            push_list(out, pat.get(3usize))
        }
        _ => Ok(()),
    }
}

/// Adds what a node names that is written so.
pub fn push_mentions(out: &mut Vec<Mention>, node: Node, entry: &Value) -> Result<(), AllocError> {
    match node {
        Node::Expr(_) => push_expr(out, entry),
        Node::Pat(_) => push_pat(out, entry),
    }
}
