//! Law 0 of bodies: what inference does not carry yet.

use serde_json::Value;
use std::fmt;
use told_places::look::{is_there, items, list, number, word};
use told_places::place::{Place, Quoted};

/// What is not carried yet.
#[derive(Clone, Copy)]
pub enum LaterKind<'a> {
    Form(&'static str),
    /// An operator, by its sign.
    Sign(Quoted<'a>),
}

impl fmt::Display for LaterKind<'_> {
    fn fmt<W: fmt::Write>(&self, f: &mut fmt::Formatter<W>) -> fmt::Result {
        match self {
            LaterKind::Form(form) => write!(f, "{form} are not carried yet"),
            LaterKind::Sign(sign) => write!(f, "{sign} expressions are not carried yet"),
        }
    }
}

const WRITTEN_ARGUMENTS: &str = "written arguments of paths";

const UNRESOLVED: &str = "paths that do not resolve";

const DOTS: &str = "`..` in patterns";

fn of_literal(literal: Option<&Value>) -> Option<&'static str> {
    match word(literal) {
        "str" => Some("string literals"),
        "bytes" => Some("byte string literals"),
        "cstr" => Some("C string literals"),
        _ => None,
    }
}

fn of_path(path: Option<&Value>) -> Option<&'static str> {
    match word(path) {
        "local" | "fn" | "ctor" | "variant" => {
            if is_there(path?.get(2usize)) {
                Some(WRITTEN_ARGUMENTS)
            } else {
                None
            }
        }
        "const" => Some("paths to consts"),
        "static" => Some("paths to statics"),
        "type" | "typed" => Some("paths through types"),
        "trait" => Some("paths through traits"),
        "implself" => Some("`Self` constructors"),
        "constparam" => Some("const parameters"),
        _ => Some(UNRESOLVED),
    }
}

fn has_else(stmt: &Value) -> bool {
    word(Some(stmt)) == "let" && is_there(stmt.get(4usize))
}

fn of_block(block: &Value) -> Option<&'static str> {
    if is_there(block.get(1usize)) {
        Some("labelled blocks")
    } else if items(block.get(2usize)).iter().any(|stmt| has_else(stmt)) {
        Some("`let` statements with `else`")
    } else {
        None
    }
}

fn of_unary(op: &str) -> &'static str {
    match op {
        "not" => "`!` expressions",
        "neg" => "`-` expressions",
        _ => "dereferences",
    }
}

fn of_borrow(is_raw: Option<&Value>) -> &'static str {
    match is_raw {
        Some(Value::Bool(true)) => "raw borrows",
        _ => "borrows",
    }
}

/// What no expression of such a word is carried for.
fn of_word(expr: &Value) -> &'static str {
    match word(Some(expr)) {
        "_" => "`_` expressions",
        "offset" => "offsets of fields",
        "unsafe" => "`unsafe` blocks",
        "const" => "`const` blocks",
        "let" => "`let` conditions",
        "loop" => "loops",
        "method" => "method calls",
        "field" => "field accesses",
        "break" => "`break` expressions",
        "continue" => "`continue` expressions",
        "return" => "`return` expressions",
        "become" => "`become` expressions",
        "record" => "record expressions",
        "cast" => "casts",
        "ref" => of_borrow(expr.get(1usize)),
        "box" => "`box` expressions",
        "un" => of_unary(word(expr.get(1usize))),
        "bin" => "expressions without an operator",
        "assign" => "assignments",
        "range" => "ranges",
        "index" => "index expressions",
        "array" => "arrays",
        "repeat" => "`[x; n]` arrays",
        "closure" => "closures",
        _ => "missing expressions",
    }
}

fn of_expr(expr: &Value) -> Option<LaterKind<'_>> {
    let form = match word(Some(expr)) {
        "lit" => of_literal(expr.get(1usize))?,
        "path" => of_path(expr.get(1usize))?,
        "block" => of_block(expr)?,
        "match" if items(expr.get(2usize)).is_empty() => "`match` expressions without arms",
        "tuple" | "if" | "match" | "call" => return None,
        "bin" if is_there(expr.get(1usize)) => {
            return Some(LaterKind::Sign(Quoted(word(expr.get(1usize)))));
        }
        _ => of_word(expr),
    };
    Some(LaterKind::Form(form))
}

/// What is not carried of a path that is a pattern.
fn of_path_pat(path: Option<&Value>) -> Option<&'static str> {
    match word(path) {
        "local" => Some("locals as patterns"),
        "fn" => Some("functions as patterns"),
        _ => of_path(path),
    }
}

fn of_pat(pat: &Value) -> Option<&'static str> {
    match word(Some(pat)) {
        "bind" if is_there(pat.get(2usize)) => Some("patterns after `@`"),
        "tuple" if is_there(pat.get(2usize)) => Some(DOTS),
        "ctor" if is_there(pat.get(3usize)) => Some(DOTS),
        "ctor" => of_path(pat.get(1usize)),
        "path" => of_path_pat(pat.get(1usize)),
        "wild" | "bind" | "tuple" | "lit" => None,
        "record" => Some("record patterns"),
        "range" => Some("range patterns"),
        "slice" => Some("slice patterns"),
        "ref" => Some("reference patterns"),
        "or" => Some("or-patterns"),
        "box" => Some("`box` patterns"),
        "const" => Some("`const` blocks as patterns"),
        "expr" => Some("places as patterns"),
        _ => Some("missing patterns"),
    }
}

fn of_binding(binding: &Value) -> Option<&'static str> {
    match word(binding.get(1usize)) {
        "ref" => Some("`ref` bindings"),
        "refmut" => Some("`ref mut` bindings"),
        _ => None,
    }
}

/// The first expression, pattern or binding of a body whose kind is not carried yet, or its `self`.
pub fn find(place: Place, body: &Value) -> Option<(Place, LaterKind<'_>)> {
    for (at, expr) in list(body, "exprs").iter().enumerate() {
        if let Some(found) = of_expr(expr) {
            return Some((place.item("exprs", at), found));
        }
    }
    for (at, pat) in list(body, "pats").iter().enumerate() {
        if let Some(form) = of_pat(pat) {
            return Some((place.item("pats", at), LaterKind::Form(form)));
        }
    }
    for (at, binding) in list(body, "bindings").iter().enumerate() {
        if let Some(form) = of_binding(binding) {
            return Some((place.item("bindings", at), LaterKind::Form(form)));
        }
    }
    number(body.get("self"))?;
    Some((place.key("self"), LaterKind::Form("bodies with `self`")))
}
