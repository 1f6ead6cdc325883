//! What an expression or a pattern of a kind has to have at each of its parts, in words.

use serde_json::Value;
use told_places::look::{list, word};

/// What stands at a part.
#[derive(Clone, Copy)]
enum Shape {
    Truth,
    Number,
    Text,
    Binding,
    Function,
    Variant,
    Const,
    Static,
    Trait,
    Impl,
    Type,
    MaybeType,
    Label,
    Expr,
    MaybeExpr,
    Pat,
    MaybePat,
    Dots,
    MaybeInteger,
    Mutability,
    Unary,
    Binary,
    Literal,
    Path,
    VariantPath,
    ConstArg,
    Arg,
    Args,
    Exprs,
    Pats,
    Stmt,
    Stmts,
    Arm,
    Arms,
    Field,
    Fields,
    FieldPat,
    FieldPats,
    Param,
    Params,
}

/// What is wanted of a leaf.
fn leaf(shape: Shape) -> &'static str {
    match shape {
        Shape::Truth => "true or false",
        Shape::Text => "a text",
        Shape::Binding => "a binding's number",
        Shape::Function => "a function's number",
        Shape::Variant => "a variant's number",
        Shape::Const => "a const's number",
        Shape::Static => "a static's number",
        Shape::Trait => "a trait's number",
        Shape::Impl => "an impl's number",
        Shape::Type => "an index into `types`",
        Shape::MaybeType => "an index into `types`, or null",
        Shape::Label => "a label's number, or null",
        Shape::Expr => "an expression's number",
        Shape::MaybeExpr => "an expression's number, or null",
        Shape::Pat => "a pattern's number",
        Shape::MaybePat => "a pattern's number, or null",
        Shape::Dots => "the number of patterns before `..`, or null",
        Shape::MaybeInteger => "the name of an integer type, or null",
        Shape::Mutability => "\"not\" or \"mut\"",
        Shape::Unary => "\"not\", \"neg\" or \"deref\"",
        Shape::Binary => "the sign of an operator as a text, or null",
        _ => "a whole number from 0, below 2^32",
    }
}

/// What is wanted of what has parts, or of a leaf.
fn words(shape: Shape) -> &'static str {
    match shape {
        Shape::Literal =>
            "a literal, which is \"cstr\" or an array of its word and exactly its parts,",
        Shape::Path => "a path, which is an array of its word and exactly its parts,",
        Shape::VariantPath => {
            "[\"variant\", VARIANT, ARGUMENTS], [\"type\", TYPE], [\"typed\", TYPE, NAME] or \"unresolved\""
        }
        Shape::ConstArg => "a whole number below 2^64, [\"param\", NUMBER], \"unknown\" or \"_\"",
        Shape::Arg => "[\"t\", TYPE] or [\"c\", CONST]",
        Shape::Args => "a list of arguments, or null",
        Shape::Exprs => "a list of expressions' numbers",
        Shape::Pats => "a list of patterns' numbers",
        Shape::Stmt => {
            "[\"let\", PATTERN, TYPE?, EXPRESSION?, EXPRESSION?] or [\"expr\", EXPRESSION, SEMICOLON]"
        }
        Shape::Stmts => "a list of statements",
        Shape::Arm => "[PATTERN, EXPRESSION?, EXPRESSION]",
        Shape::Arms => "a list of arms",
        Shape::Field => "[NAME, EXPRESSION]",
        Shape::FieldPat => "[NAME, PATTERN]",
        Shape::Fields | Shape::FieldPats => "a list of fields",
        Shape::Param => "[PATTERN, TYPE?]",
        Shape::Params => "a list of parameters",
        leaf_shape => leaf(leaf_shape),
    }
}

/// The parts behind the word of an expression of this word.
fn expr_parts(word: &str) -> &'static [Shape] {
    match word {
        "lit" => &[Shape::Literal],
        "path" => &[Shape::Path],
        "block" => &[Shape::Label, Shape::Stmts, Shape::MaybeExpr],
        "unsafe" => &[Shape::Stmts, Shape::MaybeExpr],
        "const" | "become" | "box" => &[Shape::Expr],
        "if" => &[Shape::Expr, Shape::Expr, Shape::MaybeExpr],
        "let" | "assign" => &[Shape::Pat, Shape::Expr],
        "loop" => &[Shape::Label, Shape::Expr],
        "match" => &[Shape::Expr, Shape::Arms],
        "call" => &[Shape::Expr, Shape::Exprs],
        "method" => &[Shape::Expr, Shape::Text, Shape::Args, Shape::Exprs],
        "field" => &[Shape::Expr, Shape::Text],
        "break" => &[Shape::Label, Shape::MaybeExpr],
        "continue" => &[Shape::Label],
        "return" => &[Shape::MaybeExpr],
        "record" => &[Shape::VariantPath, Shape::Fields, Shape::MaybeExpr],
        "cast" => &[Shape::Expr, Shape::Type],
        "ref" => &[Shape::Truth, Shape::Mutability, Shape::Expr],
        "un" => &[Shape::Unary, Shape::Expr],
        "bin" => &[Shape::Binary, Shape::Expr, Shape::Expr],
        "range" => &[Shape::Truth, Shape::MaybeExpr, Shape::MaybeExpr],
        "index" => &[Shape::Expr, Shape::Expr],
        "tuple" | "array" => &[Shape::Exprs],
        "repeat" => &[Shape::Expr, Shape::Expr, Shape::ConstArg],
        "closure" => &[Shape::Params, Shape::MaybeType, Shape::Expr],
        _ => &[],
    }
}

fn pat_parts(word: &str) -> &'static [Shape] {
    match word {
        "bind" => &[Shape::Binding, Shape::MaybePat],
        "tuple" => &[Shape::Pats, Shape::Dots],
        "ctor" => &[Shape::VariantPath, Shape::Pats, Shape::Dots],
        "record" => &[Shape::VariantPath, Shape::FieldPats],
        "path" => &[Shape::Path],
        "lit" | "const" | "expr" => &[Shape::Expr],
        "range" => &[Shape::MaybeExpr, Shape::MaybeExpr],
        "slice" => &[Shape::Pats, Shape::MaybePat, Shape::Pats],
        "ref" => &[Shape::Mutability, Shape::Pat],
        "or" => &[Shape::Pats],
        "box" => &[Shape::Pat],
        _ => &[],
    }
}

fn path_parts(word: &str) -> &'static [Shape] {
    match word {
        "local" => &[Shape::Binding, Shape::Args],
        "fn" => &[Shape::Function, Shape::Args],
        "const" => &[Shape::Const, Shape::Args],
        "static" => &[Shape::Static, Shape::Args],
        "ctor" | "variant" => &[Shape::Variant, Shape::Args],
        "type" => &[Shape::Type],
        "typed" => &[Shape::Type, Shape::Text, Shape::Args],
        "trait" => &[Shape::Trait, Shape::Args, Shape::Text, Shape::Args],
        "implself" => &[Shape::Impl, Shape::Args],
        "constparam" => &[Shape::Number, Shape::Args],
        "unresolved" => &[Shape::Truth],
        _ => &[],
    }
}

fn literal_parts(word: &str) -> &'static [Shape] {
    match word {
        "bool" => &[Shape::Truth],
        "char" | "bytes" => &[Shape::Number],
        "int" => &[Shape::Text, Shape::MaybeInteger],
        "str" => &[Shape::Text],
        _ => &[],
    }
}

fn stmt_parts(word: &str) -> &'static [Shape] {
    match word {
        "let" => &[
            Shape::Pat,
            Shape::MaybeType,
            Shape::MaybeExpr,
            Shape::MaybeExpr,
        ],
        "expr" => &[Shape::Expr, Shape::Truth],
        _ => &[],
    }
}

/// The shape of a part behind the word of what has a word in front.
fn behind(parts: &'static [Shape], at: usize) -> Option<Shape> {
    parts.get(at.checked_sub(1)?).copied()
}

/// The shape of a part of a value of a shape.
fn part(shape: Shape, value: &Value, at: usize) -> Option<Shape> {
    let word = word(Some(value));
    let row: &'static [Shape] = match shape {
        Shape::Exprs => return Some(Shape::Expr),
        Shape::Pats => return Some(Shape::Pat),
        Shape::Args => return Some(Shape::Arg),
        Shape::Stmts => return Some(Shape::Stmt),
        Shape::Arms => return Some(Shape::Arm),
        Shape::Fields => return Some(Shape::Field),
        Shape::FieldPats => return Some(Shape::FieldPat),
        Shape::Params => return Some(Shape::Param),
        Shape::Literal => return behind(literal_parts(word), at),
        Shape::Path | Shape::VariantPath => return behind(path_parts(word), at),
        Shape::Stmt => return behind(stmt_parts(word), at),
        Shape::ConstArg => return behind(&[Shape::Number], at),
        Shape::Arg if word == "t" => return behind(&[Shape::Type], at),
        Shape::Arg => return behind(&[Shape::ConstArg], at),
        Shape::Arm => &[Shape::Pat, Shape::MaybeExpr, Shape::Expr],
        Shape::Field => &[Shape::Text, Shape::Expr],
        Shape::FieldPat => &[Shape::Text, Shape::Pat],
        Shape::Param => &[Shape::Pat, Shape::MaybeType],
        _ => return None,
    };
    row.get(at).copied()
}

/// What is wanted at some steps below an expression or a pattern; `None` at itself.
fn below(entry: &Value, parts: &'static [Shape], steps: &str) -> Option<&'static str> {
    let mut value = entry;
    let mut found: Option<Shape> = None;
    for step in steps.split('.') {
        let at = step.parse::<usize>().ok()?;
        let inner = match found {
            None => behind(parts, at)?,
            Some(shape) => part(shape, value, at)?,
        };
        found = Some(inner);
        value = value.get(at)?;
    }
    found.map(|shape| words(shape))
}

/// What is wanted at a path of keys and positions joined by points, where that leads below a node of a body.
pub fn wanted(facts: &Value, path: &str) -> Option<&'static str> {
    let (index, inside) = path.strip_prefix("bodies.")?.split_once('.')?;
    let (key, inside) = inside.split_once('.')?;
    let (node, steps) = inside.split_once('.')?;
    let body = list(facts, "bodies").get(index.parse::<usize>().ok()?)?;
    let entry = list(body, key).get(node.parse::<usize>().ok()?)?;
    let word = word(Some(entry));
    match key {
        "exprs" => below(entry, expr_parts(word), steps),
        "pats" => below(entry, pat_parts(word), steps),
        _ => None,
    }
}
