//! Law 8: literals without a value, names of fields, `..` past the end, and places as patterns where nothing is assigned.

use hir_facts::FactsList;
use serde_json::Value;
use std::alloc::{AllocError, Global};
use std::fmt;
use told_places::look::{items, list, number, word};
use told_places::nodes::{Node, Nodes};
use told_places::place::{Counted, Place, Quoted};

/// What is wrong with a literal or the name of a field.
#[derive(Clone, Copy)]
pub enum WrongValue<'a> {
    /// A field of a tuple has its number as its name.
    Numbered { name: Quoted<'a>, at: usize },
    /// Two fields have one name.
    Twice { name: Quoted<'a>, first: usize },
    /// An integer is decimal digits.
    Digits(Quoted<'a>),
    /// An integer is below 2^128.
    Large(Quoted<'a>),
    /// A minus stands under patterns alone.
    Minus(Quoted<'a>),
    /// A character is a scalar value.
    Char(usize),
    /// A pattern that is a literal is an expression that is one.
    Expr(usize),
    /// `..` comes after no more patterns than there are.
    Dots { dots: usize, count: usize },
    /// A pattern that is a place is assigned to.
    Place,
}

impl fmt::Display for WrongValue<'_> {
    fn fmt<W: fmt::Write>(&self, f: &mut fmt::Formatter<W>) -> fmt::Result {
        match self {
            WrongValue::Numbered { name, at } => {
                write!(f, "the field of a tuple is named {name}, and not `{at}`")
            }
            WrongValue::Twice { name, first } => {
                write!(f, "the field is named {name}, as field {first} is")
            }
            WrongValue::Digits(digits) => write!(f, "{digits} is no number in decimal digits"),
            WrongValue::Large(digits) => write!(f, "{digits} is not below 2^128"),
            WrongValue::Minus(digits) => {
                write!(f, "{digits} has a minus, and is the literal of no pattern")
            }
            WrongValue::Char(code) => write!(f, "{code} is no Unicode scalar value"),
            WrongValue::Expr(expr) => write!(f, "expression {expr} is no literal"),
            WrongValue::Dots { dots, count } => {
                let dots = Counted(*dots, "pattern");
                write!(f, "`..` comes after {dots}, and the list has {count}")
            }
            WrongValue::Place => write!(
                f,
                "the pattern is a place, and stands in no target of an assignment"
            ),
        }
    }
}

fn name_of(field: &Value) -> &str {
    word(field.get("name"))
}

fn is_numbered(alloc: Global, name: &str, at: usize) -> Result<bool, AllocError> {
    let number = at.to_string(alloc)?;
    Ok(number.as_str() == name)
}

fn of_tuple(
    alloc: Global,
    place: Place,
    fields: &[Value],
) -> Result<Option<(Place, WrongValue<'_>)>, AllocError> {
    for (at, field) in fields.iter().enumerate() {
        let name = name_of(field);
        if !is_numbered(alloc, name, at)? {
            let name = Quoted(name);
            let wrong = WrongValue::Numbered { name, at };
            return Ok(Some((place.item("fields", at), wrong)));
        }
    }
    Ok(None)
}

fn of_names(place: Place, fields: &[Value]) -> Option<(Place, WrongValue<'_>)> {
    for (at, field) in fields.iter().enumerate() {
        let name = name_of(field);
        for (first, before) in fields.iter().take(at).enumerate() {
            if name_of(before) == name {
                let name = Quoted(name);
                let wrong = WrongValue::Twice { name, first };
                return Some((place.item("fields", at), wrong));
            }
        }
    }
    None
}

/// What is wrong with an integer, which may have a minus where a pattern is the literal.
fn of_integer(text: &str, is_pattern: bool) -> Option<WrongValue<'_>> {
    let digits = text.strip_prefix('-').unwrap_or(text);
    if digits.is_empty() || !digits.bytes().all(|byte| byte.is_ascii_digit()) {
        Some(WrongValue::Digits(Quoted(text)))
    } else if digits.parse::<u128>().is_err() {
        Some(WrongValue::Large(Quoted(text)))
    } else if digits.len() < text.len() && !is_pattern {
        Some(WrongValue::Minus(Quoted(text)))
    } else {
        None
    }
}

fn of_char(code: Option<&Value>) -> Option<WrongValue<'_>> {
    let code = number(code)?;
    match u32::try_from(code) {
        Ok(scalar) if char::from_u32(scalar).is_some() => None,
        _ => Some(WrongValue::Char(code)),
    }
}

fn of_expr(expr: &Value, is_pattern: bool) -> Option<WrongValue<'_>> {
    let literal = expr.get(1usize)?;
    if word(Some(expr)) != "lit" {
        return None;
    }
    match word(Some(literal)) {
        "int" => of_integer(literal.get(1usize)?.as_str()?, is_pattern),
        "char" => of_char(literal.get(1usize)),
        _ => None,
    }
}

fn mark(marks: &mut [bool], value: Option<&Value>) {
    if let Some(at) = number(value)
        && at < marks.len()
    {
        marks[at] = true;
    }
}

/// Which expressions are the literals of patterns, or ends of ranges that are patterns.
fn patterns_of(alloc: Global, body: &Value) -> Result<Vec<bool>, AllocError> {
    let mut patterns = vec![in alloc; false; list(body, "exprs").len()]?;
    for pat in list(body, "pats") {
        match word(Some(pat)) {
            "lit" => mark(&mut patterns, pat.get(1usize)),
            "range" => {
                mark(&mut patterns, pat.get(1usize));
                mark(&mut patterns, pat.get(2usize));
            }
            _ => {}
        }
    }
    Ok(patterns)
}

/// Which patterns are targets of assignments, or parts of such by patterns alone.
fn targets_of(alloc: Global, nodes: Nodes<'_>) -> Result<Vec<bool>, AllocError> {
    let mut targets = vec![in alloc; false; nodes.pats.len()]?;
    for expr in nodes.exprs {
        if word(Some(expr)) == "assign" {
            mark(&mut targets, expr.get(1usize));
        }
    }
    for step in nodes.walk(alloc)? {
        if let Node::Pat(pat) = step.node
            && targets.get(pat).copied().unwrap_or(false)
        {
            for part in nodes.parts(alloc, step.node)? {
                if let Node::Pat(inner) = part
                    && inner < targets.len()
                {
                    targets[inner] = true;
                }
            }
        }
    }
    Ok(targets)
}

/// The first pattern that is a place, and not assigned to.
fn of_places(
    alloc: Global,
    place: Place,
    body: &Value,
) -> Result<Option<(Place, WrongValue<'_>)>, AllocError> {
    let nodes = Nodes::of(body);
    let targets = targets_of(alloc, nodes)?;
    for (at, pat) in nodes.pats.iter().enumerate() {
        if word(Some(pat)) == "expr" && !targets.get(at).copied().unwrap_or(false) {
            return Ok(Some((place.item("pats", at), WrongValue::Place)));
        }
    }
    Ok(None)
}

/// What is wrong with `..` after so many patterns of a list.
fn of_dots(dots: Option<&Value>, pats: Option<&Value>) -> Option<WrongValue<'static>> {
    let dots = number(dots)?;
    let count = items(pats).len();
    if dots <= count {
        None
    } else {
        Some(WrongValue::Dots { dots, count })
    }
}

/// What is wrong with a pattern alone.
fn of_pat<'a>(exprs: &[Value], pat: &'a Value) -> Option<WrongValue<'a>> {
    match word(Some(pat)) {
        "tuple" => of_dots(pat.get(2usize), pat.get(1usize)),
        "ctor" => of_dots(pat.get(3usize), pat.get(2usize)),
        "lit" => {
            let expr = number(pat.get(1usize))?;
            if word(exprs.get(expr)) == "lit" {
                None
            } else {
                Some(WrongValue::Expr(expr))
            }
        }
        _ => None,
    }
}

/// The first pattern that is wrong alone.
fn of_pats(place: Place, body: &Value) -> Option<(Place, WrongValue<'_>)> {
    let exprs = list(body, "exprs");
    for (at, pat) in list(body, "pats").iter().enumerate() {
        if let Some(wrong) = of_pat(exprs, pat) {
            return Some((place.item("pats", at), wrong));
        }
    }
    None
}

fn of_body(
    alloc: Global,
    place: Place,
    body: &Value,
) -> Result<Option<(Place, WrongValue<'_>)>, AllocError> {
    let patterns = patterns_of(alloc, body)?;
    for (at, expr) in list(body, "exprs").iter().enumerate() {
        let is_pattern = patterns.get(at).copied().unwrap_or(false);
        if let Some(wrong) = of_expr(expr, is_pattern) {
            return Ok(Some((place.item("exprs", at), wrong)));
        }
    }
    match of_pats(place, body) {
        Some(found) => Ok(Some(found)),
        None => of_places(alloc, place, body),
    }
}

/// The literal or name of the entry that is wrong.
pub fn find(
    alloc: Global,
    list_of: FactsList,
    index: usize,
    entry: &Value,
) -> Result<Option<(Place, WrongValue<'_>)>, AllocError> {
    let place = Place::new(list_of, index);
    match list_of {
        FactsList::Variants if word(entry.get("ctor")) == "tuple" => {
            of_tuple(alloc, place, list(entry, "fields"))
        }
        FactsList::Variants => Ok(of_names(place, list(entry, "fields"))),
        FactsList::Bodies => of_body(alloc, place, entry),
        _ => Ok(None),
    }
}
