//! What is wrong with the words of the command, and what was meant.

use hir_facts::Facts;
use std::alloc::{AllocError, Global};
use std::rc::RcStr;
use told_places::place::Counted;

const KINDS: &str = "fn, const, static or variant";

/// The words that were meant by a first word.
fn meant_command(word: &str) -> Option<&'static str> {
    match word {
        "-h" | "-help" | "help" | "-?" | "?" | "usage" | "--usage" => Some("--help"),
        "-V" | "-v" | "-version" | "version" => Some("--version"),
        "Table" | "TABLE" | "tables" | "-table" | "--table" => Some("table"),
        "Session" | "SESSION" | "sessions" | "-session" | "--session" => Some("session"),
        "fn" => Some("table fn"),
        "const" => Some("table const"),
        "static" => Some("table static"),
        "variant" => Some("table variant"),
        _ => None,
    }
}

/// The kind that was meant by a word.
fn meant_kind(word: &str) -> Option<&'static str> {
    match word {
        "f" | "Fn" | "FN" | "fns" | "fun" | "func" | "funcs" | "function" | "functions" => {
            Some("fn")
        }
        "c" | "Const" | "CONST" | "consts" | "constant" | "constants" => Some("const"),
        "s" | "Static" | "STATIC" | "statics" => Some("static"),
        "v" | "Variant" | "VARIANT" | "variants" | "ctor" => Some("variant"),
        _ => None,
    }
}

fn is_kind(word: &str) -> bool {
    matches!(word, "fn" | "const" | "static" | "variant")
}

fn is_digits(word: &str) -> bool {
    !word.is_empty() && word.bytes().all(|byte| byte.is_ascii_digit())
}

fn told_first(alloc: Global, word: &str) -> Result<String, AllocError> {
    match meant_command(word) {
        Some(meant) => format!(in alloc; "`{word}` is no command: did you mean `{meant}`?"),
        None => format!(in alloc; "`{word}` is no command: `table` or `session` is wanted"),
    }
}

fn told_kind(alloc: Global, word: &str) -> Result<String, AllocError> {
    match meant_kind(word) {
        Some(meant) => format!(in alloc; "`{word}` is no kind: did you mean `{meant}`?"),
        None => format!(in alloc; "`{word}` is no kind: {KINDS} is wanted"),
    }
}

fn told_number(alloc: Global, word: &str) -> Result<String, AllocError> {
    match word.parse::<u32>() {
        Ok(meant) => format!(in alloc;
            "`{word}` is not written as numbers are here: did you mean `{meant}`?"
        ),
        Err(_) if is_digits(word) => {
            format!(in alloc; "`{word}` is too large: numbers are below 2^32")
        }
        Err(_) => format!(in alloc; "`{word}` is no number in decimal digits"),
    }
}

/// Which of the words is wrong, of words that are no command.
fn told(alloc: Global, words: &[RcStr]) -> Result<String, AllocError> {
    match words {
        [] => String::from_str(alloc, "the command is missing: table KIND N, or session"),
        [first, second, ..] if matches!(first.as_str(), "--help" | "--version" | "session") => {
            let (first, second) = (first.as_str(), second.as_str());
            format!(in alloc; "`{second}` is too much: `{first}` stands alone")
        }
        [first, ..] if first.as_str() != "table" => told_first(alloc, first.as_str()),
        [_] => format!(in alloc; "the kind is missing after `table`: {KINDS}"),
        [_, kind, ..] if !is_kind(kind.as_str()) => told_kind(alloc, kind.as_str()),
        [_, kind] => {
            let kind = kind.as_str();
            format!(in alloc; "the number is missing after `table {kind}`")
        }
        [_, kind, number, more, ..] => {
            let (kind, number, more) = (kind.as_str(), number.as_str(), more.as_str());
            format!(in alloc; "`{more}` is too much after `table {kind} {number}`")
        }
        [_, _, number] => told_number(alloc, number.as_str()),
    }
}

/// Which of the words is wrong, of words that are no command, and where help is.
pub fn told_words(alloc: Global, words: &[RcStr]) -> Result<String, AllocError> {
    let told = told(alloc, words)?;
    format!(in alloc; "{told} (infer_tool --help says more)")
}

/// Why the definition that the words name has no table: there is none, or it has no body.
pub fn told_definition(
    alloc: Global,
    words: &[RcStr],
    facts: &Facts,
) -> Result<Option<String>, AllocError> {
    let [_, kind, number] = words else {
        return Ok(None);
    };
    let (kind, number) = (kind.as_str(), number.as_str());
    let raw = facts.raw();
    let count = match kind {
        "fn" => raw.fns.len(),
        "const" => raw.consts.len(),
        "static" => raw.statics.len(),
        _ => raw.variants.len(),
    };
    let told = match number.parse::<usize>() {
        Ok(at) if at < count => format!(in alloc; "{kind} {number} has no body")?,
        _ => {
            let counted = Counted(count, kind);
            format!(in alloc;
                "there is no {kind} {number}: the facts have {counted}, and numbers count from 0"
            )?
        }
    };
    Ok(Some(told))
}
