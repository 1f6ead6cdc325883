//! What the text has where another shape is wanted.

use serde_json::Value;
use serde_json::value::Map;
use std::alloc::{AllocError, Global};
use std::fmt;
use told_bodies::shapes;
use told_places::place::{Path, Quoted};

/// The most bytes of a value that are shown.
const MOST_SHOWN: usize = 60;

/// A part of the text by its path.
#[derive(Clone, Copy)]
struct At<'a>(&'a str);

impl fmt::Display for At<'_> {
    fn fmt<W: fmt::Write>(&self, f: &mut fmt::Formatter<W>) -> fmt::Result {
        if self.0.is_empty() {
            write!(f, "the whole text")
        } else {
            let path = Path(self.0);
            write!(f, "`{path}`")
        }
    }
}

fn is_number(step: &str) -> bool {
    step.bytes().all(|byte| byte.is_ascii_digit())
}

/// Whether a path behind a list's key is that of a field of an entry.
fn is_field(rest: &str) -> bool {
    match rest.split_once('.') {
        None => false,
        Some((_, inner)) => match inner.split_once('.') {
            Some(("fields", at)) => is_number(at),
            _ => false,
        },
    }
}

/// Whether an object that stands at a path has a key.
fn has_key(path: &str, is_session: bool, key: &str) -> bool {
    wanted_keys(path, is_session)
        .iter()
        .any(|wanted| *wanted == key)
}

/// The keys of the object that is wanted at a path; none where no object is.
fn wanted_keys(path: &str, is_session: bool) -> &'static [&'static str] {
    if !is_session {
        return wanted_of_facts(path);
    }
    match path {
        "" => &["facts", "commands"],
        "facts" => wanted_of_facts(""),
        _ => match path.strip_prefix("facts.") {
            Some(inner) => wanted_of_facts(inner),
            None => &[],
        },
    }
}

/// The same of facts.
fn wanted_of_facts(path: &str) -> &'static [&'static str] {
    if path.is_empty() {
        return &[
            "profile",
            "edition",
            "never_fallback",
            "new_range",
            "limits",
            "types",
            "modules",
            "adts",
            "variants",
            "fns",
            "consts",
            "statics",
            "traits",
            "aliases",
            "impls",
            "opaques",
            "lang",
            "bodies",
        ];
    }
    match path.split_once('.') {
        Some(("adts", rest)) if is_number(rest) => {
            &[
                "name", "kind", "params", "preds", "variants", "repr", "unsize",
            ]
        }
        Some(("variants", rest)) if is_number(rest) => &["adt", "name", "ctor", "fields", "body"],
        Some(("variants", rest)) if is_field(rest) => &["name", "type", "vis"],
        Some(("fns", rest)) if is_number(rest) => &[
            "name", "at", "params", "preds", "has_self", "inputs", "output", "safe", "vis", "body",
        ],
        Some(("traits", rest)) if is_number(rest) => &[
            "name", "params", "preds", "fns", "consts", "types", "auto",
        ],
        Some(("aliases", rest)) if is_number(rest) => &["name", "trait", "bounds"],
        Some(("impls", rest)) if is_number(rest) => &[
            "trait", "params", "preds", "self", "fns", "consts", "types",
        ],
        Some(("bodies", rest)) if is_number(rest) => &[
            "module", "traits", "self", "params", "root", "exprs", "pats", "bindings", "labels",
        ],
        _ => &[],
    }
}

/// The first key that an object lacks.
fn missing(object: &Map<String, Value>, path: &str, is_session: bool) -> Option<&'static str> {
    for key in wanted_keys(path, is_session) {
        if !object.contains_key(*key) {
            return Some(*key);
        }
    }
    None
}

/// The first key that an object has too much.
fn surplus<'a>(object: &'a Map<String, Value>, path: &str, is_session: bool) -> Option<Quoted<'a>> {
    for key in object.keys() {
        if !has_key(path, is_session, key.as_str()) {
            return Some(Quoted(key.as_str()));
        }
    }
    None
}

/// Which keys of an object are missing or too much.
fn told_keys(
    alloc: Global,
    path: &str,
    is_session: bool,
    object: &Map<String, Value>,
) -> Result<Option<String>, AllocError> {
    let at = At(path);
    let told = match (
        missing(object, path, is_session),
        surplus(object, path, is_session),
    ) {
        (None, None) => return Ok(None),
        (Some(lacks), None) => format!(in alloc; "{at} has no key `{lacks}`")?,
        (None, Some(more)) => format!(in alloc;
            "{at} has the key {more}, which is none of its keys"
        )?,
        (Some(lacks), Some(more)) => {
            format!(in alloc;
                "{at} has no key `{lacks}`, and has {more}, which is none of its keys"
            )?
        }
    };
    Ok(Some(told))
}

/// The value at a path of keys and positions joined by points.
fn value_at<'a>(root: &'a Value, path: &str) -> Option<&'a Value> {
    if path.is_empty() {
        return Some(root);
    }
    let mut value = root;
    for step in path.split('.') {
        value = match step.parse::<usize>() {
            Ok(at) => value.get(at)?,
            Err(_) => value.get(step)?,
        };
    }
    Some(value)
}

/// A value in words: itself where it is short.
fn shown(alloc: Global, value: &Value) -> Result<String, AllocError> {
    if value.is_object() {
        return String::from_str(alloc, "an object");
    }
    let text = value.to_string(alloc)?;
    match value.as_array() {
        _ if text.len() <= MOST_SHOWN => format!(in alloc; "`{text}`"),
        None => String::from_str(alloc, "a long text"),
        Some(items) => {
            let count = items.len();
            format!(in alloc; "a list of {count} entries")
        }
    }
}

/// What is wanted at a path, of the command's text alone.
fn told_wanted<'a>(path: &str, is_session: bool, wanted: &'a str) -> &'a str {
    match (path, is_session) {
        ("", true) => "an object with exactly the keys `facts` and `commands` is wanted",
        ("", false) => "an object with exactly the 18 keys of docs/FORMAT.md is wanted",
        _ => wanted,
    }
}

/// What is wanted at a path of a body, by what stands around it.
fn wanted_of_body(whole: &Value, path: &str, is_session: bool) -> Option<&'static str> {
    if !is_session {
        return shapes::wanted(whole, path);
    }
    match (whole.get("facts"), path.strip_prefix("facts.")) {
        (Some(facts), Some(inner)) => shapes::wanted(facts, inner),
        _ => None,
    }
}

/// What stands at a path where another shape is wanted, of which the fault's own words tell.
pub fn told_shape(
    alloc: Global,
    whole: &Value,
    path: &str,
    fault: &str,
    is_session: bool,
) -> Result<Option<String>, AllocError> {
    let Some(value) = value_at(whole, path) else {
        return Ok(None);
    };
    if let Some(object) = value.as_object()
        && let Some(told) = told_keys(alloc, path, is_session, object)?
    {
        return Ok(Some(told));
    }
    let at = At(path);
    let value = shown(alloc, value)?;
    if let Some(wanted) = wanted_of_body(whole, path, is_session) {
        let told = format!(in alloc; "{at} is {value}, and {wanted} is wanted")?;
        return Ok(Some(told));
    }
    match fault.split_once(" has another shape: ") {
        None => Ok(None),
        Some((_, wanted)) => {
            let wanted = told_wanted(path, is_session, wanted);
            let told = format!(in alloc; "{at} is {value}, and {wanted}")?;
            Ok(Some(told))
        }
    }
}
