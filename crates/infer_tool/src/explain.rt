//! Why a text stands for no lawful facts, in a sentence that says what the text has.

use crate::laws::told_breach;
use crate::shape::told_shape;
use infer_text::ReadError;
use serde_json::{Error, Value};
use std::alloc::{AllocError, Global};
use std::str;

/// The most arrays and objects in one another.
const MOST_NESTED: usize = 127;

/// A byte's line and column, as `serde_json` counts them.
#[derive(Clone, Copy, PartialEq, Eq)]
struct Cursor {
    line: usize,
    column: usize,
}

impl Cursor {
    fn at_start() -> Cursor {
        Cursor { line: 1, column: 0 }
    }

    /// Where the byte after this one is.
    fn after(self, byte: u8) -> Cursor {
        if byte == b'\n' {
            Cursor {
                line: self.line.saturating_add(1),
                column: 0,
            }
        } else {
            Cursor {
                line: self.line,
                column: self.column.saturating_add(1),
            }
        }
    }

    /// Whether an error is at the byte that follows.
    fn is_before(self, error: &Error) -> bool {
        self.line == error.line() && self.column.saturating_add(1) == error.column()
    }
}

/// Whether the first byte that is no UTF-8 is where an error is.
fn is_no_text(bytes: &[u8], error: &Error) -> bool {
    match str::from_utf8(bytes) {
        Ok(_) => false,
        Err(e) => {
            let mut cursor = Cursor::at_start();
            for byte in bytes.iter().take(e.valid_up_to()) {
                cursor = cursor.after(*byte);
            }
            cursor.is_before(error)
        }
    }
}

/// Where a scan of JSON is.
#[derive(Clone, Copy)]
enum Scan {
    Open,
    Quoted,
    Escaped,
}

impl Scan {
    fn after(self, byte: u8) -> Scan {
        match (self, byte) {
            (Scan::Open, b'"') | (Scan::Escaped, _) => Scan::Quoted,
            (Scan::Quoted, b'\\') => Scan::Escaped,
            (Scan::Quoted, b'"') => Scan::Open,
            _ => self,
        }
    }
}

/// Whether an error is at or right after the opening of one array or object more than may nest.
fn is_too_deep(bytes: &[u8], error: &Error) -> bool {
    let mut cursor = Cursor::at_start();
    let mut scan = Scan::Open;
    let mut depth = 0usize;
    for byte in bytes {
        if let Scan::Open = scan {
            if matches!(*byte, b'[' | b'{') {
                depth = depth.saturating_add(1);
                if depth > MOST_NESTED {
                    return cursor.is_before(error) || cursor.after(*byte).is_before(error);
                }
            } else if matches!(*byte, b']' | b'}') {
                depth = depth.saturating_sub(1);
            }
        }
        scan = scan.after(*byte);
        cursor = cursor.after(*byte);
    }
    false
}

fn told_json(alloc: Global, bytes: &[u8], error: &Error) -> Result<Option<String>, AllocError> {
    let (line, column) = (error.line(), error.column());
    let told = if error.is_memory() {
        return Ok(None);
    } else if is_no_text(bytes, error) {
        format!(in alloc; "the text is not UTF-8 at line {line} column {column}")?
    } else if is_too_deep(bytes, error) {
        format!(in alloc;
            "the text nests more than {MOST_NESTED} arrays and objects at line {line} column {column}"
        )?
    } else {
        format!(in alloc; "the text is no JSON: {error}")?
    };
    Ok(Some(told))
}

fn told(
    alloc: Global,
    bytes: &[u8],
    fault: &ReadError,
    is_session: bool,
) -> Result<Option<String>, AllocError> {
    if matches!(fault, ReadError::OutOfMemory) {
        return Ok(None);
    }
    let value = match Value::from_slice(alloc, bytes) {
        Ok(value) => value,
        Err(error) => return told_json(alloc, bytes, &error),
    };
    match fault {
        ReadError::Json | ReadError::OutOfMemory => Ok(None),
        ReadError::Shape { path } => {
            let words = fault.to_string(alloc)?;
            told_shape(alloc, &value, path.as_str(), words.as_str(), is_session)
        }
        ReadError::Unlawful { law, list, index } => {
            let facts = if is_session {
                value.get("facts")
            } else {
                Some(&value)
            };
            match facts {
                None => Ok(None),
                Some(facts) => told_breach(alloc, facts, *law, *list, *index),
            }
        }
    }
}

/// Why these bytes, facts or the text of a session, stand for no lawful facts: what they have at the fault, or the
/// fault's own words.
pub fn explain(
    alloc: Global,
    bytes: &[u8],
    fault: &ReadError,
    is_session: bool,
) -> Result<String, AllocError> {
    match told(alloc, bytes, fault, is_session)? {
        Some(told) => Ok(told),
        None => fault.to_string(alloc),
    }
}
