//! Looking at parts of the facts text again. What is not there, or of another shape, is passed over.

use serde_json::Value;

/// The items of a list.
pub fn items(value: Option<&Value>) -> &[Value] {
    match value {
        Some(Value::Array(items)) => items.as_slice(),
        _ => &[],
    }
}

/// The items of the list under a key.
pub fn list<'a>(value: &'a Value, key: &str) -> &'a [Value] {
    items(value.get(key))
}

/// The word that a value is or begins with.
pub fn word(value: Option<&Value>) -> &str {
    match value {
        Some(Value::String(word)) => word.as_str(),
        Some(Value::Array(parts)) => match parts.first() {
            Some(Value::String(word)) => word.as_str(),
            _ => "",
        },
        _ => "",
    }
}

/// A whole number from 0.
pub fn number(value: Option<&Value>) -> Option<usize> {
    Some(value?.as_u64()? as usize)
}

/// Whether something stands there, and not `null`.
pub fn is_there(value: Option<&Value>) -> bool {
    match value {
        Some(value) => !value.is_null(),
        None => false,
    }
}

/// The parts of a written type, as they stand in it.
pub fn type_parts(ty: &Value) -> &[Value] {
    match word(Some(ty)) {
        "tuple" => items(ty.get(1usize)),
        "adt" | "proj" => items(ty.get(2usize)),
        _ => &[],
    }
}

/// The id of the type that a part is, which stands alone or in an argument.
pub fn type_id(part: &Value) -> Option<&Value> {
    match part {
        Value::Array(argument) => argument.get(1),
        _ => Some(part),
    }
}
