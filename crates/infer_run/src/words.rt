//! The words of the command.
ghost use Rattle.std.specs.Prelude.{◌≡◌, ◌<◌, ◌^◌, ◌↔◌, ◌∷◌, [], ℕ, map, codes, IfSome, IfNone, IsTrue};
ghost use Rattle.std.specs.Fmt.{decimal};
ghost use Rattle.std.specs.Rc.{rc_str_bytes};
ghost use Rattle.hir_types.specs.declared.ids.DefWithBodyId.{DefWithBodyId};
ghost use Rattle.infer_run.specs.Command.{kind_word, definition_number, IsNamed, IsCommand};
ghost use Rattle.infer_run.specs.Request.{IsAsked};
ghost use Rattle.infer_run.specs.declared.words.Request.{Request};

use hir_facts::{ConstId, DefWithBodyId, FunctionId, StaticId, VariantId};
use itoa::Buffer;
use std::rc::RcStr;

/// What words ask for.
#[derive(Clone, Copy, Debug)]
pub enum Request {
    /// The table of a definition.
    Table(DefWithBodyId),
    /// The tables for which the text asks.
    Session,
}

/// A number below 2 ^ 32 in decimal digits, without a sign or a leading zero.
fn number_of(word: &str) -> Option<u32>
    ensures some { IfSome result (λ n. word.now ≡ decimal n) }
    ensures none { IfNone result ((n : ℕ) → n < 2 ^ 32 → word.now ≡ decimal n → ⊥) }
{
    match word.parse::<u32>() {
        Err(_) => None,
        Ok(n) => {
            let mut buffer = Buffer::new();
            if buffer.format(n) == word {
                Some(n)
            } else {
                None
            }
        }
    }
}

/// The definition of this kind with this number.
fn definition(kind: &str, number: u32) -> Option<DefWithBodyId>
    ensures some { IfSome result (λ d. (kind.now ≡ kind_word d) × (definition_number d ≡ number)) }
    ensures none { IfNone result ((d : DefWithBodyId) → kind.now ≡ kind_word d → ⊥) }
{
    if kind == "fn" {
        Some(DefWithBodyId::FunctionId(FunctionId(number)))
    } else if kind == "const" {
        Some(DefWithBodyId::ConstId(ConstId(number)))
    } else if kind == "static" {
        Some(DefWithBodyId::StaticId(StaticId(number)))
    } else if kind == "variant" {
        Some(DefWithBodyId::VariantId(VariantId(number)))
    } else {
        None
    }
}

fn named(kind: &str, word: &str) -> Option<DefWithBodyId>
    ensures some { IfSome result (λ d. IsNamed kind.now word.now d) }
    ensures none { IfNone result ((d : DefWithBodyId) → IsNamed kind.now word.now d → ⊥) }
{
    match number_of(word) {
        None => None,
        Some(number) => definition(kind, number),
    }
}

/// The definition whose table the words ask for.
fn command(words: &[RcStr]) -> Option<DefWithBodyId>
    ensures some { IfSome result (λ d. IsCommand (map rc_str_bytes words.now) d) }
    ensures none { IfNone result ((d : DefWithBodyId) → IsCommand (map rc_str_bytes words.now) d → ⊥) }
{
    match words {
        [verb, kind, number] if verb.as_str() == "table" => {
            named(kind.as_str(), number.as_str())
        }
        _ => None,
    }
}

fn is_session(words: &[RcStr]) -> bool
    ensures { IsTrue result ↔ (map rc_str_bytes words.now ≡ codes "session" ∷ []) }
{
    match words {
        [verb] => verb.as_str() == "session",
        _ => false,
    }
}

/// What the words ask for.
pub fn asked(words: &[RcStr]) -> Option<Request>
    ensures some { IfSome result (λ r. IsAsked (map rc_str_bytes words.now) r) }
    ensures none { IfNone result ((r : Request) → IsAsked (map rc_str_bytes words.now) r → ⊥) }
{
    if is_session(words) {
        return Some(Request::Session);
    }
    match command(words) {
        Some(def) => Some(Request::Table(def)),
        None => None,
    }
}
