//! Reading the text of a session: the facts, and the definitions whose tables are asked for.
ghost use Rattle.std.specs.Prelude.{List, Result};
ghost use Rattle.serde_json.specs.View.{view};
ghost use Rattle.infer_text.specs.Own.{kind_in, definition, definition_in, command_in, session_in, raw_session, facts_of, IsAsRead, Reads};

use super::fault::{Misread, ReadError};
use super::reader::{FromData, expect_keys, field_of, is, misshapen, part_of, tag_of};
use super::reading::{judge, read_raw};
use hir_facts::{ConstId, DefWithBodyId, Facts, FunctionId, List, RawFacts, StaticId, VariantId};
use serde_json::Value;
use std::alloc::Global;

/// The kinds of definitions that may have bodies.
#[derive(Clone, Copy, Debug)]
pub enum Kind {
    Fn,
    Const,
    Static,
    Variant,
}

#[tactic(auto, unfolding(crate::specs::Session::kind_in))]
impl FromData for Kind {
    ghost reads = { kind_in };

    fn from_data(alloc: Global, value: &Value) -> Result<Kind, Misread> {
        let Some(word) = value.as_str() else {
            return Err(misshapen(alloc));
        };
        if word == "fn" {
            Ok(Kind::Fn)
        } else if word == "const" {
            Ok(Kind::Const)
        } else if word == "static" {
            Ok(Kind::Static)
        } else if word == "variant" {
            Ok(Kind::Variant)
        } else {
            Err(misshapen(alloc))
        }
    }
}

#[tactic(auto, unfolding(crate::specs::Session::definition_in))]
fn definition_from(alloc: Global, value: &Value) -> Result<DefWithBodyId, Misread>
    ensures { IsAsRead result (definition_in (view value.now)) }
{
    let kind = part_of(alloc, value, 1)?;
    let number = part_of(alloc, value, 2)?;
    Ok(match kind {
        Kind::Fn => DefWithBodyId::FunctionId(FunctionId(number)),
        Kind::Const => DefWithBodyId::ConstId(ConstId(number)),
        Kind::Static => DefWithBodyId::StaticId(StaticId(number)),
        Kind::Variant => DefWithBodyId::VariantId(VariantId(number)),
    })
}

/// The definition whose table a command asks for.
#[tactic(auto, unfolding(crate::specs::Session::command_in))]
impl FromData for DefWithBodyId {
    ghost reads = { command_in };

    fn from_data(alloc: Global, value: &Value) -> Result<DefWithBodyId, Misread> {
        if is(tag_of(alloc, value)?, "table", 3) {
            definition_from(alloc, value)
        } else {
            Err(misshapen(alloc))
        }
    }
}

#[tactic(auto, unfolding(crate::specs::Session::session_in))]
impl FromData for (RawFacts, List<DefWithBodyId>) {
    ghost reads = { session_in };

    fn from_data(alloc: Global, value: &Value) -> Result<(RawFacts, List<DefWithBodyId>), Misread> {
        expect_keys(alloc, value, 2)?;
        let facts = field_of(alloc, value, "facts")?;
        let commands = field_of(alloc, value, "commands")?;
        Ok((facts, commands))
    }
}

/// The lawful facts of a session's text, and the definitions that its commands ask for, in their order:
/// docs/FORMAT.md. The error says why there are none, as that of `read_facts` does.
pub fn read_session(alloc: Global, text: &[u8]) -> Result<(Facts, List<DefWithBodyId>), ReadError>
    ensures { Reads facts_of result (raw_session text.now) }
{
    let (raw, commands): (RawFacts, List<DefWithBodyId>) = read_raw(alloc, text)?;
    Ok((judge(alloc, raw)?, commands))
}
