//! Whether a type can stand in the body of a definition.
ghost use Rattle.std.specs.Prelude.{◌≡◌, ◌↔◌, IfOk, IsTrue};
ghost use Rattle.infer_result.specs.Words.{params_of, scope_of};
ghost use Rattle.infer_result.specs.Own.{IsInHand};

use crate::made::is_read_type;
use goal_terms::type_term;
use hir_facts::{DefWithBodyId, Facts, GenericDefId, RawFacts, Ty};
use hir_raw::{generic_params, has_associated};
use infer_table::InferenceTable;
use std::alloc::{AllocError, Global};

/// How many parameters are in scope in the body of a definition.
fn params_in_body(facts: &RawFacts, owner: DefWithBodyId) -> usize
    ensures { result ≡ params_of facts.now owner }
{
    match owner {
        DefWithBodyId::FunctionId(function) => {
            generic_params(facts, GenericDefId::FunctionId(function))
        }
        _ => 0,
    }
}

/// Whether a type can be written in the scope of the body, or holds associated types that stay where these may be types, over holes that
/// the table made.
pub fn is_in_hand(
    alloc: Global,
    table: &InferenceTable,
    facts: &Facts,
    owner: DefWithBodyId,
    ty: &Ty,
) -> Result<bool, AllocError>
    ensures { IfOk result (λ yes. IsTrue yes ↔ IsInHand (scope_of facts.now owner) table.now ty.now) }
{
    let term = type_term(alloc, ty)?;
    let raw = facts.raw();
    let params = params_in_body(raw, owner);
    let associated = has_associated(raw, owner);
    if !is_read_type(raw, params, associated, &term) {
        return Ok(false);
    }
    table.has_made(ty)
}
