//! The types of a plain body before open holes fall back to anything.
ghost use Rattle.std.specs.Prelude.{IfOk};
ghost use Rattle.infer_end.specs.Own.{IsFull, HasAllTypes, AreResolved, HoldsResolved, KeepsGeneral};

use hir_facts::{DefWithBodyId, Facts, List, Ty, is_plain};
use infer_ctx::InferenceContext;
use infer_result::General;
use infer_table::InferenceTable;
use std::alloc::{AllocError, Global};

/// The types that are recorded, each with what is known of its holes.
fn resolve_each(
    alloc: Global,
    table: &InferenceTable,
    tys: &List<Option<Ty>>,
) -> Result<List<Ty>, AllocError>
    requires { IsFull tys.now }
    ensures { IfOk result (λ made. AreResolved table.now tys.now made) }
{
    let mut resolved = List::new(alloc);
    for ty in tys.as_slice() {
        let Some(ty) = ty else { unreachable!() };
        resolved.push(table.resolve(ty)?)?;
    }
    Ok(resolved)
}

/// The types of the body before open holes fall back. Each node has one by now.
fn general(alloc: Global, context: &InferenceContext) -> Result<General, AllocError>
    requires { HasAllTypes context.now.result }
    ensures { IfOk result (λ made. HoldsResolved context.now.goals.table context.now.result made) }
{
    let (table, result) = (&context.goals.table, &context.result);
    Ok(General {
        exprs: resolve_each(alloc, table, &result.type_of_expr)?,
        pats: resolve_each(alloc, table, &result.type_of_pat)?,
        bindings: resolve_each(alloc, table, &result.type_of_binding)?,
    })
}

/// Keeps the types before fallback (`InferenceResult::general`) exactly where the body of the
/// definition is plain.
pub fn keep_general(
    alloc: Global,
    context: &mut InferenceContext,
    facts: &Facts,
    def: DefWithBodyId,
) -> Result<(), AllocError>
    requires { HasAllTypes context.old.result }
    ensures { IfOk result (λ _. KeepsGeneral facts.now def context.old context.new) }
{
    context.result.general = if is_plain(facts, def) {
        Some(general(alloc, context)?)
    } else {
        None
    };
    Ok(())
}
