//! Whether what an associated type is could have been read.
ghost use Rattle.std.specs.Prelude.{◌↔◌, IsTrue, IfOk};
ghost use Rattle.infer_needs.specs.Words.{scope_of, system, asked_goal, IsReadable};
ghost use Rattle.infer_needs.specs.Own.{IsKnownIf};

use crate::unknown::args_hold_unknown;
use goal_facts::ItemSources;
use hir_facts::{DefWithBodyId, Goal, Ty};
use infer_result::is_in_hand;
use infer_table::InferenceTable;
use std::alloc::{AllocError, Global};

/// Whether a type that is written with associated types reads as one that can stand in the body of a definition.
fn is_known(
    alloc: Global,
    sources: &ItemSources<'_>,
    def: DefWithBodyId,
    ty: &Ty,
) -> Result<bool, AllocError>
    ensures { IfOk result (λ yes. IsKnownIf (scope_of sources.now.facts def) (system sources.now.sources) sources.now.facts.limits.goal_depth ty.now yes) }
{
    let Some(read) = sources.read_ty(alloc, ty)? else {
        return Ok(false);
    };
    let table = InferenceTable::new(alloc)?;
    is_in_hand(alloc, &table, sources.facts(), def, &read)
}

/// Whether a goal is about an associated type in whose arguments no `{unknown}` stands, and what this reads as can
/// stand in the body of a definition.
pub fn is_readable(
    alloc: Global,
    sources: &ItemSources<'_>,
    def: DefWithBodyId,
    goal: &Goal,
) -> Result<bool, AllocError>
    ensures { IfOk result (λ yes. IsTrue yes ↔ IsReadable (scope_of sources.now.facts def) (system sources.now.sources) sources.now.facts.limits.goal_depth (asked_goal goal.now)) }
{
    match goal.dup(alloc)? {
        Goal::Trait(_trait_ref) => Ok(false),
        Goal::Projection {
            alias,
            args,
            ty: _ty,
        } => {
            if args_hold_unknown(alloc, &args)? {
                return Ok(false);
            }
            is_known(alloc, sources, def, &Ty::Projection(alias, args))
        }
    }
}
