//! The table of a definition, for each command.
ghost use Rattle.std.specs.Prelude.{IfOk};
ghost use Rattle.hir_facts.specs.Bodies.{HasCarriedBody};
ghost use Rattle.infer_run.specs.Table.{IsPromised};

use hir_facts::{DefWithBodyId, Facts};
use infer_expr::{ToldList, infer_query_with_inspect};
use infer_result::InferenceResult;
use std::alloc::{AllocError, Global};

/// Infers a definition's table, with all that is promised of it. Its body is one that is carried.
pub fn infer(
    alloc: Global,
    facts: &Facts,
    def: DefWithBodyId,
) -> Result<InferenceResult, AllocError>
    requires { HasCarriedBody facts.now def }
    ensures { IfOk result (λ table. IsPromised facts.now def table) }
{
    infer_query_with_inspect::<ToldList>(alloc, facts, def, None)
}
