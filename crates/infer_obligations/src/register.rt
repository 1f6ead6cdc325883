//! What a node needs, registered: `infer/path.rs`, `add_required_obligations_for_value_path`.
ghost use Rattle.std.specs.Prelude.{◌≡◌, ◌<◌, length, map, slice_get, Some, OnOk};
ghost use Rattle.infer_obligations.specs.Words.{RawExpr, HolesAreOf, Each, asked_goal, system, GoalIsOf, AreKept, HasAllOpen, needed_goals};
ghost use Rattle.infer_obligations.specs.Own.{asked_for, Registers};

use hir_facts::{ExprId, ExprOrPatId, Goal, Ty};
use infer_ctx::GivenBody;
use infer_goals::GoalTable;
use infer_result::needed_goals;
use std::alloc::{AllocError, Global};

/// Registers these goals, which an expression needs, in their order.
pub fn register_each(
    goals: &mut GoalTable<'_>,
    needed: Vec<Goal>,
    expr: ExprId,
) -> Result<(), AllocError>
    requires goals { Each (GoalIsOf goals.old.table) needed.items }
    requires kept { AreKept goals.old.sources.facts (system goals.old.sources.sources) goals.old.table goals.old.obligations }
    requires all { HasAllOpen (system goals.old.sources.sources) goals.old.table goals.old.obligations }
    ensures kept { OnOk result (AreKept goals.new.sources.facts (system goals.new.sources.sources) goals.new.table goals.new.obligations) }
    ensures all { OnOk result (HasAllOpen (system goals.new.sources.sources) goals.new.table goals.new.obligations) }
    ensures registers { OnOk result (Registers goals.old.sources.facts (asked_for expr.0 (map asked_goal needed.items)) goals.old.obligations goals.new.obligations) }
    ensures table { goals.new.table ≡ goals.old.table }
    ensures bounded { goals.new.bounded ≡ goals.old.bounded }
    ensures sources { goals.new.sources ≡ goals.old.sources }
{
    for goal in needed {
        goals.register_obligation(goal, ExprOrPatId::ExprId(expr))?;
    }
    Ok(())
}

/// Registers what an expression needs that has this type: each predicate of the item that it is a path to, once, and
/// of other expressions nothing.
pub fn register_needs(
    alloc: Global,
    goals: &mut GoalTable<'_>,
    given: &GivenBody,
    tgt_expr: ExprId,
    ty: &Ty,
) -> Result<(), AllocError>
    requires holes { HolesAreOf goals.old.table ty.now }
    requires kept { AreKept goals.old.sources.facts (system goals.old.sources.sources) goals.old.table goals.old.obligations }
    requires all { HasAllOpen (system goals.old.sources.sources) goals.old.table goals.old.obligations }
    requires within { tgt_expr.0 < length given.now.body.now.exprs }
    ensures kept { OnOk result (AreKept goals.new.sources.facts (system goals.new.sources.sources) goals.new.table goals.new.obligations) }
    ensures all { OnOk result (HasAllOpen (system goals.new.sources.sources) goals.new.table goals.new.obligations) }
    ensures registers { (x : RawExpr) → slice_get given.now.body.now.exprs tgt_expr.0 ≡ Some x → OnOk result (Registers goals.old.sources.facts (asked_for tgt_expr.0 (needed_goals given.now.facts.now x ty.now)) goals.old.obligations goals.new.obligations) }
    ensures table { goals.new.table ≡ goals.old.table }
    ensures bounded { goals.new.bounded ≡ goals.old.bounded }
    ensures sources { goals.new.sources ≡ goals.old.sources }
{
    let expr = &given.body.exprs.as_slice()[tgt_expr.0 as usize];
    let needed = needed_goals(alloc, given.facts, expr, ty)?;
    register_each(goals, needed, tgt_expr)?;
    Ok(())
}
