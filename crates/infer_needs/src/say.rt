//! What could not be shown at a node is said once.
ghost use Rattle.std.specs.Prelude.{◌≡◌, ◌↔◌, IsTrue, IfOk, OnOk};
ghost use Rattle.infer_needs.specs.Words.{gap_says};
ghost use Rattle.infer_needs.specs.Own.{IsAmong, IsSaidOnce};

use goal_facts::{asked, is_same};
use hir_facts::List;
use infer_result::Gap;
use std::alloc::{AllocError, Global};

/// Whether the two say the same.
fn is_same_gap(alloc: Global, left: &Gap, right: &Gap) -> Result<bool, AllocError>
    ensures { IfOk result (λ is. IsTrue is ↔ (gap_says left.now ≡ gap_says right.now)) }
{
    match left {
        Gap::Unproved { node: _, goal } => match right {
            Gap::Unproved {
                node: _,
                goal: other,
            } => {
                let goal = asked(alloc, goal)?;
                let other = asked(alloc, other)?;
                Ok(is_same(&goal, &other))
            }
            Gap::Clash { .. } => Ok(false),
        },
        Gap::Clash {
            node: _,
            alias,
            first: _,
            second,
        } => match right {
            Gap::Clash {
                node: _,
                alias: other,
                first: _,
                second: ty,
            } => { Ok(alias.is_same(other) && second.is_same(ty)) }
            Gap::Unproved { .. } => Ok(false),
        },
    }
}

/// Whether one of these says the same.
fn is_said(alloc: Global, gaps: &[Gap], gap: &Gap) -> Result<bool, AllocError>
    ensures { IfOk result (λ is. IsTrue is ↔ IsAmong gaps.now (gap_says gap.now)) }
{
    for said in gaps {
        if is_same_gap(alloc, said, gap)? {
            return Ok(true);
        }
    }
    Ok(false)
}

/// Adds what could not be shown, where it isn't said yet.
pub fn say(alloc: Global, gap: Gap, gaps: &mut List<Gap>) -> Result<(), AllocError>
    ensures { OnOk result (IsSaidOnce gap gaps.old gaps.new) }
{
    if is_said(alloc, gaps.as_slice(), &gap)? {
        return Ok(());
    }
    gaps.push(gap)?;
    Ok(())
}
