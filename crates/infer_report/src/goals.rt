//! Goals as text.
ghost use Rattle.std.specs.Prelude.{◌≡◌, ◌++◌, OnOk, string_bytes};
ghost use Rattle.infer_report.specs.Words.{goal_text};

use super::types::{push_implements, push_projection, push_ty};
use hir_facts::{Goal, RawFacts};
use std::alloc::AllocError;

/// Writes a goal: traits and associated types by their names in the facts. What is out of range is
/// `{unknown}`.
#[tactic(auto, unfolding(crate::specs::Words::goal_text))]
pub fn push_goal(out: &mut String, facts: &RawFacts, goal: &Goal) -> Result<(), AllocError>
    ensures { OnOk result (string_bytes out.new ≡ string_bytes out.old ++ goal_text facts.now goal.now) }
{
    match goal {
        Goal::Trait(bound) => {
            let item = facts.traits.get(bound.id.0 as usize);
            push_implements(out, facts, ": ", item, bound.args.as_slice())
        }
        Goal::Projection { alias, args, ty } => {
            push_projection(out, facts, *alias, args.as_slice())?;
            out.push_str(" == ")?;
            push_ty(out, facts, ty)
        }
    }
}
