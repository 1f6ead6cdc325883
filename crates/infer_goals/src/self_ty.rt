//! Goals whose self type is a hole: `infer/unify.rs`, `NestedObligationsForSelfTy`.
ghost use Rattle.std.specs.Prelude.{◌≡◌, ◌↔◌, ◌+◌, ◌≤◌, ◌<◌, length, IfOk, OnOk, IsTrue};
ghost use Rattle.infer_goals.specs.Words.{system, IsTree};
ghost use Rattle.infer_goals.specs.Own.{IsHole, IsAbout, IsListedIfAbout, children, HasChildren, Adds, AreListed, IsListedPending, AreOfAll};

use crate::obligations::Obligations;
use goal_facts::{Answer, GenericArg, Goal, ItemSources, TraitRef, Ty};
use goal_tree::Standing;
use infer_table::InferenceTable;
use std::alloc::AllocError;

/// How many levels of the tree of goals are looked at, the pending goals being the first.
const LEVELS: u32 = 5;

fn is_hole(ty: &Ty) -> bool
    ensures { IsTrue result ↔ IsHole ty.now }
{
    matches!(ty, Ty::Var(_) | Ty::IntVar(_))
}

/// Whether the self type of the goal is this hole.
fn is_about(goal: &Goal, hole: &Ty) -> bool
    ensures { IsTrue result ↔ IsAbout hole.now goal.now }
{
    let (Goal::Trait(TraitRef { args, .. }) | Goal::Projection { args, .. }) = goal;
    match args.get(0) {
        Some(GenericArg::Ty(first)) => is_hole(first) && first.is_same(hole),
        Some(GenericArg::Const(_)) | None => false,
    }
}

/// Adds the goal where its self type is this hole.
fn add_if_about(goal: Goal, hole: &Ty, found: &mut Vec<Goal>) -> Result<(), AllocError>
    ensures { OnOk result (Adds (IsListedIfAbout hole.now goal) found.old.items found.new.items) }
{
    if !is_about(&goal, hole) {
        return Ok(());
    }
    found.push(goal)?;
    Ok(())
}

/// The number of the first obligation that the source of one asks for, and how many it asks for.
fn children(standing: &Standing) -> (usize, usize)
    ensures { result ≡ children standing.now }
{
    match standing {
        Standing::Open => (0, 0),
        Standing::Selected { first, count, .. } | Standing::Proved { first, count, .. } => {
            (*first, *count)
        }
    }
}

impl Obligations {
    /// The children of the obligation of this number.
    fn below(&self, at: usize) -> (usize, usize)
        requires tree { IsTree self.now.tree }
        requires at { at < length self.now.tree.obligations.items }
        ensures below { HasChildren self.now.tree.standings.items at result }
        ensures within { result.0 + result.1 ≤ length self.now.tree.obligations.items }
    {
        children(self.tree.standing(at))
    }

    /// Adds the goal of the obligation of this number where it is about the hole, and those below it, down
    /// to so many levels. What is answered Yes does not count, nor what is below it.
    fn add_listed(
        &self,
        sources: &ItemSources<'_>,
        table: &InferenceTable,
        hole: &Ty,
        at: usize,
        levels: u32,
        found: &mut Vec<Goal>,
    ) -> Result<(), AllocError>
        requires tree { IsTree self.now.tree }
        requires at { at < length self.now.tree.obligations.items }
        ensures { OnOk result (Adds (AreListed (system sources.now.sources) sources.now.facts.limits.goal_depth table.now hole.now self.now.tree levels at) found.old.items found.new.items) }
    {
        let Some(below) = levels.checked_sub(1) else {
            return Ok(());
        };
        let goal = table.resolve(&self.tree.obligation(at).goal)?;
        let (first, count) = self.below(at);
        let answer = sources.evaluate(self.alloc, &goal)?;
        if let Answer::Yes = answer {
            return Ok(());
        }
        add_if_about(goal, hole, found)?;
        let end = first + count;
        for child in first..end {
            self.add_listed(sources, table, hole, child, below, found)?;
        }
        Ok(())
    }

    /// Adds what the obligation of this number lists, where it is pending.
    fn add_pending(
        &self,
        sources: &ItemSources<'_>,
        table: &InferenceTable,
        hole: &Ty,
        at: usize,
        found: &mut Vec<Goal>,
    ) -> Result<(), AllocError>
        requires tree { IsTree self.now.tree }
        requires at { at < length self.now.tree.obligations.items }
        ensures { OnOk result (Adds (IsListedPending (system sources.now.sources) sources.now.facts.limits.goal_depth table.now hole.now self.now.tree at) found.old.items found.new.items) }
    {
        let standing = self.tree.standing(at);
        if !self.tree.obligation(at).is_pending(standing) {
            return Ok(());
        }
        self.add_listed(sources, table, hole, at, LEVELS, found)?;
        Ok(())
    }

    /// The goals about the hole among the pending ones and those below them, in order, without those that
    /// are answered Yes and what is below these.
    pub(crate) fn about(
        &self,
        sources: &ItemSources<'_>,
        table: &InferenceTable,
        hole: &Ty,
    ) -> Result<Vec<Goal>, AllocError>
        requires { IsTree self.now.tree }
        ensures { IfOk result (λ found. AreOfAll (IsListedPending (system sources.now.sources) sources.now.facts.limits.goal_depth table.now hole.now self.now.tree) 0 (length self.now.tree.obligations.items) found.items) }
    {
        let mut found = Vec::new(self.alloc);
        for at in 0..self.tree.len() {
            self.add_pending(sources, table, hole, at, &mut found)?;
        }
        Ok(found)
    }
}
