//! What is asked of the search.
ghost use Rattle.std.specs.Prelude.{◌≡◌, IfOk, option_map};
ghost use Rattle.goal_prove.specs.Words.{Goal, key, IsKnown, IsItself, IsNeverItself, answers, known_below, HoldsIf, term_of, log_of, fill_of, kind_of, rule_of, asked_of, asked_list, system, Decides, IsDone, IsLevelBelow, RuleHasHeads, SystemHasHeads, asked_goal};
ghost use Rattle.goal_prove.specs.Own.{CopiesAre};

use goal_facts::ItemSources;
use goal_search::{Answer, Asked, Copies, Kind, Rule, Search, Side, Sources};
use goal_terms::{Binding, Term};
use hir_facts::Goal;
use std::alloc::{AllocError, Global};

/// A search among the sources.
pub fn search_of<'a>(alloc: Global, sources: &'a ItemSources<'_>) -> Result<Search<'a>, AllocError>
    ensures { IfOk result (λ made. made ≡ sources.now.sources) }
{
    Ok(sources.search(alloc))
}

/// The sources.
pub fn sources_of<'a>(sources: &'a ItemSources<'_>) -> Result<&'a Sources, AllocError>
    ensures is { IfOk result (λ made. made.now ≡ sources.now.sources) }
    ensures heads { IfOk result (λ made. SystemHasHeads (system sources.now.sources)) }
{
    Ok(sources.listed())
}

/// What stands for the holes of a rule where its head reads as the target and its predicates are Yes.
pub fn fits(
    search: &mut Search<'_>,
    rule: &Rule,
    target: &Term,
    depth: u32,
    steps: u32,
) -> Result<Option<Vec<Binding>>, AllocError>
    requires level { IsLevelBelow depth steps }
    requires rule { RuleHasHeads (rule_of rule.now) }
    requires target { IsDone (term_of target.now) }
    ensures same { search.new ≡ search.old }
    ensures answer { IfOk result (λ fills. HoldsIf (answers (system search.old) depth).Alias (known_below (system search.old) steps) (rule_of rule.now) (rule_of rule.now).head.parts (rule_of rule.now).preds (term_of target.now) (option_map (λ v. fill_of (log_of v.items)) fills)) }
{
    let found = search.fits(rule, Side::Whole, target, depth, steps)?;
    Ok(found)
}

/// Whether a projection's two sides are the same.
pub fn is_itself(alloc: Global, kind: Kind, target: &Term) -> Result<Answer, AllocError>
    requires target { IsDone (term_of target.now) }
    requires known { IsKnown (key (kind_of kind) (term_of target.now)) }
    ensures { IfOk result (λ answer. Decides (IsItself (kind_of kind) (term_of target.now)) (IsNeverItself (kind_of kind) (term_of target.now)) answer) }
{
    let answer = goal_search::is_itself(alloc, kind, target)?;
    Ok(answer)
}

/// Those of the parts, where the goal holds since these are copied.
pub fn copied_goals(
    alloc: Global,
    sources: &Sources,
    kind: Kind,
    target: &Term,
) -> Result<Option<Vec<Asked>>, AllocError>
    ensures { IfOk result (λ found. CopiesAre (system sources.now) (kind_of kind) (term_of target.now) (option_map (λ v. asked_list v.items) found)) }
{
    match goal_search::copied_goals(alloc, sources, kind, target)? {
        Copies::Of(goals) => Ok(Some(goals)),
        Copies::Known(_) => Ok(None),
    }
}

/// The goal of inference that asks this, without lifetimes.
pub fn goal_of(alloc: Global, asked: &Asked) -> Result<Goal, AllocError>
    ensures { IfOk result (λ made. (g : Goal) → asked_goal g ≡ asked_of asked.now → asked_goal made ≡ asked_of asked.now) }
{
    let goal = goal_facts::goal_of(alloc, asked)?;
    Ok(goal)
}
