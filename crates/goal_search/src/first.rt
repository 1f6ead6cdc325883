//! What is known before the first step.
ghost use Rattle.std.specs.Prelude.{◌≡◌, ◌↔◌, IfOk, IsTrue, option_map};
ghost use Rattle.goal_search.specs.Words.{key, Each, IsKnown, IsItself, IsNeverItself, CannotGive, term_of};
ghost use Rattle.goal_search.specs.Own.{kind_of, rules_of, system, Decides, IsDone, RuleHasHeads, SystemHasHeads, StaysFirst};

use crate::answer::Answer;
use crate::parts::{args_of, is_same_kind};
use crate::sources::{Kind, Rule, Sources};
use goal_terms::{Term, can_be_itself, find_common, staying_term};
use hir_types::{Head, TypeAliasId};
use std::alloc::{AllocError, Global};

/// Whether each rule says nothing of the alias at these arguments, whatever its aliases read as.
fn none_can_give(
    alloc: Global,
    rules: &[Rule],
    alias: TypeAliasId,
    args: &Term,
) -> Result<bool, AllocError>
    requires rules { Each RuleHasHeads (rules_of rules.now) }
    requires args { IsDone (term_of args.now) }
    ensures { IfOk result (λ yes. IsTrue yes ↔ Each (CannotGive alias (term_of args.now)) (rules_of rules.now)) }
{
    for rule in rules {
        if !is_same_kind(rule.head.kind, Kind::Projects(alias)) {
            continue;
        }
        let end = Term::Leaf(Head::End);
        if let Some(_) = find_common(alloc, args_of(&rule.head.parts, &end), args)? {
            return Ok(false);
        }
    }
    Ok(true)
}

/// The alias at these arguments, where no source can say anything of it.
pub fn stays_first(
    alloc: Global,
    sources: &Sources,
    alias: TypeAliasId,
    args: &Term,
) -> Result<Option<Term>, AllocError>
    requires system { SystemHasHeads (system sources.now) }
    requires args { IsDone (term_of args.now) }
    ensures { IfOk result (λ read. StaysFirst (system sources.now) alias (term_of args.now) (option_map term_of read)) }
{
    if !none_can_give(alloc, &sources.clauses, alias, args)? {
        return Ok(None);
    }
    if !none_can_give(alloc, &sources.rules, alias, args)? {
        return Ok(None);
    }
    Ok(Some(staying_term(alloc, alias, args)?))
}

/// Whether a projection's two sides are the same, can't be, or neither is known.
#[tactic(auto, using(crate::specs::Words::term_is))]
pub fn is_itself(alloc: Global, kind: Kind, target: &Term) -> Result<Answer, AllocError>
    requires target { IsDone (term_of target.now) }
    requires known { IsKnown (key (kind_of kind) (term_of target.now)) }
    ensures { IfOk result (λ answer. Decides (IsItself (kind_of kind) (term_of target.now)) (IsNeverItself (kind_of kind) (term_of target.now)) answer) }
{
    let Kind::Projects(alias) = kind else {
        return Ok(Answer::No);
    };
    let Term::Pair(args, ty) = target else {
        return Ok(Answer::Undecided);
    };
    if staying_term(alloc, alias, args.get())?.is_same(ty.get()) {
        return Ok(Answer::Yes);
    }
    if can_be_itself(alloc, args.get(), ty.get(), alias)? {
        return Ok(Answer::Undecided);
    }
    Ok(Answer::No)
}
