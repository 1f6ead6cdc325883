//! What is found out of the holes of two types, and what becomes of the associated types in them.
ghost use Rattle.std.specs.Prelude.{◌≡◌, ◌≤◌, IsTrue, length, IfOk, option_map};
ghost use Rattle.infer_unify.specs.Words.{hole, pair, sub, resolved, answers, ReadingIs, term_of, IsHead, HasHeads, log_of, IsLog, system, SystemHasHeads, IsAnswer};
ghost use Rattle.infer_unify.specs.Own.{alias_of, aliases_of, HaveHeads, known_alias, goal_of, AreJudged, IsFollowed, AreFollowed, AreRounds};

use crate::opening::Alias;
use crate::unification::Unification;
use goal_search::{Answer, Asked, Holes, Kind, MOST_LEVELS, Search};
use goal_terms::{Binding, MOST_DEPTH, Term, make_equal, stands_in};
use hir_types::{Head, Hole};
use std::alloc::{AllocError, Global};

/// The term with another in the place of a hole.
#[tactic(auto, using(crate::specs::Words::term_is))]
fn put_in(alloc: Global, hole: Hole, put: &Term, term: &Term) -> Result<Term, AllocError>
    ensures { IfOk result (λ made. term_of made ≡ sub hole (term_of put.now) (term_of term.now)) }
{
    match term {
        Term::Hole(_) => {
            if stands_in(hole, term) {
                put.dup(alloc)
            } else {
                term.dup(alloc)
            }
        }
        Term::Leaf(head) => Ok(Term::Leaf(*head)),
        Term::Pair(left, right) => {
            let left = put_in(alloc, hole, put, left.get())?;
            let right = put_in(alloc, hole, put, right.get())?;
            Term::join(alloc, left, right)
        }
    }
}

/// A term of two parts, with what is known of its holes.
fn known_pair(alloc: Global, log: &[Binding], first: Term, rest: &Term) -> Result<Term, AllocError>
    ensures { IfOk result (λ made. term_of made ≡ resolved (log_of log.now) (pair (term_of first) (term_of rest.now))) }
{
    let mut made = Term::join(alloc, first, rest.dup(alloc)?)?;
    for binding in log {
        made = put_in(alloc, binding.hole, &binding.term, &made)?;
    }
    Ok(made)
}

/// What an associated type reads as, with what is known of its holes.
fn read_alias(
    alloc: Global,
    search: &mut Search<'_>,
    depth: u32,
    alias: &Alias,
    log: &[Binding],
) -> Result<Option<Term>, AllocError>
    requires is_log { IsLog (log_of log.now) }
    requires heads { HasHeads (term_of alias.now.args) }
    ensures same { search.new ≡ search.old }
    ensures read { IfOk result (λ read. ReadingIs (answers (system search.old) depth).Alias hole (known_alias (log_of log.now) (alias_of alias.now)) (option_map term_of read)) }
{
    let known = known_pair(
        alloc,
        log,
        Term::Leaf(Head::Projection(alias.alias)),
        &alias.args,
    )?;
    search.read(&known, Holes::Stay, depth, MOST_LEVELS)
}

/// Makes the hole of an associated type equal with what this reads as, with what is known of holes,
/// where it reads as something; or answers false where nothing does.
fn follow(
    alloc: Global,
    search: &mut Search<'_>,
    depth: u32,
    alias: &Alias,
    log: &mut Vec<Binding>,
) -> Result<bool, AllocError>
    requires system { SystemHasHeads (system search.old) }
    requires is_log { IsLog (log_of log.old.items) }
    requires heads { HasHeads (term_of alias.now.args) }
    ensures same { search.new ≡ search.old }
    ensures is_log { IsLog (log_of log.new.items) }
    ensures followed { IfOk result (λ yes. IsFollowed (answers (system search.old) depth).Alias (alias_of alias.now) (log_of log.old.items) (log_of log.new.items) yes) }
{
    match read_alias(alloc, search, depth, alias, log)? {
        Some(read) => make_equal(
            alloc,
            log,
            &Term::Hole(Hole::Ty(alias.hole)),
            &read,
            MOST_DEPTH,
        ),
        None => Ok(true),
    }
}

/// The same of all these, as many times as there are of them, since what one reads as may tell what another is at.
pub(crate) fn follow_all(
    alloc: Global,
    search: &mut Search<'_>,
    depth: u32,
    aliases: &[Alias],
    log: &mut Vec<Binding>,
) -> Result<bool, AllocError>
    requires system { SystemHasHeads (system search.old) }
    requires is_log { IsLog (log_of log.old.items) }
    requires heads { HaveHeads (aliases_of aliases.now) }
    ensures same { search.new ≡ search.old }
    ensures is_log { IsLog (log_of log.new.items) }
    ensures followed { IfOk result (λ yes. AreFollowed (answers (system search.old) depth).Alias (aliases_of aliases.now) (log_of log.old.items) (log_of log.new.items) yes) }
    ensures rounds { IfOk result (λ yes. IsTrue yes → AreRounds (answers (system search.old) depth).Alias (aliases_of aliases.now) (length aliases.now) (log_of log.old.items) (log_of log.new.items)) }
{
    for _ in aliases {
        for alias in aliases {
            if !follow(alloc, search, depth, alias, log)? {
                return Ok(false);
            }
        }
    }
    Ok(true)
}

/// The answer to the goal that an associated type is what its hole stands for, with what is known of holes.
fn answer(
    alloc: Global,
    search: &mut Search<'_>,
    depth: u32,
    alias: &Alias,
    log: &[Binding],
) -> Result<Answer, AllocError>
    requires depth { depth ≤ 32 }
    requires is_log { IsLog (log_of log.now) }
    requires heads { IsHead (term_of alias.now.args) × HasHeads (term_of alias.now.args) }
    ensures same { search.new ≡ search.old }
    ensures answer { IfOk result (λ answer. IsAnswer (system search.old) depth (goal_of (log_of log.now) (alias_of alias.now)) answer) }
{
    let args = alias.args.dup(alloc)?;
    let goal = Asked {
        kind: Kind::Projects(alias.alias),
        parts: known_pair(alloc, log, args, &Term::Hole(Hole::Ty(alias.hole)))?,
    };
    search.evaluate(&goal, Holes::Stay, depth + 1)
}

/// What these goals are answered, all together.
pub(crate) fn judge(
    alloc: Global,
    search: &mut Search<'_>,
    depth: u32,
    aliases: &[Alias],
    log: &[Binding],
) -> Result<Unification, AllocError>
    requires depth { depth ≤ 32 }
    requires is_log { IsLog (log_of log.now) }
    requires heads { HaveHeads (aliases_of aliases.now) }
    ensures { IfOk result (λ found. AreJudged (answers (system search.old) depth) (aliases_of aliases.now) (log_of log.now) found) }
{
    let mut found = Unification::Yes;
    for alias in aliases {
        match answer(alloc, search, depth, alias, log)? {
            Answer::Yes => {}
            Answer::No => return Ok(Unification::No),
            Answer::Undecided => found = Unification::Undecided,
        }
    }
    Ok(found)
}
