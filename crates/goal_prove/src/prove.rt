//! The proof of a goal whose answer is Yes, by what the answer was found by.
ghost use Rattle.std.specs.Prelude.{◌≡◌, ◌+◌, ◌≤◌, slice_get, Some, IfOk, OnOk};
ghost use Rattle.goal_prove.specs.Words.{Each, Rule, answers, known_below, term_of, HasHeads, holes_fill, kind_of, asked_of, asked_list, system, asked_goal, ComesFrom};
ghost use Rattle.goal_prove.specs.Own.{AddsProofs, AddsOneRoot, KeepsIfNone, IsProvedIf, IsWritten, deep_alias, ReadsTo, IsAsked, IsFit, FitsNot, PredIsAsked, IsProved, IsProvedAs, IsSourced, IsPredProved, ArePredsProved};

use crate::fits::{Found, find_fit};
use crate::listed::{proof_since, push_proof};
use crate::lower::{copied_goals, goal_of, is_itself, search_of, sources_of};
use crate::types::fill_args;
use goal_facts::{Answer, ItemSources, Proof, ProofSource, asked};
use goal_search::{Asked, Holes, Kind, MOST_LEVELS, Search, is_among};
use goal_terms::Term;
use hir_facts::{Goal, ImplId, List};
use std::alloc::{AllocError, Global};

/// Adds a proof of a goal that reads as the target, behind those of what its source asks for; gives its
/// number. No goal is proved again whose proof is listed from `since` on.
#[cycle(prove)]
fn prove(
    alloc: Global,
    sources: &ItemSources<'_>,
    search: &mut Search<'_>,
    goal: &Goal,
    kind: Kind,
    target: &Term,
    depth: u32,
    since: usize,
    proofs: &mut Vec<Proof>,
) -> Result<usize, AllocError>
    requires same { search.old ≡ sources.now.sources }
    requires depth { depth ≤ sources.now.facts.limits.goal_depth }
    requires goal { ReadsTo sources.now.facts (system sources.now.sources) goal.now (kind_of kind) (term_of target.now) }
    requires asked { IsAsked sources.now.facts (system sources.now.sources) depth (kind_of kind) (term_of target.now) }
    ensures same { search.new ≡ search.old }
    ensures proved { IfOk result (λ number. IsProvedAs sources.now.facts (system sources.now.sources) proofs.old.items proofs.new.items goal.now number) }
{
    if let Some(number) = proof_since(alloc, goal, since, proofs.as_slice())? {
        return Ok(number);
    }
    let number = prove_anew(
        alloc, sources, search, goal, kind, target, depth, since, proofs,
    )?;
    Ok(number)
}

/// The same of a goal that has no proof yet.
#[cycle(prove)]
fn prove_anew(
    alloc: Global,
    sources: &ItemSources<'_>,
    search: &mut Search<'_>,
    goal: &Goal,
    kind: Kind,
    target: &Term,
    depth: u32,
    since: usize,
    proofs: &mut Vec<Proof>,
) -> Result<usize, AllocError>
    requires same { search.old ≡ sources.now.sources }
    requires depth { depth ≤ sources.now.facts.limits.goal_depth }
    requires goal { ReadsTo sources.now.facts (system sources.now.sources) goal.now (kind_of kind) (term_of target.now) }
    requires asked { IsAsked sources.now.facts (system sources.now.sources) depth (kind_of kind) (term_of target.now) }
    ensures same { search.new ≡ search.old }
    ensures proved { IfOk result (λ number. IsProved sources.now.facts (system sources.now.sources) proofs.old.items proofs.new.items goal.now number) }
{
    sources.facts().lawful();
    let listed = sources_of(sources)?;
    let deepest = sources.facts().raw().limits.goal_depth;
    match find_fit(search, listed.clauses.as_slice(), kind, target, deepest)? {
        Some(found) => prove_by_clause(alloc, sources, goal, kind, target, depth, found, proofs),
        None => prove_freely(
            alloc, sources, search, goal, kind, target, depth, since, proofs,
        ),
    }
}

/// Proves a goal by a clause.
fn prove_by_clause(
    alloc: Global,
    sources: &ItemSources<'_>,
    goal: &Goal,
    kind: Kind,
    target: &Term,
    depth: u32,
    found: Found,
    proofs: &mut Vec<Proof>,
) -> Result<usize, AllocError>
    requires depth { depth ≤ sources.now.facts.limits.goal_depth }
    requires goal { ReadsTo sources.now.facts (system sources.now.sources) goal.now (kind_of kind) (term_of target.now) }
    requires asked { IsAsked sources.now.facts (system sources.now.sources) depth (kind_of kind) (term_of target.now) }
    requires fit { IsFit (deep_alias sources.now.facts (system sources.now.sources)) (known_below (system sources.now.sources) sources.now.facts.limits.goal_depth) (system sources.now.sources).clauses (kind_of kind) (term_of target.now) found }
    ensures { IfOk result (λ number. IsProved sources.now.facts (system sources.now.sources) proofs.old.items proofs.new.items goal.now number) }
{
    sources.lawful();
    let clause = sources.clause(alloc, found.place)?;
    let source = ProofSource::Clause(clause);
    push_proof(alloc, goal, source, List::new(alloc), proofs)
}

/// Proves a goal that no clause is.
#[cycle(prove)]
fn prove_freely(
    alloc: Global,
    sources: &ItemSources<'_>,
    search: &mut Search<'_>,
    goal: &Goal,
    kind: Kind,
    target: &Term,
    depth: u32,
    since: usize,
    proofs: &mut Vec<Proof>,
) -> Result<usize, AllocError>
    requires same { search.old ≡ sources.now.sources }
    requires depth { depth ≤ sources.now.facts.limits.goal_depth }
    requires goal { ReadsTo sources.now.facts (system sources.now.sources) goal.now (kind_of kind) (term_of target.now) }
    requires asked { IsAsked sources.now.facts (system sources.now.sources) depth (kind_of kind) (term_of target.now) }
    requires unfit { Each (FitsNot (deep_alias sources.now.facts (system sources.now.sources)) (known_below (system sources.now.sources) sources.now.facts.limits.goal_depth) (kind_of kind) (term_of target.now)) (system sources.now.sources).clauses }
    ensures same { search.new ≡ search.old }
    ensures proved { IfOk result (λ number. IsProved sources.now.facts (system sources.now.sources) proofs.old.items proofs.new.items goal.now number) }
{
    sources.lawful();
    sources.facts().lawful();
    let listed = sources_of(sources)?;
    if is_among(listed.sized.as_slice(), kind) {
        return push_proof(alloc, goal, ProofSource::BuiltIn, List::new(alloc), proofs);
    }
    match is_itself(alloc, kind, target)? {
        Answer::Yes => push_proof(alloc, goal, ProofSource::BuiltIn, List::new(alloc), proofs),
        Answer::No | Answer::Undecided => prove_by_rules(
            alloc, sources, search, goal, kind, target, depth, since, proofs,
        ),
    }
}

/// Proves a goal that has a source, and that no clause is, by a rule, or else by the parts of its self type.
#[cycle(prove)]
fn prove_by_rules(
    alloc: Global,
    sources: &ItemSources<'_>,
    search: &mut Search<'_>,
    goal: &Goal,
    kind: Kind,
    target: &Term,
    depth: u32,
    since: usize,
    proofs: &mut Vec<Proof>,
) -> Result<usize, AllocError>
    requires same { search.old ≡ sources.now.sources }
    requires depth { depth ≤ sources.now.facts.limits.goal_depth }
    requires goal { ReadsTo sources.now.facts (system sources.now.sources) goal.now (kind_of kind) (term_of target.now) }
    requires asked { IsAsked sources.now.facts (system sources.now.sources) depth (kind_of kind) (term_of target.now) }
    requires unfit { Each (FitsNot (deep_alias sources.now.facts (system sources.now.sources)) (known_below (system sources.now.sources) sources.now.facts.limits.goal_depth) (kind_of kind) (term_of target.now)) (system sources.now.sources).clauses }
    requires sourced { IsSourced sources.now.facts (system sources.now.sources) depth (kind_of kind) (term_of target.now) }
    ensures same { search.new ≡ search.old }
    ensures proved { IfOk result (λ number. IsProved sources.now.facts (system sources.now.sources) proofs.old.items proofs.new.items goal.now number) }
{
    sources.facts().lawful();
    let listed = sources_of(sources)?;
    match find_fit(search, listed.rules.as_slice(), kind, target, depth)? {
        Some(found) => prove_by_rule(
            alloc, sources, search, goal, kind, target, found, depth, since, proofs,
        ),
        None => prove_by_parts(
            alloc, sources, search, goal, kind, target, depth, since, proofs,
        ),
    }
}

/// Proves a goal by a rule.
#[cycle(prove)]
fn prove_by_rule(
    alloc: Global,
    sources: &ItemSources<'_>,
    search: &mut Search<'_>,
    goal: &Goal,
    kind: Kind,
    target: &Term,
    found: Found,
    depth: u32,
    since: usize,
    proofs: &mut Vec<Proof>,
) -> Result<usize, AllocError>
    requires same { search.old ≡ sources.now.sources }
    requires depth { depth ≤ sources.now.facts.limits.goal_depth }
    requires goal { ReadsTo sources.now.facts (system sources.now.sources) goal.now (kind_of kind) (term_of target.now) }
    requires asked { IsAsked sources.now.facts (system sources.now.sources) depth (kind_of kind) (term_of target.now) }
    requires sourced { IsSourced sources.now.facts (system sources.now.sources) depth (kind_of kind) (term_of target.now) }
    requires fit { IsFit (answers (system sources.now.sources) depth).Alias (known_below (system sources.now.sources) depth) (system sources.now.sources).rules (kind_of kind) (term_of target.now) found }
    ensures same { search.new ≡ search.old }
    ensures proved { IfOk result (λ number. IsProved sources.now.facts (system sources.now.sources) proofs.old.items proofs.new.items goal.now number) }
{
    sources.lawful();
    match sources.rule_impl(found.place)? {
        Some(id) => prove_by_impl(
            alloc, sources, search, goal, kind, target, found, id, depth, since, proofs,
        ),
        None => push_proof(alloc, goal, ProofSource::BuiltIn, List::new(alloc), proofs),
    }
}

/// Proves a goal by a rule of an impl.
#[cycle(prove)]
fn prove_by_impl(
    alloc: Global,
    sources: &ItemSources<'_>,
    search: &mut Search<'_>,
    goal: &Goal,
    kind: Kind,
    target: &Term,
    found: Found,
    id: ImplId,
    depth: u32,
    since: usize,
    proofs: &mut Vec<Proof>,
) -> Result<usize, AllocError>
    requires same { search.old ≡ sources.now.sources }
    requires depth { depth ≤ sources.now.facts.limits.goal_depth }
    requires goal { ReadsTo sources.now.facts (system sources.now.sources) goal.now (kind_of kind) (term_of target.now) }
    requires asked { IsAsked sources.now.facts (system sources.now.sources) depth (kind_of kind) (term_of target.now) }
    requires sourced { IsSourced sources.now.facts (system sources.now.sources) depth (kind_of kind) (term_of target.now) }
    requires fit { IsFit (answers (system sources.now.sources) depth).Alias (known_below (system sources.now.sources) depth) (system sources.now.sources).rules (kind_of kind) (term_of target.now) found }
    requires of { (r : Rule) → slice_get (system sources.now.sources).rules found.place ≡ Some r → ComesFrom sources.now.facts r (Some id) }
    ensures same { search.new ≡ search.old }
    ensures proved { IfOk result (λ number. IsProved sources.now.facts (system sources.now.sources) proofs.old.items proofs.new.items goal.now number) }
{
    sources.lawful();
    sources.facts().lawful();
    let listed = sources_of(sources)?;
    let item = sources.facts().impl_(id);
    let rule = &listed.rules.as_slice()[found.place];
    let fills = found.fills.as_slice();
    let args = fill_args(alloc, fills, &rule.head.parts, item.params.len())?;
    let holes = Holes::Filled(fills);
    let preds = rule.preds.as_slice();
    let children = prove_all(alloc, sources, search, preds, holes, depth, since, proofs)?;
    push_proof(alloc, goal, ProofSource::Impl(id, args), children, proofs)
}

/// Proves a goal that neither a clause nor a rule is by the parts of its self type.
#[cycle(prove)]
fn prove_by_parts(
    alloc: Global,
    sources: &ItemSources<'_>,
    search: &mut Search<'_>,
    goal: &Goal,
    kind: Kind,
    target: &Term,
    depth: u32,
    since: usize,
    proofs: &mut Vec<Proof>,
) -> Result<usize, AllocError>
    requires same { search.old ≡ sources.now.sources }
    requires depth { depth ≤ sources.now.facts.limits.goal_depth }
    requires goal { ReadsTo sources.now.facts (system sources.now.sources) goal.now (kind_of kind) (term_of target.now) }
    requires asked { IsAsked sources.now.facts (system sources.now.sources) depth (kind_of kind) (term_of target.now) }
    requires sourced { IsSourced sources.now.facts (system sources.now.sources) depth (kind_of kind) (term_of target.now) }
    requires unfit { Each (FitsNot (answers (system sources.now.sources) depth).Alias (known_below (system sources.now.sources) depth) (kind_of kind) (term_of target.now)) (system sources.now.sources).rules }
    ensures same { search.new ≡ search.old }
    ensures proved { IfOk result (λ number. IsProved sources.now.facts (system sources.now.sources) proofs.old.items proofs.new.items goal.now number) }
{
    sources.lawful();
    let listed = sources_of(sources)?;
    let Some(goals) = copied_goals(alloc, listed, kind, target)? else {
        unreachable!()
    };
    let children = prove_all(
        alloc,
        sources,
        search,
        goals.as_slice(),
        Holes::Stay,
        depth,
        since,
        proofs,
    )?;
    push_proof(alloc, goal, ProofSource::BuiltIn, children, proofs)
}

/// Proves each predicate, with what stands for its holes, below the depth.
#[cycle(prove)]
fn prove_all(
    alloc: Global,
    sources: &ItemSources<'_>,
    search: &mut Search<'_>,
    preds: &[Asked],
    holes: Holes<'_>,
    depth: u32,
    since: usize,
    proofs: &mut Vec<Proof>,
) -> Result<List<usize>, AllocError>
    requires same { search.old ≡ sources.now.sources }
    requires depth { depth ≤ sources.now.facts.limits.goal_depth }
    requires preds { Each (PredIsAsked sources.now.facts (system sources.now.sources) depth (holes_fill holes)) (asked_list preds.now) }
    ensures same { search.new ≡ search.old }
    ensures proved { IfOk result (λ numbers. ArePredsProved sources.now.facts (system sources.now.sources) (holes_fill holes.entry) proofs.old.items proofs.new.items (asked_list preds.now) numbers) }
{
    let mut children = List::new(alloc);
    for pred in preds {
        let number = prove_pred(alloc, sources, search, pred, holes, depth, since, proofs)?;
        children.push(number)?;
    }
    Ok(children)
}

/// Proves a predicate, with what stands for its holes, below the depth.
#[cycle(prove)]
fn prove_pred(
    alloc: Global,
    sources: &ItemSources<'_>,
    search: &mut Search<'_>,
    pred: &Asked,
    holes: Holes<'_>,
    depth: u32,
    since: usize,
    proofs: &mut Vec<Proof>,
) -> Result<usize, AllocError>
    requires same { search.old ≡ sources.now.sources }
    requires depth { depth ≤ sources.now.facts.limits.goal_depth }
    requires pred { PredIsAsked sources.now.facts (system sources.now.sources) depth (holes_fill holes) (asked_of pred.now) }
    ensures same { search.new ≡ search.old }
    ensures proved { IfOk result (λ number. IsPredProved sources.now.facts (system sources.now.sources) (holes_fill holes.entry) proofs.old.items proofs.new.items (asked_of pred.now) number) }
{
    sources.lawful();
    let _listed = sources_of(sources)?;
    let Some(below) = depth.checked_sub(1) else {
        unreachable!()
    };
    let Some(parts) = search.read(&pred.parts, holes, below, MOST_LEVELS)? else {
        unreachable!()
    };
    let kind = pred.kind;
    let asked = Asked { kind, parts };
    let goal = goal_of(alloc, &asked)?;
    let target = &asked.parts;
    let number = prove(
        alloc, sources, search, &goal, kind, target, below, since, proofs,
    )?;
    Ok(number)
}

/// One step more than to the depth.
fn one_more(depth: u32) -> Result<u32, AllocError>
    ensures { IfOk result (λ steps. steps ≡ depth + 1) }
{
    // No goal is followed so deep.
    depth.checked_add(1).ok_or(AllocError)
}

/// Adds a proof of a goal without holes, behind those of what its source asks for, where its answer at
/// this depth is Yes; gives its number. Each other proof that it adds is one that another asks for. Else it
/// adds none.
pub fn prove_goal(
    alloc: Global,
    sources: &ItemSources<'_>,
    goal: &Goal,
    depth: u32,
    proofs: &mut Vec<Proof>,
) -> Result<Option<usize>, AllocError>
    requires written { IsWritten (asked_goal goal.now).parts }
    requires depth { depth ≤ sources.now.facts.limits.goal_depth }
    ensures adds { OnOk result (AddsProofs sources.now.facts (system sources.now.sources) proofs.old.items proofs.new.items) }
    ensures roots { IfOk result (λ found. AddsOneRoot found proofs.old.items proofs.new.items) }
    ensures proved { IfOk result (λ found. IsProvedIf (system sources.now.sources) depth proofs.new.items goal.now found) }
    ensures keeps { IfOk result (λ found. KeepsIfNone proofs.old.items proofs.new.items found) }
{
    let asked = asked(alloc, goal)?;
    let mut search = search_of(alloc, sources)?;
    let steps = one_more(depth)?;
    match search.evaluate(&asked, Holes::Stay, steps)? {
        Answer::Yes => {
            let number = prove_yes(alloc, sources, &mut search, goal, &asked, depth, proofs)?;
            Ok(Some(number))
        }
        Answer::No | Answer::Undecided => Ok(None),
    }
}

/// Adds a proof of a goal whose answer at the depth is Yes; gives its number.
fn prove_yes(
    alloc: Global,
    sources: &ItemSources<'_>,
    search: &mut Search<'_>,
    goal: &Goal,
    asked: &Asked,
    depth: u32,
    proofs: &mut Vec<Proof>,
) -> Result<usize, AllocError>
    requires same { search.old ≡ sources.now.sources }
    requires depth { depth ≤ sources.now.facts.limits.goal_depth }
    requires written { IsWritten (asked_goal goal.now).parts }
    requires asked { asked_of asked.now ≡ asked_goal goal.now }
    requires heads { HasHeads (term_of asked.now.parts) }
    requires yes { (answers (system sources.now.sources) depth).Yes (asked_goal goal.now) }
    ensures { IfOk result (λ number. IsProved sources.now.facts (system sources.now.sources) proofs.old.items proofs.new.items goal.now number) }
{
    sources.lawful();
    let _listed = sources_of(sources)?;
    let Some(target) = search.read(&asked.parts, Holes::Stay, depth, MOST_LEVELS)? else {
        unreachable!()
    };
    let since = proofs.len();
    let number = prove_anew(
        alloc, sources, search, goal, asked.kind, &target, depth, since, proofs,
    )?;
    Ok(number)
}
