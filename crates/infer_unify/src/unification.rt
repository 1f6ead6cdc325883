//! Whether two types unify, and whether nothing is left undecided then.
ghost use Rattle.std.specs.Prelude.{◌≡◌, ◌≤◌, IsTrue, IfOk};
ghost use Rattle.infer_unify.specs.Words.{IsRead, answers, term_of, HasHeads, system, SystemHasHeads};
ghost use Rattle.infer_unify.specs.Own.{UnifyExactly, IsExact, aliases_of, HaveHeads, Becomes, IsUnification, IsOnlyOutcome, could, deeply, IsTestOf, IsOnlyTestOf, OnlyWhere};

use crate::known::{follow_all, judge};
use crate::opening::{OpenedBoth, open_both};
use goal_facts::{Facts, GenericDefId, ItemSources, Ty};
use goal_search::Search;
use goal_terms::{MOST_DEPTH, make_equal, type_term};
use hir_types::Canonical;
use std::alloc::{AllocError, Global};

/// What becomes of two types that are to be the same.
#[derive(Clone, Copy, Debug, PartialEq, Eq)]
pub enum Unification {
    /// They can't be.
    No,
    /// They can be, but that some associated type is what it would have to be is neither answered Yes nor No.
    Undecided,
    /// They can be.
    Yes,
}

impl Unification {
    /// Whether they can be.
    pub fn could(self) -> bool
        ensures { result ≡ could self }
    {
        self != Unification::No
    }

    /// Whether they can be, and nothing is left undecided.
    pub fn deeply(self) -> bool
        ensures is { result ≡ deeply self }
        ensures only_where_could { IsTrue result → IsTrue (could self) }
    {
        self == Unification::Yes
    }
}

/// What becomes of two terms, in which holes stand for these associated types.
fn unify_terms(
    alloc: Global,
    search: &mut Search<'_>,
    depth: u32,
    terms: &OpenedBoth,
) -> Result<Unification, AllocError>
    requires depth { depth ≤ 32 }
    requires system { SystemHasHeads (system search.old) }
    requires left { HasHeads (term_of terms.now.left) }
    requires right { HasHeads (term_of terms.now.right) }
    requires heads { HaveHeads (aliases_of terms.now.aliases.items) }
    requires read { IsRead (term_of terms.now.left) × IsRead (term_of terms.now.right) }
    ensures { IfOk result (λ found. Becomes (answers (system search.old) depth) (aliases_of terms.now.aliases.items) (term_of terms.now.left) (term_of terms.now.right) found) }
{
    let mut log = Vec::new(alloc);
    if !make_equal(alloc, &mut log, &terms.left, &terms.right, MOST_DEPTH)? {
        return Ok(Unification::No);
    }
    if !follow_all(alloc, search, depth, &terms.aliases, &mut log)? {
        return Ok(Unification::No);
    }
    judge(alloc, search, depth, &terms.aliases, &log)
}

/// What becomes of two types over holes of their own, in the scope of an item. A hole says itself what
/// it may stand for, so the list of the holes isn't looked at. Parameters, opaque types and associated
/// types that stay are the same as themselves alone, and `{unknown}` is the same as anything, but among the
/// arguments of an associated type that is to be read, where it is a type like another. In the place of an
/// associated type that is to be read stands a hole, which is what that reads as where it is
/// known, and else has to be it. It is the same for the same facts, item and types.
pub fn unification_of(
    alloc: Global,
    facts: &Facts,
    env: GenericDefId,
    pair: &Canonical<(Ty, Ty)>,
) -> Result<Unification, AllocError>
    ensures becomes { IfOk result (λ found. IsUnification facts.now env pair.now.value.0 pair.now.value.1 found) }
    ensures only { IfOk result (λ found. IsOnlyOutcome facts.now env pair.now.value.0 pair.now.value.1 found) }
    ensures exact { IfOk result (λ found. UnifyExactly pair.now.value.0 pair.now.value.1 found) }
{
    let sources = ItemSources::new(alloc, facts, env)?;
    sources.lawful();
    let _listed = sources.listed();
    let depth = facts.raw().limits.goal_depth;
    let left = type_term(alloc, &pair.value.0)?;
    let right = type_term(alloc, &pair.value.1)?;
    let terms = open_both(alloc, &left, &right)?;
    let mut search = sources.search(alloc);
    unify_terms(alloc, &mut search, depth, &terms)
}

/// Whether two types could be the same: nothing that is known refutes it. All calls for the same facts,
/// item and types answer alike.
pub fn could_unify(
    alloc: Global,
    facts: &Facts,
    env: GenericDefId,
    pair: &Canonical<(Ty, Ty)>,
) -> Result<bool, AllocError>
    ensures test { IfOk result (λ yes. IsTestOf could facts.now env pair.now.value.0 pair.now.value.1 yes) }
    ensures only { IfOk result (λ yes. IsOnlyTestOf could facts.now env pair.now.value.0 pair.now.value.1 yes) }
    ensures exact { IfOk result (λ yes. IsExact pair.now.value.0 pair.now.value.1 yes) }
{
    let found = unification_of(alloc, facts, env, pair)?;
    Ok(found.could())
}

/// Whether two types could be the same, and nothing that this asks for is left undecided. All calls for
/// the same facts, item and types answer alike, and where it is true so is `could_unify`.
pub fn could_unify_deeply(
    alloc: Global,
    facts: &Facts,
    env: GenericDefId,
    pair: &Canonical<(Ty, Ty)>,
) -> Result<bool, AllocError>
    ensures test { IfOk result (λ yes. IsTestOf deeply facts.now env pair.now.value.0 pair.now.value.1 yes) }
    ensures only { IfOk result (λ yes. IsOnlyTestOf deeply facts.now env pair.now.value.0 pair.now.value.1 yes) }
    ensures only_where_could { IfOk result (λ yes. OnlyWhere could facts.now env pair.now.value.0 pair.now.value.1 yes) }
    ensures exact { IfOk result (λ yes. IsExact pair.now.value.0 pair.now.value.1 yes) }
{
    let found = unification_of(alloc, facts, env, pair)?;
    Ok(found.deeply())
}
