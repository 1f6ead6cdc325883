//! What the goals of an item are answered by, and the answers.
ghost use Rattle.std.specs.Prelude.{◌≡◌, ◌↔◌, IsTrue, IfOk, option_map};
ghost use Rattle.goal_facts.specs.Words.{term, implements, is_among, IsChoice, system, SystemHasHeads, IsSizedAt, choice_of};
ghost use Rattle.goal_facts.specs.Own.{asked_goal, IsAnswer, IsSystemOf};

use crate::goals::asked;
use crate::sources::sources_of;
use goal_search::{Answer, Choice, Holes, Kind, Search, Sources, is_among};
use goal_terms::type_term;
use hir_facts::{Facts, GenericDefId, Goal, TraitId, Ty};
use std::alloc::{AllocError, Global};
use std::marker::Model;

/// What the goals of an item of the facts are answered by: what the item states, all impls, and the
/// bounds of associated types.
#[derive(Debug, Drop)]
pub struct ItemSources<'a> {
    facts: &'a Facts,
    item: GenericDefId,
    pub(crate) sources: Sources,
}

impl<'a> Model for ItemSources<'a> {
    ghost use Rattle.goal_facts.specs.Words.goal_terms.contracts.term.Term as term;
    ghost use Rattle.std.specs.Coded.{codes};
    ghost use Rattle.goal_facts.specs.Words.{system, SystemHasHeads};
    ghost use Rattle.goal_facts.specs.Goals.{ItemSources};
    ghost use Rattle.goal_facts.specs.Systems.{IsSystemOf};

    ghost Value = { ItemSources };

    ghost coded = { Prim.hlevel (codes, term.the_row.coded) };

    ghost view = { λ a. record { facts = a.facts.now; item = a.item; sources = a.sources } };

    ghost invariant = { λ a. IsSystemOf a.facts.now a.item (system a.sources) × SystemHasHeads (system a.sources) };
}

impl<'a> ItemSources<'a> {
    /// Reads them off the facts.
    pub fn new(
        alloc: Global,
        facts: &'a Facts,
        item: GenericDefId,
    ) -> Result<ItemSources<'a>, AllocError>
        ensures facts { IfOk result (λ made. made.facts ≡ facts.now) }
        ensures item { IfOk result (λ made. made.item ≡ item) }
    {
        let sources = sources_of(alloc, facts, item)?;
        Ok(ItemSources {
            facts,
            item,
            sources,
        })
    }

    /// Nothing: callers learn that these are the item's.
    pub fn lawful(&self)
        ensures { IsSystemOf self.now.facts self.now.item (system self.now.sources) }
    {
        let _sources = &self.sources;
    }

    /// The facts.
    pub fn facts(&self) -> &'a Facts
        ensures { result.now ≡ self.now.facts }
    {
        self.facts
    }

    /// The item.
    pub fn item(&self) -> GenericDefId
        ensures { result ≡ self.now.item }
    {
        self.item
    }

    /// What goals are answered by.
    pub fn listed(&self) -> &Sources
        ensures is { result.now ≡ self.now.sources }
        ensures heads { SystemHasHeads (system self.now.sources) }
    {
        &self.sources
    }

    /// A search for answers that has found nothing.
    pub fn search(&self, alloc: Global) -> Search<'_>
        ensures { result ≡ self.now.sources }
    {
        Search::new(alloc, &self.sources)
    }

    /// Whether this is the trait of types with a size.
    pub fn is_of_sizes(&self, id: TraitId) -> bool
        ensures { result ≡ is_among (system self.now.sources).sized (implements id) }
    {
        is_among(self.sources.sized.as_slice(), Kind::Implements(id))
    }

    /// Whether the trait holds of some types where it holds of their parts.
    pub fn is_of_parts(&self, id: TraitId) -> bool
        ensures { result ≡ is_among (system self.now.sources).copied (implements id) }
    {
        is_among(self.sources.copied.as_slice(), Kind::Implements(id))
    }

    /// The answer to a goal, whose holes stay, at the depth to which the facts let goals be followed.
    pub fn evaluate(&self, alloc: Global, goal: &Goal) -> Result<Answer, AllocError>
        ensures given { IfOk result (λ _. IsSystemOf self.now.facts self.now.item (system self.now.sources)) }
        ensures answer { IfOk result (λ answer. IsAnswer (system self.now.sources) self.now.facts.limits.goal_depth (asked_goal goal.now) answer) }
    {
        self.facts.lawful();
        let goal = asked(alloc, goal)?;
        let depth = self.facts.raw().limits.goal_depth;
        Search::new(alloc, &self.sources).evaluate(&goal, Holes::Stay, depth + 1)
    }

    /// What a goal, whose holes stay, is selected by at the depth: the clause or the rule of this number, or
    /// the parts of its self type, where all else is refuted; and that a type has a size by a clause that
    /// says so, or else by a walk. Nothing where several are left, at depth 0 for all but sizes, and of goals
    /// about associated types, with aliases in them, or with a hole for their self type.
    pub fn choose(
        &self,
        alloc: Global,
        goal: &Goal,
        depth: u32,
    ) -> Result<Option<Choice>, AllocError>
        ensures given { IfOk result (λ _. IsSystemOf self.now.facts self.now.item (system self.now.sources)) }
        ensures answer { IfOk result (λ found. IsChoice (system self.now.sources) depth (asked_goal goal.now) (option_map choice_of found)) }
    {
        let goal = asked(alloc, goal)?;
        Search::new(alloc, &self.sources).choose(&goal, depth)
    }

    /// Whether a type, whose holes stay, is known to have a size: a walk along last fields and last parts
    /// says so, which ends at the limit of the facts. Of parameters, associated types that stay and opaque
    /// types something has to say it.
    pub fn is_sized(&self, alloc: Global, ty: &Ty) -> Result<bool, AllocError>
        ensures given { IfOk result (λ _. IsSystemOf self.now.facts self.now.item (system self.now.sources)) }
        ensures answer { IfOk result (λ yes. IsTrue yes ↔ IsSizedAt (system self.now.sources) self.now.facts.limits.goal_depth (term ty.now)) }
    {
        let ty = type_term(alloc, ty)?;
        let depth = self.facts.raw().limits.goal_depth;
        Search::new(alloc, &self.sources).is_sized(&ty, depth)
    }
}
