//! The goals that inference of a body meets.
ghost use Rattle.std.specs.Prelude.{◌≡◌, ◌↔◌, ◌++◌, ◌∷◌, [], true, IsTrue, IfOk, OnOk};
ghost use Rattle.infer_goals.specs.Words.{term, new_state, resolved_type, system, IsSizedAt, answers, asked_goal, IsAnswer, AreProofsUnder, IsReadOrItself, IsTypeRead, IsSystemOf, GoalIsOf, registered, IsAsked, pending_of};
ghost use Rattle.infer_goals.specs.Own.{resolved_goal, AreKept, HasAllOpen, NoneLeft, Went, BoundMore, AreForSelfTy};

use crate::obligations::Obligations;
use goal_facts::{Answer, ExprOrPatId, Facts, GenericDefId, Goal, ItemSources, Proof, Ty};
use infer_table::InferenceTable;
use std::alloc::{AllocError, Global};

/// The goals that inference of a body meets, with the table of its holes.
#[derive(Drop)]
pub struct GoalTable<'a> {
    alloc: Global,
    /// The holes that were made, and what is known of them.
    pub table: InferenceTable,
    /// Whether goals are still selected under a bound: true until holes fall back.
    pub bounded: bool,
    sources: ItemSources<'a>,
    pub(crate) obligations: Obligations,
    /// Each goal that was evaluated, with its answer.
    told: Vec<(Goal, Answer)>,
    pub(crate) uses: Vec<(Ty, Ty, ExprOrPatId)>,
    /// The opaque types of which a hidden type is known, with it.
    pub(crate) projections: Vec<(Ty, Ty)>,
}

impl<'a> GoalTable<'a> {
    /// A table without holes, of which nothing was told, for the goals of an item of the facts.
    pub fn new(
        alloc: Global,
        facts: &'a Facts,
        env: GenericDefId,
    ) -> Result<GoalTable<'a>, AllocError>
        ensures facts { IfOk result (λ made. made.sources.facts ≡ facts.now) }
        ensures env { IfOk result (λ made. made.sources.item ≡ env) }
        ensures table { IfOk result (λ made. made.table ≡ new_state) }
        ensures bounded { IfOk result (λ made. made.bounded ≡ true) }
        ensures kept { IfOk result (λ made. AreKept facts.now (system made.sources.sources) made.table made.obligations) }
        ensures all { IfOk result (λ made. HasAllOpen (system made.sources.sources) made.table made.obligations) }
        ensures obligations { IfOk result (λ made. made.obligations.tree.obligations.items ≡ []) }
        ensures proofs { IfOk result (λ made. made.obligations.tree.proofs.items ≡ []) }
        ensures selected { IfOk result (λ made. made.obligations.selected ≡ 0) }
        ensures told { IfOk result (λ made. made.told.items ≡ []) }
        ensures uses { IfOk result (λ made. made.uses.items ≡ []) }
        ensures projections { IfOk result (λ made. made.projections.items ≡ []) }
    {
        Ok(GoalTable {
            alloc,
            table: InferenceTable::new(alloc)?,
            bounded: true,
            sources: ItemSources::new(alloc, facts, env)?,
            obligations: Obligations::new(alloc),
            told: Vec::new(alloc),
            uses: Vec::new(alloc),
            projections: Vec::new(alloc),
        })
    }

    /// The facts.
    pub fn facts(&self) -> &'a Facts
        ensures { result.now ≡ self.now.sources.facts }
    {
        self.sources.facts()
    }

    /// The item in whose scope the goals are.
    pub fn env(&self) -> GenericDefId
        ensures { result ≡ self.now.sources.item }
    {
        self.sources.item()
    }

    /// The answer to a goal with what is known of its holes; the goal so and its answer are told, once.
    pub fn evaluate(&mut self, goal: &Goal) -> Result<Answer, AllocError>
        ensures given { IfOk result (λ _. IsSystemOf self.old.sources.facts self.old.sources.item (system self.old.sources.sources)) }
        ensures answer { IfOk result (λ answer. IsAnswer (system self.old.sources.sources) self.old.sources.facts.limits.goal_depth (asked_goal (resolved_goal self.old.table goal.now)) answer) }
        ensures told { IfOk result (λ answer. self.new.told.items ≡ self.old.told.items ++ (resolved_goal self.old.table goal.now, answer) ∷ []) }
        ensures table { self.new.table ≡ self.old.table }
        ensures bounded { self.new.bounded ≡ self.old.bounded }
        ensures sources { self.new.sources ≡ self.old.sources }
        ensures obligations { self.new.obligations ≡ self.old.obligations }
        ensures uses { self.new.uses.items ≡ self.old.uses.items }
        ensures projections { self.new.projections.items ≡ self.old.projections.items }
    {
        let resolved = self.table.resolve(goal)?;
        let answer = self.sources.evaluate(self.alloc, &resolved)?;
        self.told.push((resolved, answer))?;
        Ok(answer)
    }

    /// Whether a type, with what is known of its holes, is known to have a size: a walk along last fields and
    /// last parts says so, which ends at the limit of the facts. Nothing is told of what it asks.
    pub fn is_sized(&self, ty: &Ty) -> Result<bool, AllocError>
        ensures given { IfOk result (λ _. IsSystemOf self.now.sources.facts self.now.sources.item (system self.now.sources.sources)) }
        ensures answer { IfOk result (λ yes. IsTrue yes ↔ IsSizedAt (system self.now.sources.sources) self.now.sources.facts.limits.goal_depth (term (resolved_type self.now.table ty.now))) }
    {
        let ty = self.table.resolve(ty)?;
        self.sources.is_sized(self.alloc, &ty)
    }

    /// What a type with associated types reads as, with what is known of its holes, at the depth to which the facts let
    /// goals be followed; one that stays is a type of its own. Nothing where one of them is open. `infer/unify.rs`, `normalize_alias_ty`.
    pub fn normalize_alias_ty(&self, ty: &Ty) -> Result<Option<Ty>, AllocError>
        ensures given { IfOk result (λ _. IsSystemOf self.now.sources.facts self.now.sources.item (system self.now.sources.sources)) }
        ensures read { IfOk result (λ found. IsTypeRead (system self.now.sources.sources) self.now.sources.facts.limits.goal_depth (resolved_type self.now.table ty.now) found) }
    {
        let ty = self.table.resolve(ty)?;
        self.sources.read_ty(self.alloc, &ty)
    }

    /// A type with what is known of its holes and what its associated types read as; where one of these is open, the type as it is.
    /// `infer/unify.rs`, `try_structurally_resolve_type`.
    pub fn try_structurally_resolve_type(&self, ty: &Ty) -> Result<Ty, AllocError>
        ensures given { IfOk result (λ _. IsSystemOf self.now.sources.facts self.now.sources.item (system self.now.sources.sources)) }
        ensures read { IfOk result (λ found. IsReadOrItself (system self.now.sources.sources) self.now.sources.facts.limits.goal_depth (resolved_type self.now.table ty.now) found) }
    {
        match self.normalize_alias_ty(ty)? {
            Some(read) => Ok(read),
            None => self.table.resolve(ty),
        }
    }

    /// What was told, in its order: copies.
    pub fn told(&self) -> Result<Vec<(Goal, Answer)>, AllocError>
        ensures { IfOk result (λ told. told.items ≡ self.now.told.items) }
    {
        let mut told = Vec::new(self.alloc);
        for entry in self.told.as_slice() {
            told.push((entry.0.dup(self.alloc)?, entry.1))?;
        }
        Ok(told)
    }

    /// Notes that an opaque type was equated with another type at a node.
    pub fn note_use(&mut self, opaque: &Ty, other: &Ty, node: ExprOrPatId) -> Result<(), AllocError>
        ensures uses { OnOk result (self.new.uses.items ≡ self.old.uses.items ++ (opaque.now, other.now, node) ∷ []) }
        ensures table { self.new.table ≡ self.old.table }
        ensures bounded { self.new.bounded ≡ self.old.bounded }
        ensures sources { self.new.sources ≡ self.old.sources }
        ensures obligations { self.new.obligations ≡ self.old.obligations }
        ensures told { self.new.told.items ≡ self.old.told.items }
        ensures projections { self.new.projections.items ≡ self.old.projections.items }
    {
        let opaque = opaque.dup(self.alloc)?;
        let other = other.dup(self.alloc)?;
        self.uses.push((opaque, other, node))?;
        Ok(())
    }

    /// The opaque types equated so far, each with the other type and the node: copies, in order.
    pub fn uses(&self) -> Result<Vec<(Ty, Ty, ExprOrPatId)>, AllocError>
        ensures { IfOk result (λ uses. uses.items ≡ self.now.uses.items) }
    {
        let mut uses = Vec::new(self.alloc);
        for entry in self.uses.as_slice() {
            let opaque = entry.0.dup(self.alloc)?;
            let other = entry.1.dup(self.alloc)?;
            uses.push((opaque, other, entry.2))?;
        }
        Ok(uses)
    }

    /// Enters the hidden type of an opaque type behind the entries of opaque types.
    pub fn enter_hidden(&mut self, opaque: &Ty, hidden: &Ty) -> Result<(), AllocError>
        ensures projections { OnOk result (self.new.projections.items ≡ self.old.projections.items ++ (opaque.now, hidden.now) ∷ []) }
        ensures table { self.new.table ≡ self.old.table }
        ensures bounded { self.new.bounded ≡ self.old.bounded }
        ensures sources { self.new.sources ≡ self.old.sources }
        ensures obligations { self.new.obligations ≡ self.old.obligations }
        ensures told { self.new.told.items ≡ self.old.told.items }
        ensures uses { self.new.uses.items ≡ self.old.uses.items }
    {
        let opaque = opaque.dup(self.alloc)?;
        let hidden = hidden.dup(self.alloc)?;
        self.projections.push((opaque, hidden))?;
        Ok(())
    }

    /// The entries of opaque types, each with its hidden type: copies, in order.
    pub fn projections(&self) -> Result<Vec<(Ty, Ty)>, AllocError>
        ensures { IfOk result (λ projections. projections.items ≡ self.now.projections.items) }
    {
        let mut projections = Vec::new(self.alloc);
        for entry in self.projections.as_slice() {
            let opaque = entry.0.dup(self.alloc)?;
            let hidden = entry.1.dup(self.alloc)?;
            projections.push((opaque, hidden))?;
        }
        Ok(projections)
    }

    /// Adds a goal that a node needs. It may be followed as far as the facts let goals be.
    pub fn register_obligation(&mut self, goal: Goal, node: ExprOrPatId) -> Result<(), AllocError>
        requires goal { GoalIsOf self.old.table goal }
        requires kept { AreKept self.old.sources.facts (system self.old.sources.sources) self.old.table self.old.obligations }
        requires all { HasAllOpen (system self.old.sources.sources) self.old.table self.old.obligations }
        ensures asked { OnOk result (IsAsked self.old.obligations.tree self.new.obligations.tree (registered goal node self.old.sources.facts.limits.goal_depth ∷ [])) }
        ensures kept { OnOk result (AreKept self.new.sources.facts (system self.new.sources.sources) self.new.table self.new.obligations) }
        ensures all { OnOk result (HasAllOpen (system self.new.sources.sources) self.new.table self.new.obligations) }
        ensures selected { OnOk result (self.new.obligations.selected ≡ self.old.obligations.selected) }
        ensures table { self.new.table ≡ self.old.table }
        ensures bounded { self.new.bounded ≡ self.old.bounded }
        ensures sources { self.new.sources ≡ self.old.sources }
        ensures told { self.new.told.items ≡ self.old.told.items }
        ensures uses { self.new.uses.items ≡ self.old.uses.items }
        ensures projections { self.new.projections.items ≡ self.old.projections.items }
    {
        let depth = self.sources.facts().raw().limits.goal_depth;
        self.obligations.register(goal, node, depth)?;
        Ok(())
    }

    /// Selects what can be selected of the registered goals, and of what their sources ask for, until
    /// nothing selects any more; under a bound at most as many as the facts let be. Whether a hole was
    /// bound by that.
    pub fn select_obligations_where_possible(&mut self) -> Result<bool, AllocError>
        requires kept { AreKept self.old.sources.facts (system self.old.sources.sources) self.old.table self.old.obligations }
        requires all { HasAllOpen (system self.old.sources.sources) self.old.table self.old.obligations }
        ensures given { IfOk result (λ _. IsSystemOf self.old.sources.facts self.old.sources.item (system self.old.sources.sources)) }
        ensures kept { OnOk result (AreKept self.new.sources.facts (system self.new.sources.sources) self.new.table self.new.obligations) }
        ensures all { OnOk result (HasAllOpen (system self.new.sources.sources) self.new.table self.new.obligations) }
        ensures went { OnOk result (Went self.old.sources.facts (system self.old.sources.sources) self.old.bounded self.old.table self.old.obligations self.new.table self.new.obligations) }
        ensures none_left { OnOk result (NoneLeft self.new.sources.facts (system self.new.sources.sources) self.old.bounded self.new.table self.new.obligations) }
        ensures answer { IfOk result (λ bound. IsTrue bound ↔ BoundMore self.old.table self.new.table) }
        ensures bounded { self.new.bounded ≡ self.old.bounded }
        ensures sources { self.new.sources ≡ self.old.sources }
        ensures told { self.new.told.items ≡ self.old.told.items }
        ensures uses { self.new.uses.items ≡ self.old.uses.items }
        ensures projections { self.new.projections.items ≡ self.old.projections.items }
    {
        self.sources.lawful();
        let before = self.table.bound_count();
        self.obligations
            .select_where_possible(&self.sources, &mut self.table, self.bounded)?;
        Ok(self.table.bound_count() > before)
    }

    /// The goals by which more may be known of the hole that the type stands for, once what can be selected
    /// is selected: each registered goal without proof, then what its source asks for, and so on, five levels
    /// in all and in this order, where the self type is the hole and the answer isn't Yes; with what is known
    /// of their holes. What is below a goal that is answered Yes doesn't count. Nothing is told of what this
    /// evaluates.
    pub fn obligations_for_self_ty(&mut self, var: &Ty) -> Result<Vec<Goal>, AllocError>
        requires kept { AreKept self.old.sources.facts (system self.old.sources.sources) self.old.table self.old.obligations }
        requires all { HasAllOpen (system self.old.sources.sources) self.old.table self.old.obligations }
        ensures given { IfOk result (λ _. IsSystemOf self.old.sources.facts self.old.sources.item (system self.old.sources.sources)) }
        ensures kept { OnOk result (AreKept self.new.sources.facts (system self.new.sources.sources) self.new.table self.new.obligations) }
        ensures all { OnOk result (HasAllOpen (system self.new.sources.sources) self.new.table self.new.obligations) }
        ensures went { OnOk result (Went self.old.sources.facts (system self.old.sources.sources) self.old.bounded self.old.table self.old.obligations self.new.table self.new.obligations) }
        ensures none_left { OnOk result (NoneLeft self.new.sources.facts (system self.new.sources.sources) self.old.bounded self.new.table self.new.obligations) }
        ensures goals { IfOk result (λ goals. AreForSelfTy (system self.new.sources.sources) self.new.sources.facts.limits.goal_depth self.new.table var.now self.new.obligations.tree goals.items) }
        ensures bounded { self.new.bounded ≡ self.old.bounded }
        ensures sources { self.new.sources ≡ self.old.sources }
        ensures told { self.new.told.items ≡ self.old.told.items }
        ensures uses { self.new.uses.items ≡ self.old.uses.items }
        ensures projections { self.new.projections.items ≡ self.old.projections.items }
    {
        self.select_obligations_where_possible()?;
        let hole = self.table.resolve(var)?;
        self.obligations.about(&self.sources, &self.table, &hole)
    }

    /// The registered goals without proof, each with its node, in the order in which they were registered.
    pub fn pending(&self) -> Result<Vec<(Goal, ExprOrPatId)>, AllocError>
        requires { AreKept self.now.sources.facts (system self.now.sources.sources) self.now.table self.now.obligations }
        ensures { IfOk result (λ made. made.items ≡ pending_of self.now.obligations.tree.obligations.items self.now.obligations.tree.standings.items) }
    {
        self.obligations.tree.pending()
    }

    /// The proofs that were made. A proof has a greater number than those of what its source asks for.
    pub fn proofs(&self) -> Result<Vec<Proof>, AllocError>
        requires { AreKept self.now.sources.facts (system self.now.sources.sources) self.now.table self.now.obligations }
        ensures proofs { IfOk result (λ made. made.items ≡ self.now.obligations.tree.proofs.items) }
        ensures right { IfOk result (λ made. AreProofsUnder self.now.sources.facts (system self.now.sources.sources) (answers (system self.now.sources.sources) self.now.sources.facts.limits.goal_depth).Alias self.now.table made.items) }
    {
        self.obligations.tree.proofs()
    }

    /// How many goals were selected while selection was bounded, with those of which this was undone.
    pub fn selected(&self) -> u64
        ensures { result ≡ self.now.obligations.selected }
    {
        self.obligations.selected
    }
}
