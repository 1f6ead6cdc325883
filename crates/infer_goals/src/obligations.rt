//! The goals that inference of a body registers, and their selection: `infer/unify.rs`,
//! `select_obligations_where_possible`. What nothing selects sleeps until more is known of its holes.
ghost use Rattle.std.specs.Prelude.{◌≡◌, ◌↔◌, ◌++◌, ◌-◌, ◌≤◌, ◌<◌, ◌^◌, ◌∷◌, [], true, false, length, IfOk, OnOk, IsTrue};
ghost use Rattle.std.specs.List.{range_with_len};
ghost use Rattle.infer_goals.specs.Words.{System, system, IsTree, IsOpenAt, registered, IsAsked};
ghost use Rattle.infer_goals.specs.Own.{AreKept, AreWithin, AreBelow, AreAt, HasAllOpen, HasAllAnyhow, HasAllSince, KeepsAllOpen, WakesAll, SleepsAll, FallAsleep, AreThere, EndsRound, AreUsedUp, AreSettled, NoneLeft, Went, counted, KeepsOpen, AreAmongEither, AreScanned, AreLower, new_numbers, IsTried, IsVisited, IsCopied};

use crate::sleepers::Sleepers;
use goal_facts::{ExprOrPatId, Goal, ItemSources, asked};
use goal_select::{Selected, select_goal};
use goal_tree::GoalTree;
use infer_table::InferenceTable;
use std::alloc::{AllocError, Global};

/// Lets an obligation sleep on each hole of its goal, with what is known of them.
fn sleep_one(
    alloc: Global,
    table: &InferenceTable,
    tree: &GoalTree,
    at: usize,
    asleep: &mut Sleepers,
) -> Result<(), AllocError>
    requires { at < length tree.now.obligations.items }
    ensures { OnOk result (FallAsleep table.now tree.now (at ∷ []) asleep.old asleep.new) }
{
    let goal = table.resolve(&tree.obligation(at).goal)?;
    let known = asked(alloc, &goal)?;
    asleep.sleep(at, &known.parts)?;
    Ok(())
}

/// The goals that were registered, with those that their sources ask for.
#[derive(Debug, Drop)]
pub struct Obligations {
    pub(crate) alloc: Global,
    pub(crate) tree: GoalTree,
    /// The numbers of those that are to be looked at.
    todo: Vec<usize>,
    /// Those that nothing selects until more is known of their holes.
    asleep: Sleepers,
    /// How many were selected while selection was bounded, with those of which this was undone.
    pub(crate) selected: u64,
}

impl Obligations {
    /// None yet.
    pub fn new(alloc: Global) -> Obligations
        ensures tree { IsTree result.tree }
        ensures obligations { result.tree.obligations.items ≡ [] }
        ensures proofs { result.tree.proofs.items ≡ [] }
        ensures selected { result.selected ≡ 0 }
        ensures all { HasAllAnyhow result }
    {
        Obligations {
            alloc,
            tree: GoalTree::new(alloc),
            todo: Vec::new(alloc),
            asleep: Sleepers::new(alloc),
            selected: 0,
        }
    }

    /// Adds a goal that a node needs, which may be followed for so many steps.
    pub fn register(&mut self, goal: Goal, node: ExprOrPatId, depth: u32) -> Result<(), AllocError>
        requires tree { IsTree self.old.tree }
        ensures asked { OnOk result (IsAsked self.old.tree self.new.tree (registered goal node depth ∷ [])) }
        ensures tree { OnOk result (IsTree self.new.tree) }
        ensures selected { OnOk result (self.new.selected ≡ self.old.selected) }
        ensures all { OnOk result (KeepsAllOpen self.old self.new) }
    {
        let number = self.tree.len();
        self.tree.register(goal, node, depth)?;
        self.todo.push(number)?;
        Ok(())
    }

    /// Whether as many were selected as may be.
    fn are_used_up(&self, sources: &ItemSources<'_>, bounded: bool) -> bool
        ensures used { IsTrue result ↔ AreUsedUp sources.now.facts bounded self.now }
        ensures limit { sources.now.facts.limits.goal_steps < 2 ^ 32 }
    {
        let most = sources.facts().raw().limits.goal_steps as u64;
        bounded && self.selected == most
    }

    /// Counts one that was selected, while selection is bounded.
    fn count(&mut self, bounded: bool)
        requires { self.old.selected < 2 ^ 32 }
        ensures tree { self.new.tree ≡ self.old.tree }
        ensures selected { self.new.selected ≡ counted bounded 1 self.old.selected }
    {
        if bounded {
            self.selected += 1;
        }
    }

    /// Adds the numbers of all obligations from this one on.
    fn push_new(&self, first: usize, below: &mut Vec<usize>) -> Result<(), AllocError>
        requires { first ≤ length self.now.tree.obligations.items }
        ensures { OnOk result (below.new.items ≡ below.old.items ++ range_with_len first (length self.now.tree.obligations.items - first)) }
    {
        for number in first..self.tree.len() {
            below.push(number)?;
        }
        Ok(())
    }

    /// Selects the obligation of this number, which is open, where something selects it, and adds the
    /// numbers of those that its source asks for.
    fn try_select(
        &mut self,
        sources: &ItemSources<'_>,
        table: &mut InferenceTable,
        bounded: bool,
        at: usize,
        below: &mut Vec<usize>,
    ) -> Result<bool, AllocError>
        requires kept { AreKept sources.now.facts (system sources.now.sources) table.old self.old }
        requires is_open { IsOpenAt self.old.tree.standings.items at }
        ensures kept { OnOk result (AreKept sources.now.facts (system sources.now.sources) table.new self.new) }
        ensures went { OnOk result (Went sources.now.facts (system sources.now.sources) bounded table.old self.old table.new self.new) }
        ensures tried { IfOk result (λ done. IsTried sources.now.facts (system sources.now.sources) bounded table.old self.old at table.new self.new done) }
        ensures below { OnOk result (below.new.items ≡ below.old.items ++ new_numbers self.old.tree self.new.tree) }
        ensures lower { OnOk result (AreLower self.old.tree at self.new.tree) }
    {
        if self.are_used_up(sources, bounded) {
            return Ok(false);
        }
        let obligation = self.tree.obligation(at);
        let (goal, depth) = (&obligation.goal, obligation.depth);
        let Some(Selected { source, preds }) = select_goal(self.alloc, sources, table, goal, depth)?
        else {
            return Ok(false);
        };
        let first = self.tree.len();
        self.tree.select(at, source, preds)?;
        self.push_new(first, below)?;
        self.count(bounded);
        Ok(true)
    }

    /// Selects the obligation of this number where it is open and something selects it, and adds it to those
    /// that are left where it is open still.
    fn visit(
        &mut self,
        sources: &ItemSources<'_>,
        table: &mut InferenceTable,
        bounded: bool,
        at: usize,
        below: &mut Vec<usize>,
        left: &mut Vec<usize>,
    ) -> Result<(), AllocError>
        requires { AreKept sources.now.facts (system sources.now.sources) table.old self.old }
        ensures kept { OnOk result (AreKept sources.now.facts (system sources.now.sources) table.new self.new) }
        ensures visited { OnOk result (IsVisited sources.now.facts (system sources.now.sources) bounded table.old self.old at below.old.items left.old.items table.new self.new below.new.items left.new.items) }
    {
        if !self.tree.is_open(at) {
            return Ok(());
        }
        if self.try_select(sources, table, bounded, at, below)? {
            return Ok(());
        }
        left.push(at)?;
        Ok(())
    }

    /// Looks once at each of these. Gives those that are open still, and adds what the sources of the others
    /// ask for to those below.
    fn scan(
        &mut self,
        sources: &ItemSources<'_>,
        table: &mut InferenceTable,
        bounded: bool,
        here: Vec<usize>,
        below: &mut Vec<usize>,
    ) -> Result<Vec<usize>, AllocError>
        requires { AreKept sources.now.facts (system sources.now.sources) table.old self.old }
        ensures kept { OnOk result (AreKept sources.now.facts (system sources.now.sources) table.new self.new) }
        ensures scanned { IfOk result (λ left. AreScanned sources.now.facts (system sources.now.sources) bounded table.old self.old here.items below.old.items table.new self.new left.items below.new.items) }
    {
        let mut left = Vec::new(self.alloc);
        for at in here {
            self.visit(sources, table, bounded, at, below, &mut left)?;
        }
        Ok(left)
    }

    /// Those of these that are of this depth, and the others.
    fn split(&self, numbers: Vec<usize>, depth: u32) -> Result<(Vec<usize>, Vec<usize>), AllocError>
        requires { AreWithin self.now.tree depth numbers.items }
        ensures here { IfOk result (λ made. AreAt self.now.tree depth made.0.items) }
        ensures below { IfOk result (λ made. AreBelow self.now.tree depth made.1.items) }
        ensures all { IfOk result (λ made. AreAmongEither numbers.items made.0.items made.1.items) }
    {
        let mut here = Vec::new(self.alloc);
        let mut below = Vec::new(self.alloc);
        for at in numbers {
            if self.tree.obligation(at).depth == depth {
                here.push(at)?;
            } else {
                below.push(at)?;
            }
        }
        Ok((here, below))
    }

    /// Settles these, each of which may be followed for fewer steps than this. Gives those that are open
    /// still.
    #[cycle(settle)]
    fn settle_below(
        &mut self,
        sources: &ItemSources<'_>,
        table: &mut InferenceTable,
        bounded: bool,
        below: Vec<usize>,
        depth: u32,
    ) -> Result<Vec<usize>, AllocError>
        requires kept { AreKept sources.now.facts (system sources.now.sources) table.old self.old }
        requires below { AreBelow self.old.tree depth below.items }
        ensures kept { OnOk result (AreKept sources.now.facts (system sources.now.sources) table.new self.new) }
        ensures went { OnOk result (Went sources.now.facts (system sources.now.sources) bounded table.old self.old table.new self.new) }
        ensures below { IfOk result (λ left. AreBelow self.new.tree depth left.items) }
        ensures all { IfOk result (λ left. KeepsOpen self.old.tree below.items self.new.tree left.items) }
        ensures settled { IfOk result (λ left. AreSettled sources.now.facts (system sources.now.sources) bounded table.new self.new left.items) }
    {
        match depth.checked_sub(1) {
            Some(depth) => self.settle(sources, table, bounded, below, depth),
            None => Ok(below),
        }
    }

    /// Selects these, each of which may be followed for at most so many steps, and what their sources ask
    /// for, until nothing selects any more. Gives those that are open still.
    #[cycle(settle)]
    fn settle(
        &mut self,
        sources: &ItemSources<'_>,
        table: &mut InferenceTable,
        bounded: bool,
        numbers: Vec<usize>,
        depth: u32,
    ) -> Result<Vec<usize>, AllocError>
        requires kept { AreKept sources.now.facts (system sources.now.sources) table.old self.old }
        requires within { AreWithin self.old.tree depth numbers.items }
        ensures kept { OnOk result (AreKept sources.now.facts (system sources.now.sources) table.new self.new) }
        ensures went { OnOk result (Went sources.now.facts (system sources.now.sources) bounded table.old self.old table.new self.new) }
        ensures within { IfOk result (λ left. AreWithin self.new.tree depth left.items) }
        ensures all { IfOk result (λ left. KeepsOpen self.old.tree numbers.items self.new.tree left.items) }
        ensures settled { IfOk result (λ left. AreSettled sources.now.facts (system sources.now.sources) bounded table.new self.new left.items) }
    {
        let (mut here, mut below) = self.split(numbers, depth)?;
        loop {
            below = self.settle_below(sources, table, bounded, below, depth)?;
            let count = here.len();
            here = self.scan(sources, table, bounded, here, &mut below)?;
            if here.len() == count {
                break;
            }
        }
        here.append(&mut below)?;
        Ok(here)
    }

    /// Wakes those of which more is known since they fell asleep.
    fn wake(&mut self, table: &InferenceTable) -> Result<(), AllocError>
        ensures tree { self.new.tree ≡ self.old.tree }
        ensures selected { self.new.selected ≡ self.old.selected }
        ensures all { OnOk result (WakesAll table.now self.old self.new) }
    {
        self.asleep.wake(table, &mut self.todo)?;
        Ok(())
    }

    /// Lets those sleep that were to be looked at.
    fn sleep_all(&mut self, table: &InferenceTable) -> Result<(), AllocError>
        requires { AreThere self.old.tree self.old.todo.items }
        ensures tree { self.new.tree ≡ self.old.tree }
        ensures selected { self.new.selected ≡ self.old.selected }
        ensures todo { OnOk result (self.new.todo.items ≡ []) }
        ensures all { OnOk result ((f : System) → SleepsAll f table.now self.old self.new) }
    {
        let numbers = std::mem::replace(&mut self.todo, Vec::new(self.alloc));
        for at in numbers {
            sleep_one(self.alloc, table, &self.tree, at, &mut self.asleep)?;
        }
        Ok(())
    }

    /// Selects these, and what their sources ask for, until nothing selects any more: those that are open
    /// still are to be looked at again.
    fn settle_these(
        &mut self,
        sources: &ItemSources<'_>,
        table: &mut InferenceTable,
        bounded: bool,
        numbers: Vec<usize>,
    ) -> Result<(), AllocError>
        requires kept { AreKept sources.now.facts (system sources.now.sources) table.old self.old }
        requires within { AreWithin self.old.tree sources.now.facts.limits.goal_depth numbers.items }
        ensures kept { OnOk result (AreKept sources.now.facts (system sources.now.sources) table.new self.new) }
        ensures went { OnOk result (Went sources.now.facts (system sources.now.sources) bounded table.old self.old table.new self.new) }
        ensures there { OnOk result (AreThere self.new.tree self.new.todo.items) }
        ensures all { OnOk result (KeepsOpen self.old.tree numbers.items self.new.tree self.new.todo.items) }
        ensures settled { OnOk result (AreSettled sources.now.facts (system sources.now.sources) bounded table.new self.new self.new.todo.items) }
        ensures asleep { OnOk result (self.new.asleep ≡ self.old.asleep) }
    {
        let depth = sources.facts().raw().limits.goal_depth;
        let asleep = std::mem::replace(&mut self.asleep, Sleepers::new(self.alloc));
        self.todo = self.settle(sources, table, bounded, numbers, depth)?;
        self.asleep = asleep;
        Ok(())
    }

    /// Selects what can be selected, whatever was found of it before: without a bound, which is at the end.
    fn select_all(
        &mut self,
        sources: &ItemSources<'_>,
        table: &mut InferenceTable,
    ) -> Result<(), AllocError>
        requires kept { AreKept sources.now.facts (system sources.now.sources) table.old self.old }
        requires all { HasAllOpen (system sources.now.sources) table.old self.old }
        ensures kept { OnOk result (AreKept sources.now.facts (system sources.now.sources) table.new self.new) }
        ensures all { OnOk result (HasAllOpen (system sources.now.sources) table.new self.new) }
        ensures went { OnOk result (Went sources.now.facts (system sources.now.sources) false table.old self.old table.new self.new) }
        ensures none_left { OnOk result (NoneLeft sources.now.facts (system sources.now.sources) false table.new self.new) }
    {
        let mut numbers = Vec::new(self.alloc);
        self.push_new(0, &mut numbers)?;
        self.settle_these(sources, table, false, numbers)?;
        Ok(())
    }

    /// Selects those that are to be looked at, and wakes those of which that told more; where nothing was
    /// selected, they sleep. Whether something was.
    fn select_round(
        &mut self,
        sources: &ItemSources<'_>,
        table: &mut InferenceTable,
    ) -> Result<bool, AllocError>
        requires kept { AreKept sources.now.facts (system sources.now.sources) table.old self.old }
        requires since { HasAllSince (system sources.now.sources) table.old self.old }
        ensures kept { OnOk result (AreKept sources.now.facts (system sources.now.sources) table.new self.new) }
        ensures went { OnOk result (Went sources.now.facts (system sources.now.sources) true table.old self.old table.new self.new) }
        ensures ends { IfOk result (λ more. EndsRound sources.now.facts (system sources.now.sources) self.old table.new self.new more) }
    {
        let before = self.selected;
        let numbers = std::mem::replace(&mut self.todo, Vec::new(self.alloc));
        self.settle_these(sources, table, true, numbers)?;
        if self.selected != before {
            self.wake(table)?;
            return Ok(true);
        }
        if self.are_used_up(sources, true) {
            return Ok(false);
        }
        self.sleep_all(table)?;
        Ok(false)
    }

    /// Selects what can be selected under a bound: only those are looked at that are new, or of which more
    /// is known since nothing selected them.
    fn select_awake(
        &mut self,
        sources: &ItemSources<'_>,
        table: &mut InferenceTable,
    ) -> Result<(), AllocError>
        requires kept { AreKept sources.now.facts (system sources.now.sources) table.old self.old }
        requires all { HasAllOpen (system sources.now.sources) table.old self.old }
        ensures kept { OnOk result (AreKept sources.now.facts (system sources.now.sources) table.new self.new) }
        ensures all { OnOk result (HasAllOpen (system sources.now.sources) table.new self.new) }
        ensures went { OnOk result (Went sources.now.facts (system sources.now.sources) true table.old self.old table.new self.new) }
        ensures none_left { OnOk result (NoneLeft sources.now.facts (system sources.now.sources) true table.new self.new) }
    {
        if self.are_used_up(sources, true) {
            return Ok(());
        }
        self.wake(table)?;
        'round: loop {
            if !self.select_round(sources, table)? {
                return Ok(());
            }
        }
    }

    /// Selects what can be selected, and what that asks for, until nothing selects any more.
    pub fn select_where_possible(
        &mut self,
        sources: &ItemSources<'_>,
        table: &mut InferenceTable,
        bounded: bool,
    ) -> Result<(), AllocError>
        requires kept { AreKept sources.now.facts (system sources.now.sources) table.old self.old }
        requires all { HasAllOpen (system sources.now.sources) table.old self.old }
        ensures kept { OnOk result (AreKept sources.now.facts (system sources.now.sources) table.new self.new) }
        ensures all { OnOk result (HasAllOpen (system sources.now.sources) table.new self.new) }
        ensures went { OnOk result (Went sources.now.facts (system sources.now.sources) bounded table.old self.old table.new self.new) }
        ensures none_left { OnOk result (NoneLeft sources.now.facts (system sources.now.sources) bounded table.new self.new) }
    {
        if bounded {
            self.select_awake(sources, table)?;
            return Ok(());
        }
        self.select_all(sources, table)?;
        Ok(())
    }

    /// A copy of all.
    pub fn dup(&self) -> Result<Obligations, AllocError>
        ensures copied { IfOk result (λ copy. IsCopied self.now copy) }
        ensures selected { IfOk result (λ copy. copy.selected ≡ self.now.selected) }
    {
        Ok(Obligations {
            alloc: self.alloc,
            tree: self.tree.dup()?,
            todo: Vec::from_slice(self.alloc, self.todo.as_slice())?,
            asleep: self.asleep.dup()?,
            selected: self.selected,
        })
    }
}
