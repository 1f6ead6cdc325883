//! Goals that were asked, with their sources and proofs.
ghost use Rattle.std.specs.Prelude.{◌≡◌, ◌↔◌, ◌<◌, ◌≤◌, ◌+◌, ◌∷◌, [], Some, length, map, slice_get, slice_set, IsTrue, IfOk, OnOk};
ghost use Rattle.goal_tree.specs.Own.{IsTree, IsTreeBut, IsOpenAt, IsWaitingAt, registered, asked_by, IsAsked, AreProvedAs, IsProvedNext, IsMoreProved, IsProvedUpTo, IsSelectedBy, IsCopied, pending_of};

use crate::obligation::{Obligation, Standing};
use goal_facts::{ExprOrPatId, Goal, List, Proof, ProofSource};
use std::alloc::{AllocError, Global};

/// The goals that were asked, in their order. Behind one that has a source stand those that this asks for.
#[derive(Debug, Drop)]
pub struct GoalTree {
    alloc: Global,
    obligations: Vec<Obligation>,
    standings: Vec<Standing>,
    proofs: Vec<Proof>,
}

impl GoalTree {
    /// No goals.
    pub fn new(alloc: Global) -> GoalTree
        ensures tree { IsTree result }
        ensures none { result.obligations.items ≡ [] }
        ensures no_proofs { result.proofs.items ≡ [] }
    {
        GoalTree {
            alloc,
            obligations: Vec::new(alloc),
            standings: Vec::new(alloc),
            proofs: Vec::new(alloc),
        }
    }

    /// How many goals were asked.
    pub fn len(&self) -> usize
        ensures { result ≡ length self.now.obligations.items }
    {
        self.obligations.len()
    }

    /// The one with this number.
    pub fn obligation(&self, at: usize) -> &Obligation
        requires { at < length self.now.obligations.items }
        ensures { slice_get self.now.obligations.items at ≡ Some result.now }
    {
        &self.obligations.as_slice()[at]
    }

    /// How far the one with this number came.
    pub fn standing(&self, at: usize) -> &Standing
        requires { at < length self.now.standings.items }
        ensures { slice_get self.now.standings.items at ≡ Some result.now }
    {
        &self.standings.as_slice()[at]
    }

    /// Whether the one with this number has no source yet.
    pub fn is_open(&self, at: usize) -> bool
        ensures { IsTrue result ↔ IsOpenAt self.now.standings.items at }
    {
        match self.standings.get(at) {
            Some(Standing::Open) => true,
            Some(Standing::Selected { .. }) | Some(Standing::Proved { .. }) | None => false,
        }
    }

    fn push(&mut self, obligation: Obligation) -> Result<(), AllocError>
        ensures { OnOk result (IsAsked self.old self.new (obligation ∷ [])) }
    {
        self.obligations.push(obligation)?;
        self.standings.push(Standing::Open)?;
        Ok(())
    }

    /// Asks a goal for a node, which may be followed for so many steps.
    pub fn register(&mut self, goal: Goal, node: ExprOrPatId, depth: u32) -> Result<(), AllocError>
        requires { IsTree self.old }
        ensures tree { OnOk result (IsTree self.new) }
        ensures asked { OnOk result (IsAsked self.old self.new (registered goal node depth ∷ [])) }
    {
        self.push(Obligation {
            goal,
            node,
            depth,
            parent: None,
        })
    }

    /// Asks goals for the source of the one with this number.
    fn ask(
        &mut self,
        goals: Vec<Goal>,
        node: ExprOrPatId,
        depth: u32,
        parent: usize,
    ) -> Result<(), AllocError>
        ensures { OnOk result (IsAsked self.old self.new (map (asked_by node depth parent) goals.items)) }
    {
        for goal in goals {
            self.push(Obligation {
                goal,
                node,
                depth,
                parent: Some(parent),
            })?;
        }
        Ok(())
    }

    /// The numbers of the proofs of so many obligations, where all are proved.
    fn proofs_of(&self, first: usize, count: usize) -> Result<Option<List<usize>>, AllocError>
        requires { first + count ≤ length self.now.standings.items }
        ensures { IfOk result (λ found. AreProvedAs self.now.standings.items first count found) }
    {
        let mut numbers = List::new(self.alloc);
        for at in first..first + count {
            match &self.standings.as_slice()[at] {
                Standing::Proved { proof, .. } => numbers.push(*proof)?,
                Standing::Open | Standing::Selected { .. } => return Ok(None),
            }
        }
        Ok(Some(numbers))
    }

    /// Keeps how far the one with this number came.
    fn put(&mut self, at: usize, standing: Standing)
        requires { at < length self.old.standings.items }
        ensures obligations { self.new.obligations.items ≡ self.old.obligations.items }
        ensures standings { self.new.standings.items ≡ slice_set self.old.standings.items at standing }
        ensures proofs { self.new.proofs.items ≡ self.old.proofs.items }
    {
        self.standings[at] = standing;
    }

    /// Keeps the proof of the one with this number, whose source asks for so many from another on.
    fn prove(
        &mut self,
        at: usize,
        proof: Proof,
        first: usize,
        count: usize,
    ) -> Result<(), AllocError>
        requires { at < length self.old.standings.items }
        ensures { OnOk result (IsProvedNext self.old self.new at proof first count) }
    {
        let number = self.proofs.len();
        self.proofs.push(proof)?;
        let proved = Standing::Proved {
            proof: number,
            first,
            count,
        };
        self.put(at, proved);
        Ok(())
    }

    /// Proves the one with this number where all that its source asks for is proved, and says which one
    /// asks for it, since that may be proved next.
    fn advance(&mut self, at: usize) -> Result<Option<usize>, AllocError>
        requires tree { IsTreeBut (λ i. i ≡ at) self.old }
        requires waiting { IsWaitingAt self.old.standings.items at }
        ensures { IfOk result (λ parent. IsProvedUpTo self.old self.new at parent) }
    {
        let Standing::Selected {
            source,
            first,
            count,
        } = &self.standings.as_slice()[at]
        else {
            return Ok(None);
        };
        let (first, count) = (*first, *count);
        let Some(children) = self.proofs_of(first, count)? else {
            return Ok(None);
        };
        let proof = Proof {
            goal: self.obligation(at).goal.dup(self.alloc)?,
            source: source.dup(self.alloc)?,
            children,
        };
        self.prove(at, proof, first, count)?;
        Ok(self.obligation(at).parent)
    }

    /// Proves the one with this number and those that wait for it, as far as it goes.
    fn finish(&mut self, at: usize) -> Result<(), AllocError>
        requires tree { IsTreeBut (λ i. i ≡ at) self.old }
        requires waiting { IsWaitingAt self.old.standings.items at }
        ensures tree { OnOk result (IsTree self.new) }
        ensures proved { OnOk result (IsMoreProved self.old self.new) }
    {
        let mut at = at;
        while let Some(parent) = self.advance(at)? {
            at = parent;
        }
        Ok(())
    }

    /// Selects an open one by a source, which asks for these goals, and proves what is proved by that.
    pub fn select(
        &mut self,
        at: usize,
        source: ProofSource,
        goals: Vec<Goal>,
    ) -> Result<(), AllocError>
        requires tree { IsTree self.old }
        requires is_open { IsOpenAt self.old.standings.items at }
        ensures tree { OnOk result (IsTree self.new) }
        ensures selected { OnOk result (IsSelectedBy self.old self.new at source goals.items) }
    {
        let first = self.len();
        let count = goals.len();
        let asking = self.obligation(at);
        let (node, depth) = (asking.node, asking.depth.saturating_sub(1));
        self.ask(goals, node, depth, at)?;
        let selected = Standing::Selected {
            source,
            first,
            count,
        };
        self.put(at, selected);
        self.finish(at)?;
        Ok(())
    }

    /// The goals of nodes that have no proof, with their nodes, in the order in which they were asked.
    pub fn pending(&self) -> Result<Vec<(Goal, ExprOrPatId)>, AllocError>
        requires { IsTree self.now }
        ensures { IfOk result (λ made. made.items ≡ pending_of self.now.obligations.items self.now.standings.items) }
    {
        let mut pending = Vec::new(self.alloc);
        for at in 0..self.len() {
            let standing = &self.standings.as_slice()[at];
            self.obligation(at)
                .add_pending(self.alloc, standing, &mut pending)?;
        }
        Ok(pending)
    }

    /// The proofs, by their numbers.
    pub fn proofs(&self) -> Result<Vec<Proof>, AllocError>
        ensures { IfOk result (λ made. made.items ≡ self.now.proofs.items) }
    {
        let mut copies = Vec::new(self.alloc);
        for proof in self.proofs.as_slice() {
            copies.push(proof.dup(self.alloc)?)?;
        }
        Ok(copies)
    }

    /// The goals that were asked: copies, in their order.
    fn obligations(&self) -> Result<Vec<Obligation>, AllocError>
        ensures { IfOk result (λ made. made.items ≡ self.now.obligations.items) }
    {
        let mut copies = Vec::new(self.alloc);
        for obligation in self.obligations.as_slice() {
            copies.push(obligation.dup(self.alloc)?)?;
        }
        Ok(copies)
    }

    /// How far they came: copies, in their order.
    fn standings(&self) -> Result<Vec<Standing>, AllocError>
        ensures { IfOk result (λ made. made.items ≡ self.now.standings.items) }
    {
        let mut copies = Vec::new(self.alloc);
        for standing in self.standings.as_slice() {
            copies.push(standing.dup(self.alloc)?)?;
        }
        Ok(copies)
    }

    /// A copy of all.
    pub fn dup(&self) -> Result<GoalTree, AllocError>
        ensures { IfOk result (λ copy. IsCopied self.now copy) }
    {
        Ok(GoalTree {
            alloc: self.alloc,
            obligations: self.obligations()?,
            standings: self.standings()?,
            proofs: self.proofs()?,
        })
    }
}
