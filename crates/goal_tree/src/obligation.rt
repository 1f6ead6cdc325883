//! Goals that were asked.
ghost use Rattle.std.specs.Prelude.{◌≡◌, ◌∷◌, ◌++◌, [], IfOk, OnOk};
ghost use Rattle.goal_tree.specs.Own.{is_pending, pending_of};

use goal_facts::{ExprOrPatId, Goal, ProofSource};
use std::alloc::{AllocError, Global};

/// A goal that a node asks, or that the source of another asks.
#[derive(Debug, Drop)]
pub struct Obligation {
    pub goal: Goal,
    pub node: ExprOrPatId,
    /// How many steps it may be followed.
    pub depth: u32,
    /// The number of the one whose source asks it.
    pub parent: Option<usize>,
}

/// How far an obligation came.
#[derive(Debug, Drop)]
pub enum Standing {
    /// It has no source yet.
    Open,
    /// It has a source, which asks for so many obligations from this number on, not all of them proved.
    Selected {
        source: ProofSource,
        first: usize,
        count: usize,
    },
    /// It is proved, by the proof with this number, and so are those that its source asks for.
    Proved {
        proof: usize,
        first: usize,
        count: usize,
    },
}

impl Standing {
    /// An equal copy.
    pub(crate) fn dup(&self, alloc: Global) -> Result<Standing, AllocError>
        ensures { IfOk result (λ copy. copy ≡ self.now) }
    {
        match self {
            Standing::Open => Ok(Standing::Open),
            Standing::Selected {
                source,
                first,
                count,
            } => Ok(Standing::Selected {
                source: source.dup(alloc)?,
                first: *first,
                count: *count,
            }),
            Standing::Proved {
                proof,
                first,
                count,
            } => Ok(Standing::Proved {
                proof: *proof,
                first: *first,
                count: *count,
            }),
        }
    }
}

impl Obligation {
    /// An equal copy.
    pub(crate) fn dup(&self, alloc: Global) -> Result<Obligation, AllocError>
        ensures { IfOk result (λ copy. copy ≡ self.now) }
    {
        Ok(Obligation {
            goal: self.goal.dup(alloc)?,
            node: self.node,
            depth: self.depth,
            parent: self.parent,
        })
    }

    /// Whether a node asks it, and it has no proof, where it came so far.
    pub fn is_pending(&self, standing: &Standing) -> bool
        ensures { result ≡ is_pending self.now standing.now }
    {
        match standing {
            Standing::Open | Standing::Selected { .. } => self.parent.is_none(),
            Standing::Proved { .. } => false,
        }
    }

    /// Adds its goal and node to those that are pending, if it is.
    pub(crate) fn add_pending(
        &self,
        alloc: Global,
        standing: &Standing,
        pending: &mut Vec<(Goal, ExprOrPatId)>,
    ) -> Result<(), AllocError>
        ensures { OnOk result (pending.new.items ≡ pending.old.items ++ pending_of (self.now ∷ []) (standing.now ∷ [])) }
    {
        if !self.is_pending(standing) {
            return Ok(());
        }
        let goal = self.goal.dup(alloc)?;
        pending.push((goal, self.node))?;
        Ok(())
    }
}
