//! Terms: types and lists of their arguments, as a search sees them.
ghost use Rattle.std.specs.Prelude.{◌≡◌, ◌↔◌, IsTrue, IfOk};
ghost use Rattle.goal_terms.specs.Words.{leaf, pair, hole_eq, role, IsRead};
ghost use Rattle.goal_terms.specs.Own.{term_of, role_of, HasHeads};

use hir_types::{Boxed, Head, Hole, TypeAliasId};
use std::alloc::{AllocError, Global};

/// A hole, a head, or two parts.
#[derive(Debug, Drop, PartialEq, Eq, Hash)]
pub enum Term {
    Hole(Hole),
    Leaf(Head),
    Pair(Boxed<Term>, Boxed<Term>),
}

/// What the first part of a pair makes of it: an alias that is still to be read, or a term of two
/// parts.
#[derive(Clone, Copy, Debug, PartialEq, Eq, Hash)]
pub enum Role {
    Plain,
    Alias(TypeAliasId),
}

pub(crate) fn is_same_hole(left: Hole, right: Hole) -> bool
    ensures tested { result ≡ hole_eq left right }
    ensures same { IsTrue result ↔ (left ≡ right) }
{
    match (left, right) {
        (Hole::Ty(m), Hole::Ty(n)) => m == n,
        (Hole::Int(m), Hole::Int(n)) => m == n,
        (Hole::Const(m), Hole::Const(n)) => m == n,
        _ => false,
    }
}

pub(crate) fn is_same_head(left: Head, right: Head) -> bool
    ensures { IsTrue result ↔ (left ≡ right) }
{
    left == right
}

fn head_role(head: Head) -> Role
    ensures { role_of result ≡ role (leaf head) }
{
    match head {
        Head::Projection(alias) => Role::Alias(alias),
        _ => Role::Plain,
    }
}

impl Term {
    /// The term of these two parts.
    #[tactic(auto, using(crate::specs::Terms::term_is))]
    pub fn join(alloc: Global, left: Term, right: Term) -> Result<Term, AllocError>
        ensures is { IfOk result (λ made. term_of made ≡ pair (term_of left) (term_of right)) }
        ensures heads { HasHeads (pair (term_of left) (term_of right)) → IfOk result (λ made. HasHeads (term_of made)) }
    {
        let left = Boxed::new(alloc, left)?;
        let right = Boxed::new(alloc, right)?;
        Ok(Term::Pair(left, right))
    }

    /// An equal copy.
    #[tactic(auto, using(crate::specs::Terms::term_is))]
    pub fn dup(&self, alloc: Global) -> Result<Term, AllocError>
        ensures { IfOk result (λ copy. term_of copy ≡ term_of self.now) }
    {
        match self {
            Term::Hole(hole) => Ok(Term::Hole(*hole)),
            Term::Leaf(head) => Ok(Term::Leaf(*head)),
            Term::Pair(left, right) => {
                let left = left.get().dup(alloc)?;
                let right = right.get().dup(alloc)?;
                Term::join(alloc, left, right)
            }
        }
    }

    /// Whether the two terms are equal.
    #[tactic(auto, using(crate::specs::Terms::term_is))]
    pub fn is_same(&self, other: &Term) -> bool
        ensures { IsTrue result ↔ (term_of self.now ≡ term_of other.now) }
    {
        match self {
            Term::Hole(left) => match other {
                Term::Hole(right) => is_same_hole(*left, *right),
                Term::Leaf(_) | Term::Pair(_, _) => false,
            },
            Term::Leaf(left) => match other {
                Term::Leaf(right) => is_same_head(*left, *right),
                Term::Hole(_) | Term::Pair(_, _) => false,
            },
            Term::Pair(left, left_rest) => match other {
                Term::Pair(right, right_rest) => {
                    left.get().is_same(right.get()) && left_rest.get().is_same(right_rest.get())
                }
                Term::Hole(_) | Term::Leaf(_) => false,
            },
        }
    }

    /// Whether the term is this head.
    #[tactic(auto, using(crate::specs::Terms::term_is))]
    pub(crate) fn is_leaf(&self, head: Head) -> bool
        ensures { IsTrue result ↔ (term_of self.now ≡ leaf head) }
    {
        match self {
            Term::Leaf(own) => is_same_head(*own, head),
            Term::Hole(_) | Term::Pair(_, _) => false,
        }
    }

    /// What the term makes of the pair of which it is the first part.
    #[tactic(auto, using(crate::specs::Terms::term_is))]
    pub fn role(&self) -> Role
        ensures { role_of result ≡ role (term_of self.now) }
    {
        match self {
            Term::Leaf(head) => head_role(*head),
            Term::Hole(_) | Term::Pair(_, _) => Role::Plain,
        }
    }

    /// Whether no alias is left to be read in the term.
    #[tactic(auto, using(crate::specs::Terms::term_is))]
    pub fn is_read(&self) -> bool
        ensures { IsTrue result ↔ IsRead (term_of self.now) }
    {
        match self {
            Term::Hole(_) => true,
            Term::Leaf(head) => match head_role(*head) {
                Role::Plain => true,
                Role::Alias(_) => false,
            },
            Term::Pair(left, right) => left.get().is_read() && right.get().is_read(),
        }
    }
}
