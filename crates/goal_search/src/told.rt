//! Whether the holes of a rule are told by its key.
ghost use Rattle.std.specs.Prelude.{◌≡◌, ◌↔◌, IsTrue};
ghost use Rattle.goal_search.specs.Words.{leaf, hole_eq, stands, Each, IsToldBy, term_of};
ghost use Rattle.hir_types.specs.declared.head.Head.TheVariants as head;
ghost use Rattle.goal_search.specs.Words.goal_answers.Goals.{IsTold};
ghost use Rattle.goal_search.specs.Own.{asked_list, rule_of};

use crate::parts::key_of;
use crate::sources::{Asked, Rule};
use goal_terms::{Role, Term};
use hir_types::{Head, Hole};

fn is_hole(left: Hole, right: Hole) -> bool
    ensures { result ≡ hole_eq left right }
{
    match (left, right) {
        (Hole::Ty(m), Hole::Ty(n)) => m == n,
        (Hole::Int(m), Hole::Int(n)) => m == n,
        (Hole::Const(m), Hole::Const(n)) => m == n,
        _ => false,
    }
}

/// Whether the hole stands in the term, and outside of aliases that are still to be read.
#[tactic(auto, using(crate::specs::Words::term_is))]
fn is_told_hole(hole: Hole, by: &Term) -> bool
    ensures { result ≡ stands hole (term_of by.now) }
{
    match by {
        Term::Hole(other) => is_hole(hole, *other),
        Term::Leaf(_) => false,
        Term::Pair(first, second) => match first.get().role() {
            Role::Alias(_) => false,
            Role::Plain => is_told_hole(hole, first.get()) || is_told_hole(hole, second.get()),
        },
    }
}

/// Whether each hole of the term stands in the key, outside of aliases.
#[tactic(auto, using(crate::specs::Words::term_is))]
fn is_told_by(by: &Term, term: &Term) -> bool
    ensures { IsTrue result ↔ IsToldBy (term_of by.now) (term_of term.now) }
{
    match term {
        Term::Hole(hole) => is_told_hole(*hole, by),
        Term::Leaf(_) => true,
        Term::Pair(first, second) => { is_told_by(by, first.get()) && is_told_by(by, second.get()) }
    }
}

fn are_told_by(by: &Term, goals: &[Asked]) -> bool
    ensures { IsTrue result ↔ Each (λ q. IsToldBy (term_of by.now) q.parts) (asked_list goals.now) }
{
    for goal in goals {
        if !is_told_by(by, &goal.parts) {
            return false;
        }
    }
    true
}

/// Whether each hole of the rule is told by its key.
pub fn is_told(rule: &Rule, end: &Term) -> bool
    requires { term_of end.now ≡ leaf head.End }
    ensures { IsTrue result ↔ IsTold (rule_of rule.now) }
{
    let key = key_of(rule.head.kind, &rule.head.parts, end);
    is_told_by(key, &rule.head.parts) && are_told_by(key, &rule.preds)
}
