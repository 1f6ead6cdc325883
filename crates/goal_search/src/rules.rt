//! The parts of rules that are compared with a goal.
ghost use Rattle.std.specs.Prelude.{◌≡◌};
ghost use Rattle.goal_search.specs.Words.{leaf, term_of};
ghost use Rattle.hir_types.specs.declared.head.Head.TheVariants as head;
ghost use Rattle.goal_search.specs.Own.{asked_list, rule_of, side_part, side_preds};

use crate::parts::key_of;
use crate::sources::{Asked, Rule};
use goal_terms::Term;

/// What of a rule is compared.
#[derive(Clone, Copy, Debug, PartialEq, Eq)]
pub enum Side {
    /// Its head, at which its predicates have to hold.
    Whole,
    /// What tells its holes: the arguments of its trait, or of its alias. Its predicates have to hold.
    Args,
    /// The same, whether or not they do.
    Key,
}

impl Side {
    /// What is compared. `end` is the end of a list, for a head that has no arguments.
    pub fn part<'a>(self, rule: &'a Rule, end: &'a Term) -> &'a Term
        requires { term_of end.now ≡ leaf head.End }
        ensures { term_of result.now ≡ side_part self (rule_of rule.now) }
    {
        match self {
            Side::Whole => &rule.head.parts,
            Side::Args | Side::Key => key_of(rule.head.kind, &rule.head.parts, end),
        }
    }

    /// The predicates that have to hold.
    pub fn preds(self, rule: &Rule) -> &[Asked]
        ensures { asked_list result.now ≡ side_preds self (rule_of rule.now) }
    {
        match self {
            Side::Whole | Side::Args => rule.preds.as_slice(),
            Side::Key => &[],
        }
    }
}
