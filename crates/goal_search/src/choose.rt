//! Which source a goal is selected by.
ghost use Rattle.std.specs.Prelude.{◌≡◌, ◌↔◌, ◌+◌, ◌<◌, IfOk, IsTrue, option_map};
ghost use Rattle.goal_search.specs.Words.{Each, Proves, RuleIsRefuted, answers, known_below, IsTraitKind, IsSelectable, HasConcreteHead, IsOnlySource, StatesGoal, SizeIsBy, IsChoice, term_of, HasHeads};
ghost use Rattle.goal_search.specs.Own.{kind_of, asked_of, rule_of, rules_of, system, IsDone, RuleHasHeads, choice_of, IsSomeAt, IsLeft, IsRow, IsBy, IsConcreteIf};

use crate::answer::{is_no, is_yes};
use crate::holes::Holes;
use crate::parts::{is_among, is_known, is_same_kind};
use crate::rows::{Copies, copied_goals};
use crate::rules::Side;
use crate::search::Search;
use crate::sources::{Asked, Kind, Rule};
use goal_terms::{Term, is_concrete};
use std::alloc::AllocError;

/// What a goal is selected by.
#[derive(Clone, Copy, Debug, PartialEq, Eq)]
pub enum Choice {
    /// The clause of this number.
    Clause(usize),
    /// The rule of this number.
    Rule(usize),
    /// That the parts of its self type are copied.
    Parts,
    /// That its self type has a size.
    Size,
}

/// Which rules are left that aren't refuted.
#[derive(Clone, Copy, Debug, PartialEq, Eq)]
pub enum Left {
    Nothing,
    /// The one of this number.
    One(usize),
    Several,
}

/// What is known of whether a goal holds because its self type is copied with its parts.
#[derive(Clone, Copy, Debug, PartialEq, Eq)]
pub enum Row {
    Refuted,
    /// It does where each of its parts is copied, and none is known not to be.
    OfParts,
    /// The parts aren't known.
    Unclear,
}

fn is_trait_kind(kind: Kind) -> bool
    ensures { IsTrue result ↔ IsTraitKind (kind_of kind) }
{
    match kind {
        Kind::Implements(_) => true,
        Kind::Projects(_) => false,
    }
}

/// Whether a goal is about a trait, and concrete, and its self type is no hole.
fn is_selectable(goal: &Asked) -> bool
    ensures { IsTrue result ↔ IsSelectable (asked_of goal.now) }
{
    is_trait_kind(goal.kind) && is_concrete(&goal.parts) && is_known(&goal.parts)
}

/// Whether the head of the rule of this number is concrete, where there is one.
fn has_concrete_head(rules: &[Rule], number: usize) -> bool
    ensures { IsTrue result ↔ HasConcreteHead (rules_of rules.now) number }
{
    match rules.get(number) {
        Some(rule) => is_concrete(&rule.head.parts),
        None => true,
    }
}

/// The choice of the rule of this number, where its head is concrete.
fn if_concrete(rules: &[Rule], number: usize, choice: Choice) -> Option<Choice>
    ensures { IsConcreteIf (rules_of rules.now) number choice result }
{
    if has_concrete_head(rules, number) {
        Some(choice)
    } else {
        None
    }
}

/// The step at which a goal is answered at the depth.
fn step_at(depth: u32) -> Result<u32, AllocError>
    ensures { IfOk result (λ step. step ≡ depth + 1) }
{
    depth.checked_add(1).ok_or(AllocError)
}

impl<'a> Search<'a> {
    /// Whether the rule's head is the goal, and its predicates are Yes.
    fn proves(
        &mut self,
        rule: &Rule,
        kind: Kind,
        target: &Term,
        depth: u32,
    ) -> Result<bool, AllocError>
        requires rule { RuleHasHeads (rule_of rule.now) }
        requires target { IsDone (term_of target.now) }
        ensures same { self.new ≡ self.old }
        ensures answer { IfOk result (λ yes. IsTrue yes ↔ Proves (answers (system self.old) depth).Alias (known_below (system self.old) depth).Yes (kind_of kind) (term_of target.now) (rule_of rule.now)) }
    {
        if !is_same_kind(rule.head.kind, kind) {
            return Ok(false);
        }
        match self.fits(rule, Side::Whole, target, depth, depth)? {
            Some(_) => Ok(true),
            None => Ok(false),
        }
    }

    /// The same, and the head is concrete.
    fn states_goal(
        &mut self,
        rule: &Rule,
        kind: Kind,
        target: &Term,
        depth: u32,
    ) -> Result<bool, AllocError>
        requires rule { RuleHasHeads (rule_of rule.now) }
        requires target { IsDone (term_of target.now) }
        ensures same { self.new ≡ self.old }
        ensures answer { IfOk result (λ yes. IsTrue yes ↔ StatesGoal (answers (system self.old) depth).Alias (known_below (system self.old) depth) (kind_of kind) (term_of target.now) (rule_of rule.now)) }
    {
        if !is_concrete(&rule.head.parts) {
            return Ok(false);
        }
        Ok(self.proves(rule, kind, target, depth)?)
    }

    /// The number of the first clause that states the goal.
    fn proving_clause(
        &mut self,
        kind: Kind,
        target: &Term,
        depth: u32,
    ) -> Result<Option<usize>, AllocError>
        requires target { IsDone (term_of target.now) }
        ensures same { self.new ≡ self.old }
        ensures answer { IfOk result (λ found. IsSomeAt (StatesGoal (answers (system self.old) depth).Alias (known_below (system self.old) depth) (kind_of kind) (term_of target.now)) (system self.old).clauses found) }
    {
        let sources = self.sources();
        for (number, clause) in sources.clauses.iter().enumerate() {
            if self.states_goal(clause, kind, target, depth)? {
                return Ok(Some(number));
            }
        }
        Ok(None)
    }

    /// By what a type has a size that is known to have one.
    fn choose_size(
        &mut self,
        kind: Kind,
        target: &Term,
        depth: u32,
    ) -> Result<Option<Choice>, AllocError>
        requires kind { IsTraitKind (kind_of kind) }
        requires target { IsDone (term_of target.now) }
        ensures same { self.new ≡ self.old }
        ensures answer { IfOk result (λ found. IsBy (SizeIsBy (system self.old) (answers (system self.old) depth).Alias (known_below (system self.old) depth) (kind_of kind) (term_of target.now)) (option_map choice_of found)) }
    {
        if let Some(number) = self.proving_clause(kind, target, depth)? {
            return Ok(Some(Choice::Clause(number)));
        }
        let clauses = self.sources().clauses.as_slice();
        if !is_no(self.ask_rules(clauses, Side::Key, kind, target, depth, depth)?) {
            return Ok(None);
        }
        Ok(Some(Choice::Size))
    }

    /// Whether the rule is of another kind, or its head is apart from the goal, or fails wherever it is not.
    fn is_out(
        &mut self,
        rule: &Rule,
        kind: Kind,
        target: &Term,
        depth: u32,
    ) -> Result<bool, AllocError>
        requires rule { RuleHasHeads (rule_of rule.now) }
        requires target { IsDone (term_of target.now) }
        ensures same { self.new ≡ self.old }
        ensures answer { IfOk result (λ yes. IsTrue yes ↔ RuleIsRefuted (answers (system self.old) depth).Alias (known_below (system self.old) depth) (kind_of kind) (term_of target.now) (rule_of rule.now)) }
    {
        if !is_same_kind(rule.head.kind, kind) {
            return Ok(true);
        }
        Ok(self.is_refuted(rule, Side::Whole, target, depth, depth)?)
    }

    /// Which of the rules are left that aren't refuted.
    fn left_of(
        &mut self,
        rules: &[Rule],
        kind: Kind,
        target: &Term,
        depth: u32,
    ) -> Result<Left, AllocError>
        requires rules { Each RuleHasHeads (rules_of rules.now) }
        requires target { IsDone (term_of target.now) }
        ensures same { self.new ≡ self.old }
        ensures answer { IfOk result (λ found. IsLeft (RuleIsRefuted (answers (system self.old) depth).Alias (known_below (system self.old) depth) (kind_of kind) (term_of target.now)) (rules_of rules.now) found) }
    {
        let mut left = Left::Nothing;
        for (number, rule) in rules.iter().enumerate() {
            if !self.is_out(rule, kind, target, depth)? {
                match left {
                    Left::Nothing => left = Left::One(number),
                    Left::One(_) | Left::Several => return Ok(Left::Several),
                }
            }
        }
        Ok(left)
    }

    /// What is known of whether the goal holds because its self type is copied with its parts.
    fn copied_row(&mut self, kind: Kind, target: &Term, depth: u32) -> Result<Row, AllocError>
        requires target { IsDone (term_of target.now) }
        ensures same { self.new ≡ self.old }
        ensures answer { IfOk result (λ row. IsRow (system self.old) (known_below (system self.old) depth) (kind_of kind) (term_of target.now) row) }
    {
        match copied_goals(self.alloc(), self.sources(), kind, target)? {
            Copies::Known(answer) => Ok(if is_no(answer) {
                Row::Refuted
            } else {
                Row::Unclear
            }),
            Copies::Of(goals) => {
                let answer = self.ask_preds(&goals, Holes::Stay, depth)?;
                Ok(if is_no(answer) {
                    Row::Refuted
                } else {
                    Row::OfParts
                })
            }
        }
    }

    /// What selects a goal of which each clause is refuted.
    fn choose_rule(
        &mut self,
        kind: Kind,
        target: &Term,
        depth: u32,
    ) -> Result<Option<Choice>, AllocError>
        requires kind { IsTraitKind (kind_of kind) }
        requires clauses { Each (RuleIsRefuted (answers (system self.old) depth).Alias (known_below (system self.old) depth) (kind_of kind) (term_of target.now)) (system self.old).clauses }
        requires target { IsDone (term_of target.now) }
        ensures same { self.new ≡ self.old }
        ensures answer { IfOk result (λ found. IsBy (IsOnlySource (system self.old) (answers (system self.old) depth).Alias (known_below (system self.old) depth) (kind_of kind) (term_of target.now)) (option_map choice_of found)) }
    {
        let sources = self.sources();
        let clauses = sources.clauses.as_slice();
        if !is_no(self.ask_rules(clauses, Side::Key, kind, target, depth, depth)?) {
            return Ok(None);
        }
        let rules = sources.rules.as_slice();
        match self.left_of(rules, kind, target, depth)? {
            Left::Nothing => match self.copied_row(kind, target, depth)? {
                Row::OfParts => Ok(Some(Choice::Parts)),
                Row::Refuted | Row::Unclear => Ok(None),
            },
            Left::One(number) => match self.copied_row(kind, target, depth)? {
                Row::Refuted => Ok(if_concrete(rules, number, Choice::Rule(number))),
                Row::OfParts | Row::Unclear => Ok(None),
            },
            Left::Several => Ok(None),
        }
    }

    /// What selects a goal by sources.
    fn choose_source(
        &mut self,
        kind: Kind,
        target: &Term,
        depth: u32,
    ) -> Result<Option<Choice>, AllocError>
        requires kind { IsTraitKind (kind_of kind) }
        requires target { IsDone (term_of target.now) }
        ensures same { self.new ≡ self.old }
        ensures answer { IfOk result (λ found. IsBy (IsOnlySource (system self.old) (answers (system self.old) depth).Alias (known_below (system self.old) depth) (kind_of kind) (term_of target.now)) (option_map choice_of found)) }
    {
        let clauses = self.sources().clauses.as_slice();
        match self.left_of(clauses, kind, target, depth)? {
            Left::Nothing => self.choose_rule(kind, target, depth),
            Left::One(number) => Ok(if_concrete(clauses, number, Choice::Clause(number))),
            Left::Several => Ok(None),
        }
    }

    /// What the goal is selected by at the depth: the only source that isn't refuted.
    pub fn choose(&mut self, goal: &Asked, depth: u32) -> Result<Option<Choice>, AllocError>
        requires { HasHeads (term_of goal.now.parts) }
        ensures same { self.new ≡ self.old }
        ensures answer { IfOk result (λ found. IsChoice (system self.old) depth (asked_of goal.now) (option_map choice_of found)) }
    {
        if !is_selectable(goal) {
            return Ok(None);
        }
        if is_among(&self.sources().sized, goal.kind) {
            if !is_yes(self.evaluate(goal, Holes::Stay, step_at(depth)?)?) {
                return Ok(None);
            }
            return self.choose_size(goal.kind, &goal.parts, depth);
        }
        if depth == 0 {
            return Ok(None);
        }
        self.choose_source(goal.kind, &goal.parts, depth)
    }
}
