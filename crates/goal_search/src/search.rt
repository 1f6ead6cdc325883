//! The answer to a goal, and what an alias reads as, at each depth.
ghost use Rattle.std.specs.Prelude.{◌≡◌, ◌↔◌, ◌+◌, ◌<◌, IfOk, IsTrue, map, Some, option_map};
ghost use Rattle.goal_search.specs.Words.{asked_at, Each, SomeOf, IsRefuted, HasSource, HasNoSource, YesAt, NoAt, answers, known_below, ReadingIs, AliasIs, HoldsIf, term_of, HasHeads, log_of, fill_of};
ghost use Rattle.goal_search.specs.Own.{kind_of, asked_of, asked_list, rule_of, rules_of, system, holes_fill, WalkIs, IsSizedAt, Decides, IsDone, FillsAreDone, PredIsDone, IsLevelBelow, RuleHasHeads, SystemHasHeads, side_part, side_preds, Holds, HoldsNot, GivenIs};

use crate::answer::{Answer, either, is_no, is_yes, shadowed, unless_no};
use crate::first::{is_itself, stays_first};
use crate::holes::Holes;
use crate::kept::Kept;
use crate::parts::{is_among, is_known, is_same_kind, key_of, only, self_type, type_of};
use crate::rows::{Copies, Tail, copied_goals, field_at, last_type, tail_of};
use crate::rules::Side;
use crate::sources::{Asked, Kind, Rule, Sources};
use crate::told::is_told;
use goal_terms::{Binding, Role, Term, can_be_same, find_common, find_match, staying_term};
use hir_types::{Boxed, Head, TypeAliasId};
use std::alloc::{AllocError, Global};
use std::marker::Model;

/// How many levels a term that is read may have.
pub const MOST_LEVELS: u32 = 8192;

/// Takes one of the levels that a term may have, or says that memory is wanting.
fn one_level(levels: u32) -> Result<u32, AllocError>
    ensures { IfOk result (λ below. levels ≡ below + 1) }
{
    levels.checked_sub(1).ok_or(AllocError)
}

/// What rules give an alias.
#[derive(Debug, Drop)]
pub enum Given {
    /// One gives this type, and no other gives any.
    One(Term),
    /// None gives any.
    Nothing,
    Open,
}

/// A search for answers, which contracts see as the sources that it searches. The answers that it keeps
/// are right.
#[derive(Debug, Drop)]
pub struct Search<'a> {
    alloc: Global,
    sources: &'a Sources,
    kept: Kept,
}

impl<'a> Model for Search<'a> {
    ghost use Rattle.goal_terms.specs.contracts.term.Term as term;
    ghost use Rattle.std.specs.Coded.{codes};
    ghost use Rattle.goal_search.specs.declared.sources.Sources.{Sources};

    ghost Value = { Sources };

    ghost coded = { Prim.hlevel (codes, term.the_row.coded) };

    ghost view = { λ a. a.sources.now };

    ghost use Rattle.goal_search.specs.Sources.{system};
    ghost use Rattle.goal_search.specs.Keeping.{AreKept};
    ghost use Rattle.goal_search.specs.Searching.{SystemHasHeads};

    ghost invariant = { λ a. AreKept (system a.sources.now) a.kept.entries.items × SystemHasHeads (system a.sources.now) };
}

impl<'a> Search<'a> {
    /// A search that has found nothing.
    pub fn new(alloc: Global, sources: &'a Sources) -> Search<'a>
        requires { SystemHasHeads (system sources.now) }
        ensures { result ≡ sources.now }
    {
        Search {
            alloc,
            sources,
            kept: Kept::new(alloc),
        }
    }

    /// What is searched.
    pub(crate) fn sources(&self) -> &'a Sources
        ensures is { result.now ≡ self.now }
        ensures heads { SystemHasHeads (system self.now) }
    {
        self.sources
    }

    pub(crate) fn alloc(&self) -> Global {
        self.alloc
    }

    /// The term with what stands for its holes and what its aliases read as at the depth; `None` where an
    /// alias is open.
    #[cycle(evaluate)]
    #[tactic(auto, using(crate::specs::Words::term_is))]
    pub fn read(
        &mut self,
        term: &Term,
        holes: Holes<'_>,
        depth: u32,
        levels: u32,
    ) -> Result<Option<Term>, AllocError>
        requires heads { HasHeads (term_of term.now) }
        requires fills { FillsAreDone (holes_fill holes) (term_of term.now) }
        ensures same { self.new ≡ self.old }
        ensures answer { IfOk result (λ read. ReadingIs (answers (system self.old) depth).Alias (holes_fill holes.entry) (term_of term.now) (option_map term_of read)) }
    {
        let alloc = self.alloc;
        let below = one_level(levels)?;
        match term {
            Term::Hole(hole) => Ok(Some(holes.stand_for(alloc, *hole)?)),
            Term::Leaf(head) => Ok(match head {
                Head::Projection(_) => None,
                _ => Some(Term::Leaf(*head)),
            }),
            Term::Pair(first, second) => match first.get().role() {
                Role::Alias(alias) => {
                    let Some(args) = self.read(second.get(), holes, depth, below)? else {
                        return Ok(None);
                    };
                    self.alias_reads(alias, &args, depth)
                }
                Role::Plain => {
                    let Some(first) = self.read(first.get(), holes, depth, below)? else {
                        return Ok(None);
                    };
                    let Some(second) = self.read(second.get(), holes, depth, below)? else {
                        return Ok(None);
                    };
                    let first = Boxed::new(alloc, first)?;
                    Ok(Some(Term::Pair(first, Boxed::new(alloc, second)?)))
                }
            },
        }
    }

    /// Whether each predicate is Yes at what stands for its holes, or some is No.
    #[cycle(evaluate)]
    pub(crate) fn ask_preds(
        &mut self,
        preds: &[Asked],
        holes: Holes<'_>,
        steps: u32,
    ) -> Result<Answer, AllocError>
        requires preds { Each (λ q. PredIsDone (holes_fill holes) q) (asked_list preds.now) }
        ensures same { self.new ≡ self.old }
        ensures answer { IfOk result (λ answer. Decides (Each (λ q. (known_below (system self.old) steps).Yes (asked_at (holes_fill holes.entry) q)) (asked_list preds.now)) (SomeOf (λ q. (known_below (system self.old) steps).No (asked_at (holes_fill holes.entry) q)) (asked_list preds.now)) answer) }
    {
        let mut left = Answer::Yes;
        for pred in preds {
            match self.evaluate(pred, holes, steps)? {
                Answer::Yes => {}
                Answer::No => return Ok(Answer::No),
                Answer::Undecided => left = Answer::Undecided,
            }
        }
        Ok(left)
    }

    /// What stands for the holes of a rule where its side reads as the target and its predicates are Yes.
    #[cycle(evaluate)]
    pub fn fits(
        &mut self,
        rule: &Rule,
        side: Side,
        target: &Term,
        depth: u32,
        steps: u32,
    ) -> Result<Option<Vec<Binding>>, AllocError>
        requires level { IsLevelBelow depth steps }
        requires rule { RuleHasHeads (rule_of rule.now) }
        requires target { IsDone (term_of target.now) }
        ensures same { self.new ≡ self.old }
        ensures answer { IfOk result (λ fills. HoldsIf (answers (system self.old) depth).Alias (known_below (system self.old) steps) (rule_of rule.now) (side_part side (rule_of rule.now)) (side_preds side (rule_of rule.now)) (term_of target.now) (option_map (λ v. fill_of (log_of v.items)) fills)) }
    {
        let end = Term::Leaf(Head::End);
        if !is_told(rule, &end) {
            return Ok(None);
        }
        let part = side.part(rule, &end);
        let Some(fills) = find_match(self.alloc, part, target)? else {
            return Ok(None);
        };
        let holes = Holes::Filled(fills.as_slice());
        let Some(reading) = self.read(part, holes, depth, MOST_LEVELS)? else {
            return Ok(None);
        };
        if !reading.is_same(target) {
            return Ok(None);
        }
        if !is_yes(self.ask_preds(side.preds(rule), holes, steps)?) {
            return Ok(None);
        }
        Ok(Some(fills))
    }

    /// Whether a rule's side is apart from the target, or fails wherever it is not.
    #[cycle(evaluate)]
    pub(crate) fn is_refuted(
        &mut self,
        rule: &Rule,
        side: Side,
        target: &Term,
        depth: u32,
        steps: u32,
    ) -> Result<bool, AllocError>
        requires level { IsLevelBelow depth steps }
        requires rule { RuleHasHeads (rule_of rule.now) }
        requires target { IsDone (term_of target.now) }
        ensures same { self.new ≡ self.old }
        ensures answer { IfOk result (λ yes. IsTrue yes ↔ IsRefuted (answers (system self.old) depth).Alias (known_below (system self.old) steps) (rule_of rule.now) (side_part side (rule_of rule.now)) (side_preds side (rule_of rule.now)) (term_of target.now)) }
    {
        let end = Term::Leaf(Head::End);
        let part = side.part(rule, &end);
        let Some(fills) = find_common(self.alloc, part, target)? else {
            return Ok(true);
        };
        if !is_told(rule, &end) {
            return Ok(false);
        }
        let holes = Holes::Filled(fills.as_slice());
        if is_no(self.ask_preds(side.preds(rule), holes, steps)?) {
            return Ok(true);
        }
        match self.read(part, holes, depth, MOST_LEVELS)? {
            Some(reading) => Ok(!can_be_same(self.alloc, &reading, target)?),
            None => Ok(false),
        }
    }

    /// Whether a rule of this kind holds, each is refuted, or neither.
    #[cycle(evaluate)]
    pub(crate) fn ask_rules(
        &mut self,
        rules: &[Rule],
        side: Side,
        kind: Kind,
        target: &Term,
        depth: u32,
        steps: u32,
    ) -> Result<Answer, AllocError>
        requires level { IsLevelBelow depth steps }
        requires rules { Each RuleHasHeads (rules_of rules.now) }
        requires target { IsDone (term_of target.now) }
        ensures same { self.new ≡ self.old }
        ensures answer { IfOk result (λ answer. Decides (SomeOf (Holds (answers (system self.old) depth).Alias (known_below (system self.old) steps) side (kind_of kind) (term_of target.now)) (rules_of rules.now)) (Each (HoldsNot (answers (system self.old) depth).Alias (known_below (system self.old) steps) side (kind_of kind) (term_of target.now)) (rules_of rules.now)) answer) }
    {
        let mut left = Answer::No;
        for rule in rules {
            if !is_same_kind(rule.head.kind, kind) {
                continue;
            }
            if let Some(_) = self.fits(rule, side, target, depth, steps)? {
                return Ok(Answer::Yes);
            }
            if !self.is_refuted(rule, side, target, depth, steps)? {
                left = Answer::Undecided;
            }
        }
        Ok(left)
    }

    /// What the rules give an alias at these arguments.
    #[cycle(evaluate)]
    fn ask_given(
        &mut self,
        rules: &[Rule],
        alias: TypeAliasId,
        args: &Term,
        steps: u32,
    ) -> Result<Given, AllocError>
        requires steps { 0 < steps }
        requires rules { Each RuleHasHeads (rules_of rules.now) }
        requires args { IsDone (term_of args.now) }
        ensures same { self.new ≡ self.old }
        ensures answer { IfOk result (λ given. GivenIs (known_below (system self.old) steps) alias (term_of args.now) (rules_of rules.now) given) }
    {
        let mut found = None;
        for rule in rules {
            if !is_same_kind(rule.head.kind, Kind::Projects(alias)) {
                continue;
            }
            match self.fits(rule, Side::Args, args, steps - 1, steps)? {
                Some(fills) => {
                    let end = Term::Leaf(Head::End);
                    let ty = type_of(&rule.head.parts, &end);
                    let holes = Holes::Filled(fills.as_slice());
                    let Some(ty) = self.read(ty, holes, steps - 1, MOST_LEVELS)? else {
                        return Ok(Given::Open);
                    };
                    if let Some(_) = found {
                        return Ok(Given::Open);
                    }
                    found = Some(ty);
                }
                None => {
                    if !self.is_refuted(rule, Side::Args, args, steps - 1, steps)? {
                        return Ok(Given::Open);
                    }
                }
            }
        }
        Ok(match found {
            Some(ty) => Given::One(ty),
            None => Given::Nothing,
        })
    }

    /// What an alias reads as at these arguments at the depth, itself where it stays; `None` where it is
    /// open.
    #[cycle(evaluate)]
    pub fn alias_reads(
        &mut self,
        alias: TypeAliasId,
        args: &Term,
        depth: u32,
    ) -> Result<Option<Term>, AllocError>
        requires args { IsDone (term_of args.now) }
        ensures same { self.new ≡ self.old }
        ensures answer { IfOk result (λ read. AliasIs (answers (system self.old) depth).Alias alias (term_of args.now) (option_map term_of read)) }
    {
        if !is_known(args) {
            return Ok(None);
        }
        let alloc = self.alloc;
        let sources = self.sources;
        if depth == 0 {
            return stays_first(alloc, sources, alias, args);
        }
        match self.ask_given(&sources.clauses, alias, args, depth)? {
            Given::One(ty) => return Ok(Some(ty)),
            Given::Nothing => {}
            Given::Open => return Ok(None),
        }
        match self.ask_given(&sources.rules, alias, args, depth)? {
            Given::One(ty) => Ok(Some(ty)),
            Given::Nothing => Ok(Some(staying_term(alloc, alias, args)?)),
            Given::Open => Ok(None),
        }
    }

    /// Whether a goal has a source: a clause, or where none shadows them a rule, or that the parts of its
    /// self type are copied.
    #[cycle(evaluate)]
    fn source(&mut self, kind: Kind, target: &Term, depth: u32) -> Result<Answer, AllocError>
        requires target { IsDone (term_of target.now) }
        ensures same { self.new ≡ self.old }
        ensures answer { IfOk result (λ answer. Decides (HasSource (system self.old) (answers (system self.old) depth).Alias (known_below (system self.old) depth) (kind_of kind) (term_of target.now)) (HasNoSource (system self.old) (answers (system self.old) depth).Alias (known_below (system self.old) depth) (kind_of kind) (term_of target.now)) answer) }
    {
        let end = Term::Leaf(Head::End);
        let sources = self.sources;
        let clauses = sources.clauses.as_slice();
        let by_clauses = self.ask_rules(clauses, Side::Whole, kind, target, depth, depth)?;
        let key = key_of(kind, target, &end);
        let shadows = self.ask_rules(clauses, Side::Key, kind, key, depth, depth)?;
        let rules = sources.rules.as_slice();
        let by_rules = self.ask_rules(rules, Side::Whole, kind, target, depth, depth)?;
        let by_parts = match copied_goals(self.alloc, sources, kind, target)? {
            Copies::Known(answer) => answer,
            Copies::Of(goals) => self.ask_preds(&goals, Holes::Stay, depth)?,
        };
        Ok(shadowed(by_clauses, shadows, either(by_rules, by_parts)))
    }

    /// Whether a type has a size: a walk along last fields and last parts, over at most `left` types. Of
    /// parameters, aliases and opaque types the sources of the kind say so, where there is one.
    #[cycle(evaluate)]
    fn sized(
        &mut self,
        kind: Option<Kind>,
        ty: &Term,
        left: u32,
        depth: u32,
    ) -> Result<Answer, AllocError>
        requires ty { IsDone (term_of ty.now) }
        ensures same { self.new ≡ self.old }
        ensures answer { IfOk result (λ answer. WalkIs (system self.old) depth (option_map kind_of kind) left (term_of ty.now) answer) }
    {
        if left == 0 {
            return Ok(Answer::Yes);
        }
        match tail_of(self.sources, ty) {
            Tail::HasSize => Ok(Answer::Yes),
            Tail::HasNone => Ok(Answer::No),
            Tail::Unclear => Ok(Answer::Undecided),
            Tail::Last(parts) => match last_type(parts) {
                Some(last) => self.sized(kind, last, left - 1, depth),
                None => Ok(Answer::Undecided),
            },
            Tail::Field(field, args) => {
                let Some(field) = field_at(self.alloc, field, args)? else {
                    return Ok(Answer::Undecided);
                };
                match self.read(&field, Holes::Stay, depth, MOST_LEVELS)? {
                    Some(field) => self.sized(kind, &field, left - 1, depth),
                    None => Ok(Answer::Undecided),
                }
            }
            Tail::Asked => match kind {
                Some(kind) => {
                    let args = only(self.alloc, ty)?;
                    self.source(kind, &args, depth)
                }
                None => Ok(Answer::Undecided),
            },
        }
    }

    /// The answer to a goal whose parts are read.
    #[cycle(evaluate)]
    fn decide(&mut self, kind: Kind, target: &Term, depth: u32) -> Result<Answer, AllocError>
        requires target { IsDone (term_of target.now) }
        ensures same { self.new ≡ self.old }
        ensures answer { IfOk result (λ answer. Decides (YesAt (system self.old) (answers (system self.old) depth).Alias (known_below (system self.old) depth) (kind_of kind) (term_of target.now)) (NoAt (system self.old) (answers (system self.old) depth).Alias (known_below (system self.old) depth) (kind_of kind) (term_of target.now)) answer) }
    {
        let end = Term::Leaf(Head::End);
        if !is_known(key_of(kind, target, &end)) {
            return Ok(Answer::Undecided);
        }
        let sources = self.sources;
        if is_among(&sources.sized, kind) {
            let ty = self_type(target, &end);
            return self.sized(Some(kind), ty, sources.tail, depth);
        }
        match is_itself(self.alloc, kind, target)? {
            Answer::Yes => Ok(Answer::Yes),
            Answer::No => self.source(kind, target, depth),
            Answer::Undecided => {
                let found = self.source(kind, target, depth)?;
                Ok(unless_no(found))
            }
        }
    }

    /// The answer to a goal, with what stands for its holes, after this many steps: after none nothing is
    /// known, and then what is known at depth 0, and so on.
    #[cycle(evaluate)]
    pub fn evaluate(
        &mut self,
        goal: &Asked,
        holes: Holes<'_>,
        steps: u32,
    ) -> Result<Answer, AllocError>
        requires goal { PredIsDone (holes_fill holes) (asked_of goal.now) }
        ensures same { self.new ≡ self.old }
        ensures answer { IfOk result (λ answer. Decides ((known_below (system self.old) steps).Yes (asked_at (holes_fill holes.entry) (asked_of goal.now))) ((known_below (system self.old) steps).No (asked_at (holes_fill holes.entry) (asked_of goal.now))) answer) }
    {
        if steps == 0 {
            return Ok(Answer::Undecided);
        }
        let depth = steps - 1;
        let Some(parts) = self.read(&goal.parts, holes, depth, MOST_LEVELS)? else {
            return Ok(Answer::Undecided);
        };
        if depth == 0 && !is_among(&self.sources.sized, goal.kind) {
            return Ok(Answer::Undecided);
        }
        if let Some(answer) = self.kept.find(goal.kind, &parts, depth) {
            return Ok(answer);
        }
        let answer = self.decide(goal.kind, &parts, depth)?;
        self.kept.keep(goal.kind, parts, depth, answer)?;
        Ok(answer)
    }

    /// Whether a type is known to have a size at the depth. Of parameters, aliases and opaque types a source
    /// of the trait of types with a size has to say so; where there is no such trait, nothing does.
    pub fn is_sized(&mut self, ty: &Term, depth: u32) -> Result<bool, AllocError>
        requires heads { HasHeads (term_of ty.now) }
        ensures same { self.new ≡ self.old }
        ensures answer { IfOk result (λ yes. IsTrue yes ↔ IsSizedAt (system self.old) depth (term_of ty.now)) }
    {
        let Some(reading) = self.read(ty, Holes::Stay, depth, MOST_LEVELS)? else {
            return Ok(false);
        };
        // First no source is asked, and then those of each trait of types with a size.
        let ty = &reading;
        let sources = self.sources;
        if is_yes(self.sized(None, ty, sources.tail, depth)?) {
            return Ok(true);
        }
        for listed in sources.sized.as_slice() {
            let kind = Some(Kind::Implements(*listed));
            if is_yes(self.sized(kind, ty, sources.tail, depth)?) {
                return Ok(true);
            }
        }
        Ok(false)
    }
}
