//! What nodes need is proved, or complained of: the end of `infer.rs`'s `infer_body`, where obligations that are
//! left are looked at once more.
ghost use Rattle.std.specs.Prelude.{◌≡◌, ◌++◌, [], ◌∷◌, length, map, Some, IfOk, OnOk};
ghost use Rattle.hir_types.specs.declared.ids.ExprOrPatId.TheVariants as node;
ghost use Rattle.infer_needs.specs.Words.{RawBody, body_of, system, asked_goal, IsAnswer, with_goals, scope_item, GoalsHold, HasNoneLeft, needs_of, pat_needs_at, AllWrittenAreListed, AllTypes, recorded, IsTableOf, given, scope_of};
ghost use Rattle.infer_needs.specs.Own.{IsFinalType, EntriesFit, AreAllListed, AllFitIn, IsProvable, AreProvable, CanAllBeProved, CanPatsBeProved, FitOrAreSaid, IsSaidUnlessMay, IsJudged, AreJudged, AreAllJudged, ArePatsJudged, ListsAnswers, first_needs, first_pat_needs, AreAllAnswered, AddsRootsOf, RootsAreNeeded, ProofsFit};

use crate::found::Found;
use crate::left::look_at_table;
use crate::note::note;
use crate::opened::may_hold;
use crate::say::say;
use crate::written::look_at_written;
use goal_facts::{Answer, ItemSources, Proof};
use goal_prove::prove_goal;
use hir_facts::{
    AdtId, DefWithBodyId, ExprOrPatId, Facts, GenericDefId, Goal, List, RawBody, RawExpr,
};
use infer_result::{Gap, InferenceResult, expr_id, needed_goals, pat_id, pat_needs};
use std::alloc::{AllocError, Global};

/// The item in whose scope a body is.
pub fn scope_item(facts: &Facts, def: DefWithBodyId) -> GenericDefId
    ensures { result ≡ scope_item facts.now def }
{
    match def {
        DefWithBodyId::FunctionId(function) => GenericDefId::FunctionId(function),
        DefWithBodyId::ConstId(id) => GenericDefId::ConstId(id),
        DefWithBodyId::StaticId(id) => GenericDefId::StaticId(id),
        DefWithBodyId::VariantId(id) => match facts.raw().variants.get(id.0 as usize) {
            Some(variant) => GenericDefId::AdtId(variant.adt),
            None => GenericDefId::AdtId(AdtId(0)),
        },
    }
}

/// Evaluates a goal and takes note of its answer.
fn evaluate(
    alloc: Global,
    sources: &ItemSources<'_>,
    goal: &Goal,
    told: &mut Vec<(Goal, Answer)>,
) -> Result<Answer, AllocError>
    ensures answer { IfOk result (λ answer. IsAnswer (system sources.now.sources) sources.now.facts.limits.goal_depth (asked_goal goal.now) answer) }
    ensures told { IfOk result (λ answer. told.new.items ≡ told.old.items ++ (goal.now, answer) ∷ []) }
{
    let answer = sources.evaluate(alloc, goal)?;
    let copy = goal.dup(alloc)?;
    told.push((copy, answer))?;
    Ok(answer)
}

/// Says of a goal whose answer isn't Yes that it has no proof, once, unless it may hold with other types in
/// the place of `{unknown}`, which could not have been read.
fn complain(
    alloc: Global,
    sources: &ItemSources<'_>,
    def: DefWithBodyId,
    goal: Goal,
    node: ExprOrPatId,
    gaps: &mut List<Gap>,
) -> Result<(), AllocError>
    ensures { OnOk result (IsSaidUnlessMay (scope_of sources.now.facts def) (system sources.now.sources) sources.now.facts.limits.goal_depth node goal gaps.old gaps.new) }
{
    if may_hold(alloc, sources, def, &goal)? {
        return Ok(());
    }
    say(alloc, Gap::Unproved { node, goal }, gaps)
}

/// Evaluates a goal without holes that a node needs, takes note of its answer, and adds its proof and what
/// it says of an associated type once it is read, or says that it has none, unless it may hold with other
/// types in the place of `{unknown}`.
fn prove_need(
    alloc: Global,
    sources: &ItemSources<'_>,
    def: DefWithBodyId,
    goal: Goal,
    node: ExprOrPatId,
    told: &mut Vec<(Goal, Answer)>,
    proofs: &mut Vec<Proof>,
    found: &mut Found,
    gaps: &mut List<Gap>,
) -> Result<(), AllocError>
    requires { IsProvable (asked_goal goal) }
    ensures judged { OnOk result (IsJudged sources.now.facts (scope_of sources.now.facts def) (system sources.now.sources) node goal proofs.old.items proofs.new.items found.old found.new gaps.old gaps.new) }
    ensures told { OnOk result (ListsAnswers (system sources.now.sources) sources.now.facts.limits.goal_depth (asked_goal goal ∷ []) told.old.items told.new.items) }
    ensures roots { OnOk result (AddsRootsOf sources.now.facts sources.now.item (system sources.now.sources) (asked_goal goal ∷ []) proofs.old.items proofs.new.items) }
{
    match evaluate(alloc, sources, &goal, told)? {
        Answer::Yes => {
            let depth = sources.facts().raw().limits.goal_depth;
            prove_goal(alloc, sources, &goal, depth, proofs)?;
            note(alloc, sources, &goal, node, proofs, found, gaps)?;
            Ok(())
        }
        Answer::No | Answer::Undecided => {
            complain(alloc, sources, def, goal, node, gaps)?;
            Ok(())
        }
    }
}

/// Does so with each of these goals, which a node needs; gives what could not be shown.
fn prove_each(
    alloc: Global,
    sources: &ItemSources<'_>,
    def: DefWithBodyId,
    needed: Vec<Goal>,
    node: ExprOrPatId,
    told: &mut Vec<(Goal, Answer)>,
    proofs: &mut Vec<Proof>,
    found: &mut Found,
) -> Result<List<Gap>, AllocError>
    requires { AreProvable (map asked_goal needed.items) }
    ensures judged { IfOk result (λ gaps. AreJudged sources.now.facts (scope_of sources.now.facts def) (system sources.now.sources) node (map asked_goal needed.items) proofs.old.items proofs.new.items found.old found.new gaps) }
    ensures told { OnOk result (ListsAnswers (system sources.now.sources) sources.now.facts.limits.goal_depth (map asked_goal needed.items) told.old.items told.new.items) }
    ensures roots { OnOk result (AddsRootsOf sources.now.facts sources.now.item (system sources.now.sources) (map asked_goal needed.items) proofs.old.items proofs.new.items) }
{
    let mut gaps = List::new(alloc);
    for goal in needed {
        prove_need(
            alloc, sources, def, goal, node, told, proofs, found, &mut gaps,
        )?;
    }
    Ok(gaps)
}

/// Does so with what the expression of this number needs, at the type that the table records.
fn prove_at(
    alloc: Global,
    sources: &ItemSources<'_>,
    def: DefWithBodyId,
    expr: &RawExpr,
    at: usize,
    table: &InferenceResult,
    told: &mut Vec<(Goal, Answer)>,
    proofs: &mut Vec<Proof>,
    found: &mut Found,
) -> Result<List<Gap>, AllocError>
    requires { AreProvable (needs_of sources.now.facts (Some expr.now) (recorded table.now.type_of_expr at)) }
    ensures judged { IfOk result (λ gaps. AreJudged sources.now.facts (scope_of sources.now.facts def) (system sources.now.sources) (node.ExprId (record { 0 = at })) (needs_of sources.now.facts (Some expr.now) (recorded table.now.type_of_expr at)) proofs.old.items proofs.new.items found.old found.new gaps) }
    ensures told { OnOk result (ListsAnswers (system sources.now.sources) sources.now.facts.limits.goal_depth (needs_of sources.now.facts (Some expr.now) (recorded table.now.type_of_expr at)) told.old.items told.new.items) }
    ensures roots { OnOk result (AddsRootsOf sources.now.facts sources.now.item (system sources.now.sources) (needs_of sources.now.facts (Some expr.now) (recorded table.now.type_of_expr at)) proofs.old.items proofs.new.items) }
{
    let node = ExprOrPatId::ExprId(expr_id(at)?);
    match table.type_of_expr_or_pat(node) {
        Some(ty) => {
            let needed = needed_goals(alloc, sources.facts(), expr, ty)?;
            let gaps = prove_each(alloc, sources, def, needed, node, told, proofs, found)?;
            Ok(gaps)
        }
        None => Ok(List::new(alloc)),
    }
}

/// The same of the pattern of this number, at the item that the table records.
fn prove_pat(
    alloc: Global,
    sources: &ItemSources<'_>,
    def: DefWithBodyId,
    at: usize,
    table: &InferenceResult,
    told: &mut Vec<(Goal, Answer)>,
    proofs: &mut Vec<Proof>,
    found: &mut Found,
) -> Result<List<Gap>, AllocError>
    requires { AreProvable (pat_needs_at sources.now.facts table.now at) }
    ensures judged { IfOk result (λ gaps. AreJudged sources.now.facts (scope_of sources.now.facts def) (system sources.now.sources) (node.PatId (record { 0 = at })) (pat_needs_at sources.now.facts table.now at) proofs.old.items proofs.new.items found.old found.new gaps) }
    ensures told { OnOk result (ListsAnswers (system sources.now.sources) sources.now.facts.limits.goal_depth (pat_needs_at sources.now.facts table.now at) told.old.items told.new.items) }
    ensures roots { OnOk result (AddsRootsOf sources.now.facts sources.now.item (system sources.now.sources) (pat_needs_at sources.now.facts table.now at) proofs.old.items proofs.new.items) }
{
    let pat = pat_id(at)?;
    match table.item_of_pat(pat) {
        Some(item) => {
            let needed = pat_needs(alloc, sources.facts(), item)?;
            let node = ExprOrPatId::PatId(pat);
            let gaps = prove_each(alloc, sources, def, needed, node, told, proofs, found)?;
            Ok(gaps)
        }
        None => Ok(List::new(alloc)),
    }
}

/// The same of each pattern of a body, in their order; gives each pattern's gaps.
fn prove_pats(
    alloc: Global,
    sources: &ItemSources<'_>,
    def: DefWithBodyId,
    body: &RawBody,
    table: &InferenceResult,
    told: &mut Vec<(Goal, Answer)>,
    proofs: &mut Vec<Proof>,
    found: &mut Found,
) -> Result<List<List<Gap>>, AllocError>
    requires { CanPatsBeProved sources.now.facts table.now }
    ensures judged { IfOk result (λ gaps. ArePatsJudged sources.now.facts (scope_of sources.now.facts def) (system sources.now.sources) table.now (length body.now.pats) proofs.old.items proofs.new.items found.old found.new gaps) }
    ensures told { OnOk result (ListsAnswers (system sources.now.sources) sources.now.facts.limits.goal_depth (first_pat_needs sources.now.facts table.now (length body.now.pats)) told.old.items told.new.items) }
    ensures roots { OnOk result (AddsRootsOf sources.now.facts sources.now.item (system sources.now.sources) (first_pat_needs sources.now.facts table.now (length body.now.pats)) proofs.old.items proofs.new.items) }
{
    let mut gaps = List::new(alloc);
    for at in 0..body.pats.len() {
        let here = prove_pat(alloc, sources, def, at, table, told, proofs, found)?;
        gaps.push(here)?;
    }
    Ok(gaps)
}

/// The same of each expression of a body, in their order, once what associated types read as is listed, those in the
/// types of the table and those that are written; gives the proofs, what associated types were found to be, and each
/// expression's gaps.
fn prove_exprs(
    alloc: Global,
    sources: &ItemSources<'_>,
    def: DefWithBodyId,
    body: &RawBody,
    table: &InferenceResult,
    told: &mut Vec<(Goal, Answer)>,
) -> Result<(Vec<Proof>, Found, List<List<Gap>>), AllocError>
    requires needs { CanAllBeProved sources.now.facts body.now table.now }
    requires pats { CanPatsBeProved sources.now.facts table.now }
    requires types { AllTypes (IsFinalType sources.now.facts sources.now.item) table.now }
    requires fits { AllFitIn sources.now.facts sources.now.item def body.now table.now }
    ensures judged { IfOk result (λ made. AreAllJudged sources.now.facts (scope_of sources.now.facts def) (system sources.now.sources) body.now table.now (length body.now.exprs) made.0.items made.1 made.2) }
    ensures fit { IfOk result (λ made. FitOrAreSaid sources.now.facts sources.now.item (system sources.now.sources) (first_needs sources.now.facts body.now table.now (length body.now.exprs)) made.1) }
    ensures written { IfOk result (λ made. AreAllListed sources.now.facts def body.now table.now (system sources.now.sources) made.1) }
    ensures told { OnOk result (ListsAnswers (system sources.now.sources) sources.now.facts.limits.goal_depth (first_needs sources.now.facts body.now table.now (length body.now.exprs)) told.old.items told.new.items) }
    ensures roots { IfOk result (λ made. AddsRootsOf sources.now.facts sources.now.item (system sources.now.sources) (first_needs sources.now.facts body.now table.now (length body.now.exprs)) [] made.0.items) }
{
    let mut proofs = Vec::new(alloc);
    let mut found = Found::new(alloc);
    look_at_table(alloc, sources, table, &mut proofs, &mut found)?;
    look_at_written(alloc, sources, def, body, table, &mut proofs, &mut found)?;
    let mut gaps = List::new(alloc);
    for (at, expr) in body.exprs.as_slice().iter().enumerate() {
        let here = prove_at(
            alloc,
            sources,
            def,
            expr,
            at,
            table,
            told,
            &mut proofs,
            &mut found,
        )?;
        gaps.push(here)?;
    }
    Ok((proofs, found, gaps))
}

/// Proves each goal that a node of a typed body needs, at the types that are recorded, or says of it that it
/// has no proof. Only a goal may be left without either in which `{unknown}` stands, which may hold with other
/// types in its place, and which is not about an associated type that could be read. Each goal is evaluated and told once, in the order of the expressions and of the
/// predicates of each item, and then of the patterns: these are given back, each with its answer. What associated
/// types were found to be is listed, each once; where one is another type at a node, this is said there. In no type
/// of the table is one left that could be read, unless what it is is listed; and so is what each is that the
/// definition, its `let`s and those goals are written with. What is listed, what is said, and what each proof is of and at
/// which arguments, names what the facts have, with as many arguments as it takes, and has no holes. Each listed proof of a goal about a trait is one that another
/// asks for, or of a goal that a node needs. Nothing else of the table changes. The one error is want of memory.
pub fn prove_needs(
    alloc: Global,
    facts: &Facts,
    def: DefWithBodyId,
    table: &mut InferenceResult,
) -> Result<Vec<(Goal, Answer)>, AllocError>
    requires { IsTableOf facts.now def table.old }
    ensures table { OnOk result (table.new ≡ with_goals table.new.proofs table.new.projections table.new.expr_gaps table.new.pat_gaps table.old) }
    ensures goals { OnOk result ((b : RawBody) → body_of facts.now def ≡ Some b → GoalsHold def (given facts.now def b) table.new) }
    ensures left { OnOk result ((b : RawBody) → body_of facts.now def ≡ Some b → HasNoneLeft def (given facts.now def b) table.new) }
    ensures written { OnOk result ((b : RawBody) → body_of facts.now def ≡ Some b → AllWrittenAreListed def (given facts.now def b) table.new) }
    ensures roots { OnOk result ((b : RawBody) → body_of facts.now def ≡ Some b → RootsAreNeeded (given facts.now def b) table.new) }
    ensures fit { OnOk result ((b : RawBody) → body_of facts.now def ≡ Some b → EntriesFit (given facts.now def b) table.new) }
    ensures proofs { OnOk result ((b : RawBody) → body_of facts.now def ≡ Some b → ProofsFit def (given facts.now def b) table.new) }
    ensures told { IfOk result (λ told. (b : RawBody) → body_of facts.now def ≡ Some b → AreAllAnswered def (given facts.now def b) table.new told.items) }
{
    let Some(id) = facts.body_id(def) else {
        unreachable!()
    };
    facts.lawful();
    let body = facts.body(id);
    let sources = ItemSources::new(alloc, facts, scope_item(facts, def))?;
    sources.lawful();
    let mut told = Vec::new(alloc);
    let (mut proofs, mut found, gaps) = prove_exprs(alloc, &sources, def, body, table, &mut told)?;
    let pat_gaps = prove_pats(
        alloc,
        &sources,
        def,
        body,
        table,
        &mut told,
        &mut proofs,
        &mut found,
    )?;
    table.proofs = List::from_vec(proofs);
    table.projections = List::from_vec(found.into_pairs());
    table.expr_gaps = gaps;
    table.pat_gaps = pat_gaps;
    Ok(told)
}
