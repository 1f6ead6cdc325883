//! Associated types that are written in what a definition takes and gives, in the types of its `let`s, and in goals
//! that its nodes need: what each reads as is listed.
ghost use Rattle.std.specs.Prelude.{◌≡◌, ◌↔◌, IsTrue, IfOk, OnOk, map, option_map, Some};
ghost use Rattle.infer_needs.specs.Words.{leaf, hole, answers, alias_at, ReadingIs, asked_goal, IsSystemOf, system, term_of, HasHeads, needs_of, pat_needs_of, HoldsPlaceholder, aliases_of, recorded, WrittenAreListed, AboutIsListed};
ghost use Rattle.infer_needs.specs.Own.{FitsIn, AliasesFitIn, AliasFitsHere, GoalFitsIn, GoalsFitIn, IsProvable, AreProvable, CanAllBeProved, CanPatsBeProved, WereRead, Lists, IsAsWritten, ListedAt, ListedHere, TypeIsListed, TypesAreListed, GoalIsListed, GoalsAreListed, ExprsAreListed, CanItemsBeProved, ItemsAreListed, AreAllListed, TypeFitsIn, TypesFitIn, ExprsFitIn, ItemsFitIn, AllFitIn};

use crate::found::Found;
use crate::left::look_at_alias;
use crate::unknown::holds_unknown;
use goal_facts::{ItemSources, Proof, asked};
use goal_search::{Holes, MOST_LEVELS};
use goal_terms::{Role, Term, args_term, type_term};
use hir_facts::{
    DefWithBodyId, ExprOrPatId, Facts, Goal, RawBody, RawExpr, Ty, TypeAliasId, TypeRefId,
    fn_aliases, let_aliases, lower_ty,
};
use hir_types::Head;
use infer_result::{InferenceResult, expr_id, needed_goals, pat_needs};
use std::alloc::{AllocError, Global};

fn is_placeholder(head: Head) -> bool
    ensures { IsTrue result ↔ HoldsPlaceholder (leaf head) }
{
    match head {
        Head::Hole => true,
        _ => false,
    }
}

/// Whether a `_` stands in a term.
#[tactic(auto, using(crate::specs::Words::term_is))]
fn holds_placeholder(term: &Term) -> bool
    ensures { IsTrue result ↔ HoldsPlaceholder (term_of term.now) }
{
    match term {
        Term::Hole(_) => false,
        Term::Leaf(head) => is_placeholder(*head),
        Term::Pair(left, right) => holds_placeholder(left.get()) || holds_placeholder(right.get()),
    }
}

/// What arguments read as, if anything.
fn read_args(
    alloc: Global,
    sources: &ItemSources<'_>,
    args: &Term,
) -> Result<Option<Term>, AllocError>
    requires { HasHeads (term_of args.now) }
    ensures given { IfOk result (λ _. IsSystemOf sources.now.facts sources.now.item (system sources.now.sources)) }
    ensures read { IfOk result (λ read. ReadingIs (answers (system sources.now.sources) sources.now.facts.limits.goal_depth).Alias hole (term_of args.now) (option_map term_of read)) }
{
    sources.lawful();
    let depth = sources.facts().raw().limits.goal_depth;
    sources
        .search(alloc)
        .read(args, Holes::Stay, depth, MOST_LEVELS)
}

/// Lists what an associated type is at what these arguments read as, unless it stays: nothing where a `_` stands among
/// them.
fn look_at_args(
    alloc: Global,
    sources: &ItemSources<'_>,
    alias: TypeAliasId,
    args: &Term,
    proofs: &mut Vec<Proof>,
    found: &mut Found,
) -> Result<(), AllocError>
    requires heads { HasHeads (term_of args.now) }
    requires written { IsAsWritten (term_of args.now) }
    requires fits { FitsIn sources.now.facts sources.now.item (alias_at alias (term_of args.now)) }
    requires read { WereRead (system sources.now.sources) sources.now.facts.limits.goal_depth found.old }
    ensures { OnOk result (Lists sources.now.facts sources.now.item (system sources.now.sources) (ListedAt (system sources.now.sources) sources.now.facts.limits.goal_depth alias (term_of args.now)) proofs.old.items proofs.new.items found.old found.new) }
{
    if holds_placeholder(args) {
        return Ok(());
    }
    sources.facts().lawful();
    match read_args(alloc, sources, args)? {
        Some(read) => {
            look_at_alias(alloc, sources, alias, &read, proofs, found)?;
            Ok(())
        }
        None => Ok(()),
    }
}

/// The same of the associated type that stands over these arguments, if one does.
fn look_at_pair(
    alloc: Global,
    sources: &ItemSources<'_>,
    first: &Term,
    args: &Term,
    proofs: &mut Vec<Proof>,
    found: &mut Found,
) -> Result<(), AllocError>
    requires heads { HasHeads (term_of args.now) }
    requires written { IsAsWritten (term_of args.now) }
    requires fits { AliasFitsHere sources.now.facts sources.now.item (term_of first.now) (term_of args.now) }
    requires read { WereRead (system sources.now.sources) sources.now.facts.limits.goal_depth found.old }
    ensures { OnOk result (Lists sources.now.facts sources.now.item (system sources.now.sources) (ListedHere (system sources.now.sources) sources.now.facts.limits.goal_depth (term_of first.now) (term_of args.now)) proofs.old.items proofs.new.items found.old found.new) }
{
    match first.role() {
        Role::Alias(alias) => {
            look_at_args(alloc, sources, alias, args, proofs, found)?;
            Ok(())
        }
        Role::Plain => Ok(()),
    }
}

/// The same of each associated type that is written in a term.
#[tactic(auto, using(crate::specs::Words::term_is))]
fn look_at_term(
    alloc: Global,
    sources: &ItemSources<'_>,
    term: &Term,
    proofs: &mut Vec<Proof>,
    found: &mut Found,
) -> Result<(), AllocError>
    requires heads { HasHeads (term_of term.now) }
    requires written { IsAsWritten (term_of term.now) }
    requires fits { AliasesFitIn sources.now.facts sources.now.item (term_of term.now) }
    requires read { WereRead (system sources.now.sources) sources.now.facts.limits.goal_depth found.old }
    ensures { OnOk result (Lists sources.now.facts sources.now.item (system sources.now.sources) (λ js. WrittenAreListed (system sources.now.sources) sources.now.facts.limits.goal_depth js (term_of term.now)) proofs.old.items proofs.new.items found.old found.new) }
{
    match term {
        Term::Hole(_) | Term::Leaf(_) => Ok(()),
        Term::Pair(first, rest) => {
            look_at_pair(alloc, sources, first.get(), rest.get(), proofs, found)?;
            look_at_term(alloc, sources, first.get(), proofs, found)?;
            look_at_term(alloc, sources, rest.get(), proofs, found)?;
            Ok(())
        }
    }
}

/// The written type of this number.
fn type_ref(number: usize) -> Result<TypeRefId, AllocError>
    ensures { IfOk result (λ w. w.0 ≡ number) }
{
    // No lists of so many are in memory.
    let number = u32::try_from(number).map_err(|_| AllocError)?;
    Ok(TypeRefId(number))
}

/// The same of each associated type that is written in the type of this number.
fn look_at_written_type(
    alloc: Global,
    sources: &ItemSources<'_>,
    number: usize,
    proofs: &mut Vec<Proof>,
    found: &mut Found,
) -> Result<(), AllocError>
    requires fits { TypeFitsIn sources.now.facts sources.now.item number }
    requires read { WereRead (system sources.now.sources) sources.now.facts.limits.goal_depth found.old }
    ensures { OnOk result (Lists sources.now.facts sources.now.item (system sources.now.sources) (TypeIsListed (system sources.now.sources) sources.now.facts.limits.goal_depth sources.now.facts.types number) proofs.old.items proofs.new.items found.old found.new) }
{
    let written = type_ref(number)?;
    let ty = lower_ty(alloc, sources.facts(), written)?;
    let term = type_term(alloc, &ty)?;
    look_at_term(alloc, sources, &term, proofs, found)?;
    Ok(())
}

/// The same of each of these types.
fn look_at_written_types(
    alloc: Global,
    sources: &ItemSources<'_>,
    numbers: &[usize],
    proofs: &mut Vec<Proof>,
    found: &mut Found,
) -> Result<(), AllocError>
    requires fits { TypesFitIn sources.now.facts sources.now.item numbers.now }
    requires read { WereRead (system sources.now.sources) sources.now.facts.limits.goal_depth found.old }
    ensures { OnOk result (Lists sources.now.facts sources.now.item (system sources.now.sources) (TypesAreListed (system sources.now.sources) sources.now.facts.limits.goal_depth sources.now.facts.types numbers.now) proofs.old.items proofs.new.items found.old found.new) }
{
    for number in numbers {
        look_at_written_type(alloc, sources, *number, proofs, found)?;
    }
    Ok(())
}

/// The same of the associated type that a goal is about in which `{unknown}` stands.
fn look_at_about(
    alloc: Global,
    sources: &ItemSources<'_>,
    goal: &Goal,
    proofs: &mut Vec<Proof>,
    found: &mut Found,
) -> Result<(), AllocError>
    requires provable { IsProvable (asked_goal goal.now) }
    requires fits { GoalFitsIn sources.now.facts sources.now.item (asked_goal goal.now) }
    requires read { WereRead (system sources.now.sources) sources.now.facts.limits.goal_depth found.old }
    ensures { OnOk result (Lists sources.now.facts sources.now.item (system sources.now.sources) (λ js. AboutIsListed (system sources.now.sources) sources.now.facts.limits.goal_depth js (asked_goal goal.now)) proofs.old.items proofs.new.items found.old found.new) }
{
    match goal {
        Goal::Trait(_trait_ref) => Ok(()),
        Goal::Projection { alias, args, .. } => {
            let unknown = holds_unknown(alloc, goal)?;
            if !unknown {
                return Ok(());
            }
            let term = args_term(alloc, args)?;
            look_at_args(alloc, sources, *alias, &term, proofs, found)?;
            Ok(())
        }
    }
}

/// The same of each associated type that is written in a goal, and of the one that it is about, where `{unknown}`
/// stands in it: what others say of one is listed by `note`.
fn look_at_goal(
    alloc: Global,
    sources: &ItemSources<'_>,
    goal: &Goal,
    proofs: &mut Vec<Proof>,
    found: &mut Found,
) -> Result<(), AllocError>
    requires provable { IsProvable (asked_goal goal.now) }
    requires fits { GoalFitsIn sources.now.facts sources.now.item (asked_goal goal.now) }
    requires read { WereRead (system sources.now.sources) sources.now.facts.limits.goal_depth found.old }
    ensures { OnOk result (Lists sources.now.facts sources.now.item (system sources.now.sources) (GoalIsListed (system sources.now.sources) sources.now.facts.limits.goal_depth (asked_goal goal.now)) proofs.old.items proofs.new.items found.old found.new) }
{
    let asked = asked(alloc, goal)?;
    look_at_term(alloc, sources, &asked.parts, proofs, found)?;
    look_at_about(alloc, sources, goal, proofs, found)?;
    Ok(())
}

/// The same of each of these goals.
fn look_at_goals(
    alloc: Global,
    sources: &ItemSources<'_>,
    goals: &[Goal],
    proofs: &mut Vec<Proof>,
    found: &mut Found,
) -> Result<(), AllocError>
    requires provable { AreProvable (map asked_goal goals.now) }
    requires fits { GoalsFitIn sources.now.facts sources.now.item (map asked_goal goals.now) }
    requires read { WereRead (system sources.now.sources) sources.now.facts.limits.goal_depth found.old }
    ensures { OnOk result (Lists sources.now.facts sources.now.item (system sources.now.sources) (GoalsAreListed (system sources.now.sources) sources.now.facts.limits.goal_depth (map asked_goal goals.now)) proofs.old.items proofs.new.items found.old found.new) }
{
    for goal in goals {
        look_at_goal(alloc, sources, goal, proofs, found)?;
    }
    Ok(())
}

/// The same of what the expression of this number needs, at the type that the table records.
fn look_at_expr(
    alloc: Global,
    sources: &ItemSources<'_>,
    expr: &RawExpr,
    at: usize,
    table: &InferenceResult,
    proofs: &mut Vec<Proof>,
    found: &mut Found,
) -> Result<(), AllocError>
    requires provable { AreProvable (needs_of sources.now.facts (Some expr.now) (recorded table.now.type_of_expr at)) }
    requires fits { GoalsFitIn sources.now.facts sources.now.item (needs_of sources.now.facts (Some expr.now) (recorded table.now.type_of_expr at)) }
    requires read { WereRead (system sources.now.sources) sources.now.facts.limits.goal_depth found.old }
    ensures { OnOk result (Lists sources.now.facts sources.now.item (system sources.now.sources) (GoalsAreListed (system sources.now.sources) sources.now.facts.limits.goal_depth (needs_of sources.now.facts (Some expr.now) (recorded table.now.type_of_expr at))) proofs.old.items proofs.new.items found.old found.new) }
{
    let node = ExprOrPatId::ExprId(expr_id(at)?);
    match table.type_of_expr_or_pat(node) {
        Some(ty) => {
            let needed = needed_goals(alloc, sources.facts(), expr, ty)?;
            look_at_goals(alloc, sources, needed.as_slice(), proofs, found)?;
            Ok(())
        }
        None => Ok(()),
    }
}

/// The same of what each expression of a body needs.
fn look_at_exprs(
    alloc: Global,
    sources: &ItemSources<'_>,
    body: &RawBody,
    table: &InferenceResult,
    proofs: &mut Vec<Proof>,
    found: &mut Found,
) -> Result<(), AllocError>
    requires provable { CanAllBeProved sources.now.facts body.now table.now }
    requires fits { ExprsFitIn sources.now.facts sources.now.item body.now table.now }
    requires read { WereRead (system sources.now.sources) sources.now.facts.limits.goal_depth found.old }
    ensures { OnOk result (Lists sources.now.facts sources.now.item (system sources.now.sources) (ExprsAreListed sources.now.facts (system sources.now.sources) body.now table.now) proofs.old.items proofs.new.items found.old found.new) }
{
    for (at, expr) in body.exprs.as_slice().iter().enumerate() {
        look_at_expr(alloc, sources, expr, at, table, proofs, found)?;
    }
    Ok(())
}

/// The same of what a pattern of this item needs.
fn look_at_item(
    alloc: Global,
    sources: &ItemSources<'_>,
    item: &Option<Ty>,
    proofs: &mut Vec<Proof>,
    found: &mut Found,
) -> Result<(), AllocError>
    requires provable { AreProvable (pat_needs_of sources.now.facts item.now) }
    requires fits { GoalsFitIn sources.now.facts sources.now.item (pat_needs_of sources.now.facts item.now) }
    requires read { WereRead (system sources.now.sources) sources.now.facts.limits.goal_depth found.old }
    ensures { OnOk result (Lists sources.now.facts sources.now.item (system sources.now.sources) (GoalsAreListed (system sources.now.sources) sources.now.facts.limits.goal_depth (pat_needs_of sources.now.facts item.now)) proofs.old.items proofs.new.items found.old found.new) }
{
    match item {
        Some(ty) => {
            let needed = pat_needs(alloc, sources.facts(), ty)?;
            look_at_goals(alloc, sources, needed.as_slice(), proofs, found)?;
            Ok(())
        }
        None => Ok(()),
    }
}

/// The same of what patterns of each of these items need.
fn look_at_items(
    alloc: Global,
    sources: &ItemSources<'_>,
    items: &[Option<Ty>],
    proofs: &mut Vec<Proof>,
    found: &mut Found,
) -> Result<(), AllocError>
    requires provable { CanItemsBeProved sources.now.facts items.now }
    requires fits { ItemsFitIn sources.now.facts sources.now.item items.now }
    requires read { WereRead (system sources.now.sources) sources.now.facts.limits.goal_depth found.old }
    ensures { OnOk result (Lists sources.now.facts sources.now.item (system sources.now.sources) (ItemsAreListed sources.now.facts (system sources.now.sources) items.now) proofs.old.items proofs.new.items found.old found.new) }
{
    for item in items {
        look_at_item(alloc, sources, item, proofs, found)?;
    }
    Ok(())
}

/// The associated types that are written in what a definition takes and gives.
fn own_aliases(alloc: Global, facts: &Facts, def: DefWithBodyId) -> Result<Vec<usize>, AllocError>
    ensures { IfOk result (λ aliases. aliases.items ≡ aliases_of facts.now def) }
{
    match def {
        DefWithBodyId::FunctionId(function) => match facts.raw().fns.get(function.0 as usize) {
            Some(function) => fn_aliases(alloc, facts.types(), function),
            None => Ok(Vec::new(alloc)),
        },
        _ => Ok(Vec::new(alloc)),
    }
}

/// Lists what each associated type is that the definition, its `let`s, and the goals that its nodes need are written
/// with, at what its arguments read as, unless it stays, or `{unknown}` stands in one of them, or a `_` among the
/// arguments.
pub fn look_at_written(
    alloc: Global,
    sources: &ItemSources<'_>,
    def: DefWithBodyId,
    body: &RawBody,
    table: &InferenceResult,
    proofs: &mut Vec<Proof>,
    found: &mut Found,
) -> Result<(), AllocError>
    requires exprs { CanAllBeProved sources.now.facts body.now table.now }
    requires pats { CanPatsBeProved sources.now.facts table.now }
    requires fits { AllFitIn sources.now.facts sources.now.item def body.now table.now }
    requires read { WereRead (system sources.now.sources) sources.now.facts.limits.goal_depth found.old }
    ensures { OnOk result (Lists sources.now.facts sources.now.item (system sources.now.sources) (AreAllListed sources.now.facts def body.now table.now (system sources.now.sources)) proofs.old.items proofs.new.items found.old found.new) }
{
    let facts = sources.facts();
    let own = own_aliases(alloc, facts, def)?;
    look_at_written_types(alloc, sources, own.as_slice(), proofs, found)?;
    let lets = let_aliases(alloc, facts.types(), body)?;
    look_at_written_types(alloc, sources, lets.as_slice(), proofs, found)?;
    look_at_exprs(alloc, sources, body, table, proofs, found)?;
    let items = table.item_of_pat.as_slice();
    look_at_items(alloc, sources, items, proofs, found)?;
    Ok(())
}
