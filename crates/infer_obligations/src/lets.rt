//! What a body knows of the associated types that its `let`s are written with.
ghost use Rattle.std.specs.Prelude.{◌≡◌, ◌↔◌, IsTrue, IfOk};
ghost use Rattle.infer_obligations.specs.Words.{leaf, scope_of, new_state, IsSystemOf, system, term_of, scope_item, AreLetTypes, HoldsPlaceholder};
ghost use Rattle.infer_obligations.specs.Own.{AreNoted, NotesAlias};

use crate::own::known_ty;
use goal_terms::{Term, type_term};
use hir_facts::{DefWithBodyId, Facts, List, RawBody, Ty, TypeRefId, let_aliases, lower_ty};
use hir_types::Head;
use infer_ctx::put;
use infer_goals::GoalTable;
use std::alloc::{AllocError, Global};

/// The written type of this number.
fn type_ref(number: usize) -> Result<TypeRefId, AllocError>
    ensures { IfOk result (λ w. w.0 ≡ number) }
{
    // No lists of so many are in memory.
    let number = u32::try_from(number).map_err(|_| AllocError)?;
    Ok(TypeRefId(number))
}

fn is_placeholder(head: Head) -> bool
    ensures { IsTrue result ↔ HoldsPlaceholder (leaf head) }
{
    match head {
        Head::Hole => true,
        _ => false,
    }
}

/// Whether a `_` stands in a term.
#[tactic(auto, using(crate::specs::Words::term_is))]
fn holds_placeholder(term: &Term) -> bool
    ensures { IsTrue result ↔ HoldsPlaceholder (term_of term.now) }
{
    match term {
        Term::Hole(_) => false,
        Term::Leaf(head) => is_placeholder(*head),
        Term::Pair(left, right) => holds_placeholder(left.get()) || holds_placeholder(right.get()),
    }
}

/// Notes what the body knows of the associated type of this number, if it knows anything: nothing where a `_` stands
/// among its arguments.
fn note_alias(
    alloc: Global,
    goals: &GoalTable,
    facts: &Facts,
    def: DefWithBodyId,
    alias: usize,
    known: &mut List<Option<Ty>>,
) -> Result<(), AllocError>
    requires table { goals.now.table ≡ new_state }
    requires noted { AreNoted (scope_of facts.now def) (system goals.now.sources.sources) goals.now.sources.facts.limits.goal_depth facts.now.types known.old }
    ensures of_item { IfOk result (λ _. IsSystemOf goals.now.sources.facts goals.now.sources.item (system goals.now.sources.sources)) }
    ensures notes { IfOk result (λ _. NotesAlias (scope_of facts.now def) (system goals.now.sources.sources) goals.now.sources.facts.limits.goal_depth facts.now.types alias known.old known.new) }
{
    let written = type_ref(alias)?;
    let ty = lower_ty(alloc, facts, written)?;
    let found = known_ty(alloc, goals, facts, def, &ty)?;
    let term = type_term(alloc, &ty)?;
    if holds_placeholder(&term) {
        return Ok(());
    }
    match found {
        Some(read) => {
            put(known, written.0, read)?;
            Ok(())
        }
        None => Ok(()),
    }
}

/// What the body of a definition knows of each associated type that its `let`s are written with, by the number of that type: `infer.rs`,
/// `make_body_ty`, where each written type is normalized.
pub fn let_types(
    alloc: Global,
    goals: &GoalTable,
    facts: &Facts,
    def: DefWithBodyId,
    body: &RawBody,
) -> Result<List<Option<Ty>>, AllocError>
    requires table { goals.now.table ≡ new_state }
    requires facts { goals.now.sources.facts ≡ facts.now }
    requires item { goals.now.sources.item ≡ scope_item facts.now def }
    ensures { IfOk result (λ known. AreLetTypes facts.now def body.now known) }
{
    let aliases = let_aliases(alloc, facts.types(), body)?;
    let mut known = List::new(alloc);
    for alias in aliases.as_slice() {
        note_alias(alloc, goals, facts, def, *alias, &mut known)?;
    }
    Ok(known)
}
