//! Inference of a body, from its facts to its table.
ghost use Rattle.std.specs.Prelude.{◌≡◌, IfOk, Some};
ghost use Rattle.hir_raw.specs.declared.raw.RawBody.{RawBody};
ghost use Rattle.hir_facts.specs.Bodies.{HasCarriedBody, body_of};
ghost use Rattle.infer_result.specs.Typed.{IsTableOf, given};
ghost use Rattle.infer_result.specs.General.{HasGeneral};
ghost use Rattle.infer_result.specs.Needs.{GoalsHold, HasNoneLeft};
ghost use Rattle.infer_result.specs.WrittenAliases.{AllWrittenAreListed};
ghost use Rattle.infer_needs.specs.Fits.{EntriesFit, ProofsFit};
ghost use Rattle.infer_needs.specs.Told.{AreAllAnswered, HearsAll, IsToldAll, RootsAreNeeded, at_exit};
ghost use Rattle.infer_end.specs.Ends.{EndsWell, IsSelectedBody, ComesOfSelection};
ghost use Rattle.infer_end.specs.Staying.{NoneStays};

use crate::body::infer_body;
use hir_facts::{DefWithBodyId, Facts, Goal};
use infer_ctx::{GivenBody, InferenceContext};
use infer_end::{keep_general, settle_where_possible};
use infer_goals::{Answer, ObligationInspector};
use infer_needs::{prove_needs, scope_item, tell_all};
use infer_obligations::{let_types, own_types};
use infer_result::InferenceResult;
use std::alloc::{AllocError, Global};

/// What is found out about a definition's body once it is walked and its goals are selected: what is left open
/// falls back.
fn infer_holes(
    alloc: Global,
    facts: &Facts,
    def: DefWithBodyId,
) -> Result<InferenceContext<'_>, AllocError>
    requires { HasCarriedBody facts.now def }
    ensures ends { IfOk result (λ context. EndsWell facts.now def context) }
    ensures selected { IfOk result (λ context. (b : RawBody) → body_of facts.now def ≡ Some b → IsSelectedBody facts.now def b context) }
{
    let Some(id) = facts.body_id(def) else {
        unreachable!()
    };
    facts.lawful();
    let body = facts.body(id);
    let mut context = InferenceContext::new(alloc, facts, scope_item(facts, def), body)?;
    let own = own_types(alloc, &context.goals, facts, def)?;
    let aliases = let_types(alloc, &context.goals, facts, def, body)?;
    let given = GivenBody {
        facts,
        owner: def,
        body,
        schedule: facts.schedule(id),
        inputs: &own.inputs,
        return_ty: &own.output,
        aliases: aliases.as_slice(),
    };
    infer_body(alloc, &mut context, &given)?;
    keep_general(alloc, &mut context, facts, def)?;
    settle_where_possible(alloc, &mut context, &given)?;
    Ok(context)
}

/// The table of a definition's body, and the goals that its nodes need, each with its answer.
fn infer_with_goals(
    alloc: Global,
    facts: &Facts,
    def: DefWithBodyId,
) -> Result<(InferenceResult, Vec<(Goal, Answer)>), AllocError>
    requires { HasCarriedBody facts.now def }
    ensures table { IfOk result (λ made. IsTableOf facts.now def made.0) }
    ensures general { IfOk result (λ made. HasGeneral facts.now def made.0) }
    ensures stays { IfOk result (λ made. NoneStays facts.now def made.0) }
    ensures goals { IfOk result (λ made. (b : RawBody) → body_of facts.now def ≡ Some b → GoalsHold def (given facts.now def b) made.0) }
    ensures left { IfOk result (λ made. (b : RawBody) → body_of facts.now def ≡ Some b → HasNoneLeft def (given facts.now def b) made.0) }
    ensures written { IfOk result (λ made. (b : RawBody) → body_of facts.now def ≡ Some b → AllWrittenAreListed def (given facts.now def b) made.0) }
    ensures roots { IfOk result (λ made. (b : RawBody) → body_of facts.now def ≡ Some b → RootsAreNeeded (given facts.now def b) made.0) }
    ensures fit { IfOk result (λ made. (b : RawBody) → body_of facts.now def ≡ Some b → EntriesFit (given facts.now def b) made.0) }
    ensures proofs { IfOk result (λ made. (b : RawBody) → body_of facts.now def ≡ Some b → ProofsFit def (given facts.now def b) made.0) }
    ensures selected { IfOk result (λ made. (b : RawBody) → body_of facts.now def ≡ Some b → ComesOfSelection facts.now def b made.0) }
    ensures told { IfOk result (λ made. (b : RawBody) → body_of facts.now def ≡ Some b → AreAllAnswered def (given facts.now def b) made.0 made.1.items) }
{
    let context = infer_holes(alloc, facts, def)?;
    let mut table = context.resolve_all(alloc)?;
    let told = prove_needs(alloc, facts, def, &mut table)?;
    Ok((table, told))
}

/// The same table, without these goals.
fn infer_untold(
    alloc: Global,
    facts: &Facts,
    def: DefWithBodyId,
) -> Result<InferenceResult, AllocError>
    requires { HasCarriedBody facts.now def }
    ensures table { IfOk result (λ table. IsTableOf facts.now def table) }
    ensures general { IfOk result (λ table. HasGeneral facts.now def table) }
    ensures stays { IfOk result (λ table. NoneStays facts.now def table) }
    ensures goals { IfOk result (λ table. (b : RawBody) → body_of facts.now def ≡ Some b → GoalsHold def (given facts.now def b) table) }
    ensures left { IfOk result (λ table. (b : RawBody) → body_of facts.now def ≡ Some b → HasNoneLeft def (given facts.now def b) table) }
    ensures written { IfOk result (λ table. (b : RawBody) → body_of facts.now def ≡ Some b → AllWrittenAreListed def (given facts.now def b) table) }
    ensures roots { IfOk result (λ table. (b : RawBody) → body_of facts.now def ≡ Some b → RootsAreNeeded (given facts.now def b) table) }
    ensures fit { IfOk result (λ table. (b : RawBody) → body_of facts.now def ≡ Some b → EntriesFit (given facts.now def b) table) }
    ensures proofs { IfOk result (λ table. (b : RawBody) → body_of facts.now def ≡ Some b → ProofsFit def (given facts.now def b) table) }
    ensures selected { IfOk result (λ table. (b : RawBody) → body_of facts.now def ≡ Some b → ComesOfSelection facts.now def b table) }
{
    let (table, _) = infer_with_goals(alloc, facts, def)?;
    Ok(table)
}

/// The same table; the inspector is told of these goals.
fn infer_told<I: ObligationInspector>(
    alloc: Global,
    facts: &Facts,
    def: DefWithBodyId,
    inspect: &mut I,
) -> Result<InferenceResult, AllocError>
    requires { HasCarriedBody facts.now def }
    ensures table { IfOk result (λ table. IsTableOf facts.now def table) }
    ensures general { IfOk result (λ table. HasGeneral facts.now def table) }
    ensures stays { IfOk result (λ table. NoneStays facts.now def table) }
    ensures goals { IfOk result (λ table. (b : RawBody) → body_of facts.now def ≡ Some b → GoalsHold def (given facts.now def b) table) }
    ensures left { IfOk result (λ table. (b : RawBody) → body_of facts.now def ≡ Some b → HasNoneLeft def (given facts.now def b) table) }
    ensures written { IfOk result (λ table. (b : RawBody) → body_of facts.now def ≡ Some b → AllWrittenAreListed def (given facts.now def b) table) }
    ensures roots { IfOk result (λ table. (b : RawBody) → body_of facts.now def ≡ Some b → RootsAreNeeded (given facts.now def b) table) }
    ensures fit { IfOk result (λ table. (b : RawBody) → body_of facts.now def ≡ Some b → EntriesFit (given facts.now def b) table) }
    ensures proofs { IfOk result (λ table. (b : RawBody) → body_of facts.now def ≡ Some b → ProofsFit def (given facts.now def b) table) }
    ensures selected { IfOk result (λ table. (b : RawBody) → body_of facts.now def ≡ Some b → ComesOfSelection facts.now def b table) }
    ensures told { IfOk result (λ table. (b : RawBody) → body_of facts.now def ≡ Some b → HearsAll def (given facts.now def b) table (I.list inspect.old) (I.list inspect.new)) }
{
    let (table, told) = infer_with_goals(alloc, facts, def)?;
    tell_all(inspect, told.as_slice())?;
    Ok(table)
}

/// The table of a definition's body, which is of kinds that are carried: `infer.rs`, `infer_query_with_inspect`. Its one error is
/// want of memory. What nodes need is selected before open holes fall back, and binds holes of bodies that are not
/// plain. It is proved, or it is said that it has no proof, once all types are known, and the inspector is told of
/// each of these goals with its answer. In no type of the table is an associated type left that could be read,
/// unless the table says what it is; nor is one of which it does not say so in what the definition takes and gives, in the
/// types of its `let`s, or in what nodes need. What is listed so, what is said of needs, and what each proof is of and at
/// which arguments, names what the facts have, and has no holes. Each listed proof of a goal about a trait is one that
/// another asks for, or of a goal that a node needs. None of its types holds an associated type that stays, where none may
/// be types in the body. Of a plain body the table keeps its types with holes too, before these fall back to anything:
/// `InferenceResult::general`.
pub fn infer_query_with_inspect<I: ObligationInspector>(
    alloc: Global,
    facts: &Facts,
    def: DefWithBodyId,
    inspect: Option<&mut I>,
) -> Result<InferenceResult, AllocError>
    requires { HasCarriedBody facts.now def }
    ensures table { IfOk result (λ table. IsTableOf facts.now def table) }
    ensures general { IfOk result (λ table. HasGeneral facts.now def table) }
    ensures stays { IfOk result (λ table. NoneStays facts.now def table) }
    ensures goals { IfOk result (λ table. (b : RawBody) → body_of facts.now def ≡ Some b → GoalsHold def (given facts.now def b) table) }
    ensures left { IfOk result (λ table. (b : RawBody) → body_of facts.now def ≡ Some b → HasNoneLeft def (given facts.now def b) table) }
    ensures written { IfOk result (λ table. (b : RawBody) → body_of facts.now def ≡ Some b → AllWrittenAreListed def (given facts.now def b) table) }
    ensures roots { IfOk result (λ table. (b : RawBody) → body_of facts.now def ≡ Some b → RootsAreNeeded (given facts.now def b) table) }
    ensures fit { IfOk result (λ table. (b : RawBody) → body_of facts.now def ≡ Some b → EntriesFit (given facts.now def b) table) }
    ensures proofs { IfOk result (λ table. (b : RawBody) → body_of facts.now def ≡ Some b → ProofsFit def (given facts.now def b) table) }
    ensures selected { IfOk result (λ table. (b : RawBody) → body_of facts.now def ≡ Some b → ComesOfSelection facts.now def b table) }
    ensures told { IfOk result (λ table. (b : RawBody) → body_of facts.now def ≡ Some b → IsToldAll I.list def (given facts.now def b) table inspect.entry (at_exit inspect.exit)) }
{
    match inspect {
        Some(inspect) => infer_told(alloc, facts, def, inspect),
        None => infer_untold(alloc, facts, def),
    }
}
