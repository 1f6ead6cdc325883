//! What a body knows of the types of what its definition takes and gives.
ghost use Rattle.std.specs.Prelude.{◌≡◌, ◌↔◌, IfOk, IsTrue, [], map, Some};
ghost use Rattle.infer_obligations.specs.Words.{written_type, scope_of, HasBody, new_state, IsSystemOf, system, scope_item, IsKnownAs, EachIsKnownAs, AreOwnTypes, aliases_of};

use hir_facts::{DefWithBodyId, Facts, Ty, TypeRefId, fn_aliases, lower_ty, return_ty};
use infer_goals::GoalTable;
use infer_result::is_in_hand;
use std::alloc::{AllocError, Global};

/// The types of what a definition takes and gives, each where its body knows of one.
#[derive(Drop)]
pub struct OwnTypes {
    /// The types of its parameters.
    pub inputs: Vec<Option<Ty>>,
    /// The type that its body is typed against.
    pub output: Option<Ty>,
}

/// What the body knows of a type that is written with associated types: what it reads as, if that can stand there.
pub fn known_ty(
    alloc: Global,
    goals: &GoalTable,
    facts: &Facts,
    def: DefWithBodyId,
    ty: &Ty,
) -> Result<Option<Ty>, AllocError>
    requires { goals.now.table ≡ new_state }
    ensures of_item { IfOk result (λ _. IsSystemOf goals.now.sources.facts goals.now.sources.item (system goals.now.sources.sources)) }
    ensures known { IfOk result (λ known. IsKnownAs (scope_of facts.now def) (system goals.now.sources.sources) goals.now.sources.facts.limits.goal_depth ty.now known) }
{
    let Some(read) = goals.normalize_alias_ty(ty)? else {
        return Ok(None);
    };
    if is_in_hand(alloc, &goals.table, facts, def, &read)? {
        Ok(Some(read))
    } else {
        Ok(None)
    }
}

/// The same of each of these written types.
fn known_tys(
    alloc: Global,
    goals: &GoalTable,
    facts: &Facts,
    def: DefWithBodyId,
    written: &[TypeRefId],
) -> Result<Vec<Option<Ty>>, AllocError>
    requires { goals.now.table ≡ new_state }
    ensures { IfOk result (λ known. EachIsKnownAs (scope_of facts.now def) (system goals.now.sources.sources) goals.now.sources.facts.limits.goal_depth facts.now.types written.now known.items) }
{
    let mut known = Vec::new(alloc);
    for type_ref in written {
        let ty = lower_ty(alloc, facts, *type_ref)?;
        known.push(known_ty(alloc, goals, facts, def, &ty)?)?;
    }
    Ok(known)
}

/// These types as they are written.
fn written_tys(
    alloc: Global,
    facts: &Facts,
    written: &[TypeRefId],
) -> Result<Vec<Option<Ty>>, AllocError>
    ensures { IfOk result (λ tys. tys.items ≡ map (λ w. Some (written_type facts.now.types w)) written.now) }
{
    let mut tys = Vec::new(alloc);
    for type_ref in written {
        tys.push(Some(lower_ty(alloc, facts, *type_ref)?))?;
    }
    Ok(tys)
}

/// Whether no associated type is written in what a definition takes and gives.
fn names_no_alias(alloc: Global, facts: &Facts, def: DefWithBodyId) -> Result<bool, AllocError>
    requires { HasBody facts.now def }
    ensures { IfOk result (λ yes. IsTrue yes ↔ (aliases_of facts.now def ≡ [])) }
{
    facts.lawful();
    match def {
        DefWithBodyId::FunctionId(function) => {
            let aliases = fn_aliases(alloc, facts.types(), facts.fn_(function))?;
            Ok(aliases.is_empty())
        }
        _ => Ok(true),
    }
}

/// What the body of a definition knows of the types of what the definition takes and gives: `infer.rs`, `collect_fn`, where each written
/// type is normalized (`infer/unify.rs`, `process_user_written_ty`).
pub fn own_types(
    alloc: Global,
    goals: &GoalTable,
    facts: &Facts,
    def: DefWithBodyId,
) -> Result<OwnTypes, AllocError>
    requires body { HasBody facts.now def }
    requires table { goals.now.table ≡ new_state }
    requires facts { goals.now.sources.facts ≡ facts.now }
    requires item { goals.now.sources.item ≡ scope_item facts.now def }
    ensures { IfOk result (λ own. AreOwnTypes facts.now def own.inputs.items own.output) }
{
    let written = facts.inputs(def);
    let output = return_ty(alloc, facts, def)?;
    if names_no_alias(alloc, facts, def)? {
        let inputs = written_tys(alloc, facts, written)?;
        return Ok(OwnTypes {
            inputs,
            output: Some(output),
        });
    }
    let inputs = known_tys(alloc, goals, facts, def, written)?;
    let output = known_ty(alloc, goals, facts, def, &output)?;
    Ok(OwnTypes { inputs, output })
}
