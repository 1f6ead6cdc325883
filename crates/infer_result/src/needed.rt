//! What paths to items need: `infer/path.rs`, `add_required_obligations_for_value_path`.
ghost use Rattle.std.specs.Prelude.{◌≡◌, ◌+◌, ◌++◌, Some, map, slice_get, IfOk, OnOk};
ghost use Rattle.hir_types.specs.declared.ids.GenericDefId.TheVariants as generic;
ghost use Rattle.infer_result.specs.Words.hir_raw.declared.raw.RawPath.TheVariants as path;
ghost use Rattle.infer_result.specs.Words.{adt_params, count_or_none, goal_at, env_preds, asked_goal, out-Ty};
ghost use Rattle.infer_result.specs.Own.{alias_goal, alias_goals_by, alias_goals_from, fn_alias_goals, variant_alias_goals, path_alias_goals, alias_goals, path_preds, expr_preds, needed_goals, item_path, callee_needs, pat_needs_by};

use goal_facts::{goals_of, push_instances};
use hir_facts::{
    AdtId, CallableDefId, ExprId, Facts, FunctionId, GenericArg, Goal, List, PatId, RawExpr, RawFn,
    RawGoal, RawPath, RawType, RawVariant, Ty, TypeAliasId, TypeRefId, VariantId, fn_aliases,
    instantiate, variant_aliases,
};
use std::alloc::{AllocError, Global};

fn fn_preds(facts: &Facts, function: FunctionId) -> &[RawGoal]
    ensures { result.now ≡ path_preds facts.now (path.Function function) }
{
    match facts.raw().fns.get(function.0 as usize) {
        Some(function) => function.preds.as_slice(),
        None => &[],
    }
}

fn adt_preds(facts: &Facts, adt: AdtId) -> &[RawGoal]
    ensures { result.now ≡ env_preds facts.now (generic.AdtId adt) }
{
    match facts.raw().adts.get(adt.0 as usize) {
        Some(adt) => adt.preds.as_slice(),
        None => &[],
    }
}

/// The predicates of a constructor are those of its adt.
fn variant_preds(facts: &Facts, variant: VariantId) -> &[RawGoal]
    ensures { result.now ≡ path_preds facts.now (path.Ctor variant) }
{
    match facts.raw().variants.get(variant.0 as usize) {
        Some(variant) => adt_preds(facts, variant.adt),
        None => &[],
    }
}

/// The predicates of the item that an expression is a path to; none where it is none.
fn expr_preds<'a>(facts: &'a Facts, expr: &RawExpr) -> &'a [RawGoal]
    ensures { result.now ≡ expr_preds facts.now expr.now }
{
    match expr {
        RawExpr::Path(RawPath::Function(function)) => fn_preds(facts, *function),
        RawExpr::Path(RawPath::Ctor(variant)) => variant_preds(facts, *variant),
        _ => &[],
    }
}

/// That the associated type at these arguments is the one at a place among the arguments of its function.
fn alias_goal(
    alloc: Global,
    facts: &Facts,
    args: &List<GenericArg>,
    place: usize,
    alias: TypeAliasId,
    tys: &[TypeRefId],
) -> Result<Goal, AllocError>
    ensures { IfOk result (λ made. asked_goal made ≡ alias_goal facts.now args.now place alias tys.now) }
{
    let mut own = List::new(alloc);
    push_instances(alloc, facts, args, tys, &mut own)?;
    // No list of so many is in memory.
    let number = u32::try_from(place).map_err(|_| AllocError)?;
    let ty = instantiate(alloc, &Ty::Param(number), args)?;
    Ok(Goal::Projection {
        alias,
        args: own,
        ty,
    })
}

/// What a written type is at these arguments, where it is an associated type.
fn push_alias_goal(
    alloc: Global,
    facts: &Facts,
    args: &List<GenericArg>,
    place: usize,
    ty: &RawType,
    made: &mut Vec<Goal>,
) -> Result<(), AllocError>
    ensures { OnOk result (map asked_goal made.new.items ≡ map asked_goal made.old.items ++ alias_goals_by facts.now args.now place (Some ty.now)) }
{
    match ty {
        RawType::Projection { alias, args: tys } => {
            let goal = alias_goal(alloc, facts, args, place, *alias, tys.as_slice())?;
            made.push(goal)?;
            Ok(())
        }
        _ => Ok(()),
    }
}

fn push_alias_goal_at(
    alloc: Global,
    facts: &Facts,
    args: &List<GenericArg>,
    place: usize,
    ty: usize,
    made: &mut Vec<Goal>,
) -> Result<(), AllocError>
    ensures { OnOk result (map asked_goal made.new.items ≡ map asked_goal made.old.items ++ alias_goals_by facts.now args.now place (slice_get facts.now.types ty)) }
{
    match facts.raw().types.get(ty) {
        Some(ty) => push_alias_goal(alloc, facts, args, place, ty, made),
        None => Ok(()),
    }
}

fn place_after(params: usize, place: usize) -> Result<usize, AllocError>
    ensures { IfOk result (λ n. n ≡ params + place) }
{
    // No lists of so many are in memory.
    let number = params.checked_add(place).ok_or(AllocError)?;
    Ok(number)
}

fn push_aliases(
    alloc: Global,
    facts: &Facts,
    args: &List<GenericArg>,
    params: usize,
    aliases: &[usize],
    made: &mut Vec<Goal>,
) -> Result<(), AllocError>
    ensures { OnOk result (map asked_goal made.new.items ≡ map asked_goal made.old.items ++ alias_goals_from facts.now args.now params aliases.now) }
{
    for place in 0..aliases.len() {
        let number = place_after(params, place)?;
        push_alias_goal_at(alloc, facts, args, number, aliases[place], made)?;
    }
    Ok(())
}

/// What the associated types in the signature of a function are, at these arguments of it:
/// `infer/unify.rs`, `normalize_associated_types_in`.
fn push_alias_goals(
    alloc: Global,
    facts: &Facts,
    args: &List<GenericArg>,
    function: &RawFn,
    made: &mut Vec<Goal>,
) -> Result<(), AllocError>
    ensures { OnOk result (map asked_goal made.new.items ≡ map asked_goal made.old.items ++ fn_alias_goals facts.now args.now (Some function.now)) }
{
    let aliases = fn_aliases(alloc, facts.types(), function)?;
    push_aliases(
        alloc,
        facts,
        args,
        function.params.len(),
        aliases.as_slice(),
        made,
    )
}

/// How many parameters an adt has.
fn adt_params(facts: &Facts, adt: AdtId) -> usize
    ensures { result ≡ count_or_none (adt_params facts.now adt) }
{
    match facts.raw().adts.get(adt.0 as usize) {
        Some(adt) => adt.params.len(),
        None => 0,
    }
}

/// The same of the associated types in the fields of a variant, at these arguments of its constructor.
fn push_field_goals(
    alloc: Global,
    facts: &Facts,
    args: &List<GenericArg>,
    variant: &RawVariant,
    made: &mut Vec<Goal>,
) -> Result<(), AllocError>
    ensures { OnOk result (map asked_goal made.new.items ≡ map asked_goal made.old.items ++ variant_alias_goals facts.now args.now (Some variant.now)) }
{
    let aliases = variant_aliases(alloc, facts.types(), variant)?;
    push_aliases(
        alloc,
        facts,
        args,
        adt_params(facts, variant.adt),
        aliases.as_slice(),
        made,
    )
}

fn push_path_goals(
    alloc: Global,
    facts: &Facts,
    args: &List<GenericArg>,
    path: RawPath,
    made: &mut Vec<Goal>,
) -> Result<(), AllocError>
    ensures { OnOk result (map asked_goal made.new.items ≡ map asked_goal made.old.items ++ path_alias_goals facts.now args.now path) }
{
    match path {
        RawPath::Function(function) => match facts.raw().fns.get(function.0 as usize) {
            Some(function) => push_alias_goals(alloc, facts, args, function, made),
            None => Ok(()),
        },
        RawPath::Ctor(variant) => match facts.raw().variants.get(variant.0 as usize) {
            Some(variant) => push_field_goals(alloc, facts, args, variant, made),
            None => Ok(()),
        },
        RawPath::Local(_) => Ok(()),
    }
}

fn push_expr_goals(
    alloc: Global,
    facts: &Facts,
    args: &List<GenericArg>,
    expr: &RawExpr,
    made: &mut Vec<Goal>,
) -> Result<(), AllocError>
    ensures { OnOk result (map asked_goal made.new.items ≡ map asked_goal made.old.items ++ alias_goals facts.now args.now expr.now) }
{
    match expr {
        RawExpr::Path(path) => push_path_goals(alloc, facts, args, *path, made),
        _ => Ok(()),
    }
}

fn goals_at(
    alloc: Global,
    facts: &Facts,
    args: &List<GenericArg>,
    expr: &RawExpr,
) -> Result<Vec<Goal>, AllocError>
    ensures { IfOk result (λ made. map asked_goal made.items ≡ map (goal_at facts.now args.now) (expr_preds facts.now expr.now) ++ alias_goals facts.now args.now expr.now) }
{
    let mut made = goals_of(alloc, facts, args, expr_preds(facts, expr))?;
    push_expr_goals(alloc, facts, args, expr, &mut made)?;
    Ok(made)
}

/// The predicates of the item that an expression is a path to, and what the associated types in its signature
/// are, at the arguments of the item, of which this is the type, or the type of its values.
pub fn needed_goals(
    alloc: Global,
    facts: &Facts,
    expr: &RawExpr,
    ty: &Ty,
) -> Result<Vec<Goal>, AllocError>
    ensures { IfOk result (λ made. map asked_goal made.items ≡ needed_goals facts.now expr.now ty.now) }
{
    match ty {
        Ty::FnDef(_, args) | Ty::Adt(_, args) => goals_at(alloc, facts, args, expr),
        _ => goals_at(alloc, facts, &List::new(alloc), expr),
    }
}

fn item_path(item: CallableDefId) -> RawPath
    ensures { result ≡ item_path item }
{
    match item {
        CallableDefId::FunctionId(function) => RawPath::Function(function),
        CallableDefId::VariantId(variant) => RawPath::Ctor(variant),
    }
}

/// What a path to the function or constructor needs of which this is the type; nothing where it is that of neither.
pub fn callee_needs(alloc: Global, facts: &Facts, ty: &Ty) -> Result<Vec<Goal>, AllocError>
    ensures { IfOk result (λ made. map asked_goal made.items ≡ callee_needs facts.now ty.now) }
{
    match ty {
        Ty::FnDef(item, _) => needed_goals(alloc, facts, &RawExpr::Path(item_path(*item)), ty),
        _ => Ok(Vec::new(alloc)),
    }
}

/// What the associated types in the fields are that a pattern's constructor has, of which this is the type as an item.
pub fn pat_needs(alloc: Global, facts: &Facts, item: &Ty) -> Result<Vec<Goal>, AllocError>
    ensures { IfOk result (λ made. map asked_goal made.items ≡ pat_needs_by facts.now (out-Ty item.now)) }
{
    let mut made = Vec::new(alloc);
    match item {
        Ty::FnDef(id, args) => {
            push_path_goals(alloc, facts, args, item_path(*id), &mut made)?;
            Ok(made)
        }
        _ => Ok(made),
    }
}

/// The expression of this number.
pub fn expr_id(at: usize) -> Result<ExprId, AllocError>
    ensures { IfOk result (λ id. id.0 ≡ at) }
{
    // No list of so many expressions is in memory.
    let number = u32::try_from(at).map_err(|_| AllocError)?;
    Ok(ExprId(number))
}

/// The pattern of this number.
pub fn pat_id(at: usize) -> Result<PatId, AllocError>
    ensures { IfOk result (λ id. id.0 ≡ at) }
{
    // No list of so many patterns is in memory.
    let number = u32::try_from(at).map_err(|_| AllocError)?;
    Ok(PatId(number))
}
