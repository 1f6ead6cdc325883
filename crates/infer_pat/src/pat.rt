//! The types of patterns.
ghost use Rattle.std.specs.Prelude.{◌≡◌, ◌<◌, IfOk, Some, length, slice_get};
ghost use Rattle.infer_pat.specs.Words.{Ty, IsOfBody, given_of, scope_in, schedule_of, expected_type, bound_by, IsSound, IsFine, IsFineExpectation, IsVariant, Before, OwnDone, IsLiteral};
ghost use Rattle.hir_types.specs.declared.ty.Ty.TheVariants as ty;
ghost use Rattle.infer_pat.specs.Own.{IsTuplePatOf, IsCtorPatOf, IsPathPatOf, IsLitPatOf, BeforePat, PatDone, IsGivenOrNew, IsComponentOf, AreTupleParts, HandsParts, PatDemanded, PartsCounted, CtorDemanded};

use crate::literal::infer_literal;
use crate::path::{fresh_args_for_item, infer_expr_path};
use hir_facts::{BindingId, ExprId, List, PatId, RawPat, RawPath, Ty, VariantId, variant_arity};
use hir_types::{CallableDefId, ExprOrPatId};
use infer_coerce::{copies, demand_coerce, unify};
use infer_ctx::{Expectation, GivenBody, InferenceContext, first_args};
use infer_obligations::read_pat;
use infer_result::{BindingMode, InferenceDiagnostic, TypeMismatch};
use std::alloc::{AllocError, Global};

/// Types a pattern that stands by itself, into which a value of this type comes:
/// `infer/pat.rs`, `infer_top_pat`. None comes into that of a `let` without a written type and
/// without an initializer.
pub fn infer_top_pat(
    alloc: Global,
    context: &mut InferenceContext,
    given: &GivenBody,
    pat: PatId,
    expected: Option<Ty>,
) -> Result<(), AllocError>
    requires { BeforePat (given_of given.now) (schedule_of given.now) pat expected context.old }
    ensures { IfOk result (λ _. PatDone (given_of given.now) (schedule_of given.now)
        pat expected context.old context.new) }
{
    infer_pat(alloc, context, given, pat, expected)?;
    Ok(())
}

/// Types a pattern: `infer/pat.rs`, `infer_pat`.
#[cycle(pats)]
fn infer_pat(
    alloc: Global,
    context: &mut InferenceContext,
    given: &GivenBody,
    pat: PatId,
    expected: Option<Ty>,
) -> Result<(), AllocError>
    requires { BeforePat (given_of given.now) (schedule_of given.now) pat expected context.old }
    ensures { IfOk result (λ _. PatDone (given_of given.now) (schedule_of given.now)
        pat expected context.old context.new) }
{
    match &given.body.pats.as_slice()[pat.0 as usize] {
        RawPat::Wild => {
            context.enter();
            let ty = given_or_new(context, given, expected)?;
            context.write_pat_ty(pat, ty);
            Ok(())
        }
        RawPat::Bind { id, .. } => {
            context.enter();
            let ty = given_or_new(context, given, expected)?;
            infer_bind_pat(alloc, context, pat, *id, ty)?;
            Ok(())
        }
        RawPat::Tuple(args) => {
            infer_tuple_pat(alloc, context, given, pat, args.as_slice(), expected)
        }
        RawPat::Lit(expr) => infer_lit_pat(alloc, context, given, pat, *expr, expected),
        RawPat::TupleStruct { variant, args } => {
            infer_tuple_struct_pat(
                alloc,
                context,
                given,
                pat,
                *variant,
                args.as_slice(),
                expected,
            )
        }
        RawPat::Path(path) => infer_path_pat(alloc, context, given, pat, *path, expected),
        RawPat::Later(_) => unreachable!(),
    }
}

/// The type that comes into a pattern, or a new hole where none does.
fn given_or_new(
    context: &mut InferenceContext,
    given: &GivenBody,
    expected: Option<Ty>,
) -> Result<Ty, AllocError>
    requires sound { IsSound (scope_in given.now) context.old }
    requires fine { IsFineExpectation (scope_in given.now) context.old.goals.table expected }
    ensures { IfOk result (λ ty. IsGivenOrNew (scope_in given.now) expected ty context.old context.new) }
{
    match expected {
        Some(ty) => Ok(ty),
        None => {
            let ty = context.goals.table.next_ty_var()?;
            Ok(ty)
        }
    }
}

/// Types a pattern that binds a plain or `mut` binding: `infer/pat.rs`, `infer_bind_pat`.
fn infer_bind_pat(
    alloc: Global,
    context: &mut InferenceContext,
    pat: PatId,
    binding: BindingId,
    expected: Ty,
) -> Result<(), AllocError>
    requires modes { pat.0 < length context.old.result.binding_modes }
    requires pats { pat.0 < length context.old.result.type_of_pat }
    requires bindings { binding.0 < length context.old.result.type_of_binding }
    ensures { IfOk result (λ _. context.new ≡ bound_by context.old pat binding expected) }
{
    let bound_ty = expected.dup(alloc)?;
    context.write_binding_mode(pat, BindingMode::Move);
    context.write_pat_ty(pat, expected);
    context.write_binding_ty(binding, bound_ty);
    Ok(())
}

/// Types a tuple pattern: its own type is a tuple of what is known of the components that come
/// in, and of new holes, which is unified with what comes in; then its parts are typed, into each of which
/// its one of these types comes. This is `infer/pat.rs`'s `infer_tuple_pat_like`.
#[cycle(pats)]
fn infer_tuple_pat(
    alloc: Global,
    context: &mut InferenceContext,
    given: &GivenBody,
    pat: PatId,
    args: &[PatId],
    expected: Option<Ty>,
) -> Result<(), AllocError>
    requires before { BeforePat (given_of given.now) (schedule_of given.now) pat expected context.old }
    requires is { IsTuplePatOf given.now.body.now pat args.now }
    ensures done { IfOk result (λ _. PatDone (given_of given.now) (schedule_of given.now)
        pat expected context.old context.new) }
    ensures hands { IfOk result (λ _. HandsParts (given_of given.now) pat expected (length args.now)
        context.old context.new) }
{
    context.enter();
    let parts = part_tys(alloc, context, given, args.len(), &expected)?;
    let tys = parts.as_slice();
    let tuple = tuple_of(alloc, tys)?;
    demand_pat_ty(alloc, context, given, pat, tuple, expected)?;
    for i in 0..args.len() {
        let ty = tys[i].dup(alloc)?;
        infer_pat(alloc, context, given, args[i], Some(ty))?;
    }
    Ok(())
}

/// Types a pattern of a constructor over patterns, each of which gets the type of its field. One beyond
/// the fields gets a type of its own. This is `infer/pat.rs`'s `infer_tuple_struct_pat_like`.
#[cycle(pats)]
fn infer_tuple_struct_pat(
    alloc: Global,
    context: &mut InferenceContext,
    given: &GivenBody,
    pat: PatId,
    variant: VariantId,
    args: &[PatId],
    expected: Option<Ty>,
) -> Result<(), AllocError>
    requires before { BeforePat (given_of given.now) (schedule_of given.now) pat expected context.old }
    requires is { IsCtorPatOf given.now.body.now pat variant args.now }
    ensures { IfOk result (λ _. PatDone (given_of given.now) (schedule_of given.now)
        pat expected context.old context.new) }
{
    context.enter();
    let fields = demand_ctor(alloc, context, given, pat, variant, args.len(), expected)?;
    let tys = fields.as_slice();
    for i in 0..args.len() {
        let ty = ty_at(alloc, tys, i)?;
        infer_pat(alloc, context, given, args[i], ty)?;
    }
    Ok(())
}

/// Types a pattern that is a path to a constructor: `infer/pat.rs`, `infer_pat` at `Pat::Path`.
fn infer_path_pat(
    alloc: Global,
    context: &mut InferenceContext,
    given: &GivenBody,
    pat: PatId,
    path: RawPath,
    expected: Option<Ty>,
) -> Result<(), AllocError>
    requires before { BeforePat (given_of given.now) (schedule_of given.now) pat expected context.old }
    requires is { IsPathPatOf given.now.body.now pat path }
    ensures { IfOk result (λ _. PatDone (given_of given.now) (schedule_of given.now)
        pat expected context.old context.new) }
{
    context.enter();
    let ty = infer_expr_path(alloc, context, given, path)?;
    demand_pat_ty(alloc, context, given, pat, ty, expected)?;
    Ok(())
}

/// Types a literal pattern, which has the type of its literal. A mismatch with what comes in
/// stands at the literal. This is `infer/pat.rs`'s `infer_lit_pat`.
fn infer_lit_pat(
    alloc: Global,
    context: &mut InferenceContext,
    given: &GivenBody,
    pat: PatId,
    expr: ExprId,
    expected: Option<Ty>,
) -> Result<(), AllocError>
    requires before { BeforePat (given_of given.now) (schedule_of given.now) pat expected context.old }
    requires is { IsLitPatOf given.now.body.now pat expr }
    ensures { IfOk result (λ _. PatDone (given_of given.now) (schedule_of given.now)
        pat expected context.old context.new) }
{
    context.enter();
    let ty = infer_pat_literal(alloc, context, given, expr, Expectation::of(&expected))?;
    match &expected {
        Some(target) => {
            demand_coerce(alloc, context, given, expr, &ty, target)?;
            context.write_pat_ty(pat, ty);
            Ok(())
        }
        None => {
            context.write_pat_ty(pat, ty);
            Ok(())
        }
    }
}

/// Types the literal that a pattern is, and records its type.
fn infer_pat_literal(
    alloc: Global,
    context: &mut InferenceContext,
    given: &GivenBody,
    expr: ExprId,
    expected: Expectation,
) -> Result<Ty, AllocError>
    requires before { Before (given_of given.now) (schedule_of given.now)
        expr (expected_type expected) context.old }
    requires is { IsLiteral (slice_get given.now.body.now.exprs expr.0) }
    ensures { IfOk result (λ ty. OwnDone (given_of given.now) (schedule_of given.now)
        expr (expected_type expected.entry) ty context.old context.new) }
{
    context.enter();
    let ty = infer_literal(context, given, expr, expected)?;
    let recorded = ty.dup(alloc)?;
    context.write_expr_ty(expr, recorded);
    Ok(ty)
}

/// The types of so many parts of a tuple pattern: each is the component at its position of what comes in,
/// as far as that is known to be a tuple which has it, or else a new hole of its own.
fn part_tys(
    alloc: Global,
    context: &mut InferenceContext,
    given: &GivenBody,
    count: usize,
    expected: &Option<Ty>,
) -> Result<List<Ty>, AllocError>
    requires sound { IsSound (scope_in given.now) context.old }
    requires fine { IsFineExpectation (scope_in given.now) context.old.goals.table expected.now }
    ensures { IfOk result (λ tys. AreTupleParts (scope_in given.now) expected.now count tys context.old context.new) }
{
    let mut tys = List::new(alloc);
    for i in 0..count {
        let known = component(alloc, context, given, expected, i)?;
        let ty = given_or_new(context, given, known)?;
        tys.push(ty)?;
    }
    Ok(tys)
}

/// The component at a position of what comes into a pattern: `Some` where that is resolved to a tuple
/// which has it, else `None`.
fn component(
    alloc: Global,
    context: &InferenceContext,
    given: &GivenBody,
    expected: &Option<Ty>,
    at: usize,
) -> Result<Option<Ty>, AllocError>
    requires sound { IsSound (scope_in given.now) context.now }
    requires fine { IsFineExpectation (scope_in given.now) context.now.goals.table expected.now }
    ensures fine { IfOk result (λ known. IsFineExpectation (scope_in given.now) context.now.goals.table known) }
    ensures is { IfOk result (λ known. IsComponentOf context.now.goals.table expected.now at known) }
{
    let Some(ty) = expected else {
        return Ok(None);
    };
    match context.goals.table.shallow_resolve(ty) {
        Ty::Tuple(tys) => match tys.get(at) {
            Some(part) => {
                let part = part.dup(alloc)?;
                Ok(Some(part))
            }
            None => Ok(None),
        },
        _ => Ok(None),
    }
}

/// Asks that what comes into a pattern of a constructor be its adt, at new holes for the parameters, and
/// says where there are not as many parts as fields. Where associated types stand in the fields, the constructor is recorded
/// as the item of the pattern, and what they are is read. Gives the types of the fields.
fn demand_ctor(
    alloc: Global,
    context: &mut InferenceContext,
    given: &GivenBody,
    pat: PatId,
    variant: VariantId,
    parts: usize,
    expected: Option<Ty>,
) -> Result<List<Ty>, AllocError>
    requires within { pat.0 < length given.now.body.now.pats }
    requires of_body { IsOfBody given.now.body.now context.old.result }
    requires sound { IsSound (scope_in given.now) context.old }
    requires named { IsVariant given.now.facts.now variant }
    requires fine { IsFineExpectation (scope_in given.now) context.old.goals.table expected }
    ensures { IfOk result (λ tys. CtorDemanded (given_of given.now) pat variant parts tys expected
        context.old context.new) }
{
    let item = given.facts.variant(variant);
    let params = given.facts.adt(item.adt).params.len();
    let arity = variant_arity(alloc, given.facts.types(), item, params)?;
    let args = fresh_args_for_item(alloc, context, given, arity)?;
    let fields = given.field_tys(alloc, variant, params, &args)?;
    count_parts(context, pat, item.fields.len(), parts);
    let own = first_args(alloc, args.as_slice(), params)?;
    demand_pat_ty(alloc, context, given, pat, Ty::Adt(item.adt, own), expected)?;
    if arity <= params {
        return Ok(fields);
    }
    let ctor = Ty::FnDef(CallableDefId::VariantId(variant), args);
    context.write_pat_item(pat, ctor);
    read_pat(alloc, context, given, pat)?;
    Ok(fields)
}

/// Says where a constructor's pattern has not as many parts as the constructor has fields.
fn count_parts(context: &mut InferenceContext, pat: PatId, expected: usize, found: usize)
    ensures { PartsCounted pat expected found context.old context.new }
{
    if expected != found {
        context.push_pat_diagnostic(
            pat,
            InferenceDiagnostic::MismatchedTupleStructPatArgCount {
                pat: ExprOrPatId::PatId(pat),
                expected,
                found,
            },
        );
    }
}

/// Records a type as that of a pattern, and asks that it be what comes in, where something does:
/// `infer.rs`, `demand_eqtype`, and what the end of `infer/pat.rs`'s `infer_pat` asks of constructors.
fn demand_pat_ty(
    alloc: Global,
    context: &mut InferenceContext,
    given: &GivenBody,
    pat: PatId,
    ty: Ty,
    expected: Option<Ty>,
) -> Result<(), AllocError>
    requires within { pat.0 < length given.now.body.now.pats }
    requires of_body { IsOfBody given.now.body.now context.old.result }
    requires sound { IsSound (scope_in given.now) context.old }
    requires ty { IsFine (scope_in given.now) context.old.goals.table ty }
    requires fine { IsFineExpectation (scope_in given.now) context.old.goals.table expected }
    ensures { IfOk result (λ _. PatDemanded (given_of given.now) pat ty expected context.old context.new) }
{
    match expected {
        Some(expected) => {
            let actual = ty.dup(alloc)?;
            if unify(context, given, &expected, &ty)? {
                context.write_pat_ty(pat, ty);
                return Ok(());
            }
            context.note_pat_mismatch(pat, TypeMismatch { expected, actual });
            context.write_pat_ty(pat, ty);
            Ok(())
        }
        None => {
            context.write_pat_ty(pat, ty);
            Ok(())
        }
    }
}

/// A copy of the type at a position, where there is one.
fn ty_at(alloc: Global, tys: &[Ty], at: usize) -> Result<Option<Ty>, AllocError>
    ensures { IfOk result (λ ty. ty ≡ slice_get tys.now at) }
{
    match tys.get(at) {
        Some(ty) => {
            let ty = ty.dup(alloc)?;
            Ok(Some(ty))
        }
        None => Ok(None),
    }
}

/// The tuple of these types.
fn tuple_of(alloc: Global, tys: &[Ty]) -> Result<Ty, AllocError>
    ensures { IfOk result (λ tuple. tuple ≡ ty.Tuple tys.now) }
{
    let parts = copies(alloc, tys)?;
    Ok(Ty::Tuple(parts))
}
