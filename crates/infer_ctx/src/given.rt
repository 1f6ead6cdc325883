//! What inference of a body reads.
ghost use Rattle.std.specs.Prelude.{ℕ, ◌≡◌, ◌<◌, ◌≤◌, IfOk, List, Some, take, length, map, option_copied, slice_get};
ghost use Rattle.infer_ctx.specs.Words.{written_type, fn_aliases, opened, adt_params, fn_types, variant_types, RawFn, RawVariant, recorded};
ghost use Rattle.hir_types.specs.declared.ty.Ty.TheVariants as ty;
ghost use Rattle.infer_ctx.specs.Own.{expected_type, written_at, field_at, ctor_at, IsFnSig, IsCtorSig, IsCallableItem, IsSigOfItem, ItemsAreCallable, IsSigIfItem};

use crate::expectation::Expectation;
use hir_facts::{
    DefWithBodyId, Facts, FunctionId, List, RawBody, RawFn, Schedule, Ty, TypeRefId, VariantId,
    fn_aliases, lower_opened, lower_ty, variant_aliases,
};
use hir_types::{CallableDefId, GenericArg, instantiate};
use std::alloc::{AllocError, Global};

/// A body among its facts: what `infer.rs`'s `InferenceContext` reads of its `db`, its `owner`, its
/// `body` and its `return_ty`.
#[derive(Clone, Copy)]
pub struct GivenBody<'a> {
    /// The lawful facts that the body stands among.
    pub facts: &'a Facts,
    /// The definition whose body it is.
    pub owner: DefWithBodyId,
    /// The expressions, patterns and bindings that are typed.
    pub body: &'a RawBody,
    /// The order in which the walk comes to the nodes of the body.
    pub schedule: &'a Schedule,
    /// The types of the parameters, each where the body knows of one.
    pub inputs: &'a [Option<Ty>],
    /// The type that the body is typed against, if it knows of one.
    pub return_ty: &'a Option<Ty>,
    /// What each associated type is that its `let`s are written with, by its number, where the body knows of it.
    pub aliases: &'a [Option<Ty>],
}

/// What a callable item takes and gives.
#[derive(Drop)]
pub struct CallableSig {
    /// The types of its arguments.
    pub inputs: List<Ty>,
    /// The type of a call of it.
    pub output: Ty,
}

/// An equal copy.
fn dup_arg(alloc: Global, arg: &GenericArg) -> Result<GenericArg, AllocError>
    ensures { IfOk result (λ copy. copy ≡ arg.now) }
{
    match arg {
        GenericArg::Ty(ty) => Ok(GenericArg::Ty(ty.dup(alloc)?)),
        GenericArg::Const(value) => Ok(GenericArg::Const(*value)),
    }
}

/// Equal copies of the first arguments, of so many.
pub fn first_args(
    alloc: Global,
    args: &[GenericArg],
    count: usize,
) -> Result<List<GenericArg>, AllocError>
    requires { count ≤ length args.now }
    ensures { IfOk result (λ copies. copies ≡ take count args.now) }
{
    let mut copies = List::new(alloc);
    for at in 0..count {
        copies.push(dup_arg(alloc, &args[at])?)?;
    }
    Ok(copies)
}

/// An equal copy.
fn dup_known(alloc: Global, ty: &Option<Ty>) -> Result<Option<Ty>, AllocError>
    ensures { IfOk result (λ copy. copy ≡ ty.now) }
{
    match ty {
        Some(ty) => Ok(Some(ty.dup(alloc)?)),
        None => Ok(None),
    }
}

impl GivenBody<'_> {
    /// The type of a parameter, if the body knows of one.
    pub fn input_ty(&self, alloc: Global, at: usize) -> Result<Option<Ty>, AllocError>
        requires { at < length self.now.inputs.now }
        ensures { IfOk result (λ ty. slice_get self.now.inputs.now at ≡ Some ty) }
    {
        dup_known(alloc, &self.inputs[at])
    }

    /// What an associated type is that a `let` is written with, if the body knows of it.
    pub fn alias_ty(&self, alias: TypeRefId) -> Option<&Ty>
        ensures { option_copied result ≡ recorded self.now.aliases.now alias.0 }
    {
        self.aliases.get(alias.0 as usize)?.as_ref()
    }

    /// What is expected of the root: `infer.rs`, where `infer_body` takes `return_ty`.
    pub fn return_expectation(&self) -> Expectation<'_>
        ensures { expected_type result ≡ self.now.return_ty.now }
    {
        match self.return_ty {
            Some(ty) => Expectation::HasType(ty),
            None => Expectation::None,
        }
    }

    /// The type that a written type stands for in which no `_` stands: `hir-ty`'s `lower_ty`.
    pub fn lower_ty(&self, alloc: Global, type_ref: TypeRefId) -> Result<Ty, AllocError>
        requires { type_ref.0 < length self.now.facts.now.types }
        ensures { IfOk result (λ ty. ty ≡ written_type self.now.facts.now.types type_ref) }
    {
        lower_ty(alloc, self.facts, type_ref)
    }

    /// What the item of this type takes and gives; `None` where the type is no item's: `infer/unify.rs`,
    /// `callable_sig`.
    pub fn callable_sig(
        &self,
        alloc: Global,
        callee_ty: &Ty,
    ) -> Result<Option<CallableSig>, AllocError>
        requires { ItemsAreCallable self.now.facts.now callee_ty.now }
        ensures { IfOk result (λ sig. IsSigIfItem self.now.facts.now callee_ty.now sig) }
    {
        match callee_ty {
            Ty::FnDef(id, args) => {
                let sig = self.item_sig(alloc, *id, args)?;
                Ok(Some(sig))
            }
            _ => Ok(None),
        }
    }

    /// What an item takes and gives, with these arguments in the place of its parameters.
    fn item_sig(
        &self,
        alloc: Global,
        item: CallableDefId,
        args: &List<GenericArg>,
    ) -> Result<CallableSig, AllocError>
        requires { IsCallableItem self.now.facts.now (ty.FnDef item args.now) }
        ensures { IfOk result (λ sig. IsSigOfItem self.now.facts.now (ty.FnDef item args.now) sig) }
    {
        match item {
            CallableDefId::FunctionId(function) => self.fn_sig(alloc, function, args),
            CallableDefId::VariantId(variant) => self.ctor_sig(alloc, variant, args),
        }
    }

    /// What a constructor takes and gives, with these arguments in the place of its parameters.
    fn ctor_sig(
        &self,
        alloc: Global,
        variant: VariantId,
        args: &List<GenericArg>,
    ) -> Result<CallableSig, AllocError>
        requires { IsCallableItem self.now.facts.now (ctor_at variant args.now) }
        ensures { IfOk result (λ sig. (x : RawVariant) (n : ℕ) → slice_get self.now.facts.now.variants variant.0 ≡ Some x
            → adt_params self.now.facts.now x.adt ≡ Some n → IsCtorSig self.now.facts.now.types n x args.now sig) }
    {
        let adt = self.facts.variant(variant).adt;
        let params = self.facts.adt(adt).params.len();
        let inputs = self.field_tys(alloc, variant, params, args)?;
        let output = Ty::Adt(adt, first_args(alloc, args.as_slice(), params)?);
        Ok(CallableSig { inputs, output })
    }

    /// The types of a variant's fields, with these arguments in the place of the parameters of its constructor, of
    /// which so many are its adt's: `infer/pat.rs`, where the type of a field is normalized.
    pub fn field_tys(
        &self,
        alloc: Global,
        variant: VariantId,
        params: usize,
        args: &List<GenericArg>,
    ) -> Result<List<Ty>, AllocError>
        requires { variant.0 < length self.now.facts.now.variants }
        ensures { IfOk result (λ tys. (x : RawVariant) → slice_get self.now.facts.now.variants variant.0 ≡ Some x
            → tys ≡ map (field_at (variant_types self.now.facts.now.types params x) args.now) x.fields) }
    {
        let item = self.facts.variant(variant);
        let aliases = variant_aliases(alloc, self.facts.types(), item)?;
        let mut tys = List::new(alloc);
        for field in item.fields.as_slice() {
            tys.push(self.opened_at(alloc, params, &aliases, field.type_, args)?)?;
        }
        Ok(tys)
    }

    /// What a function takes and gives, with these arguments in the place of its parameters.
    fn fn_sig(
        &self,
        alloc: Global,
        function: FunctionId,
        args: &List<GenericArg>,
    ) -> Result<CallableSig, AllocError>
        requires { function.0 < length self.now.facts.now.fns }
        ensures { IfOk result (λ sig. (x : RawFn) → slice_get self.now.facts.now.fns function.0 ≡ Some x
            → IsFnSig self.now.facts.now.types x args.now sig) }
    {
        let function = self.facts.fn_(function);
        let aliases = fn_aliases(alloc, self.facts.types(), function)?;
        let inputs = self.inputs_at(alloc, function, &aliases, args)?;
        let output = self.opened_at(
            alloc,
            function.params.len(),
            &aliases,
            function.output,
            args,
        )?;
        Ok(CallableSig { inputs, output })
    }

    /// What a function takes, of whose signature these are the associated types.
    fn inputs_at(
        &self,
        alloc: Global,
        function: &RawFn,
        aliases: &[usize],
        args: &List<GenericArg>,
    ) -> Result<List<Ty>, AllocError>
        requires { aliases.now ≡ fn_aliases self.now.facts.now.types function.now }
        ensures { IfOk result (λ tys. tys ≡ map (written_at (fn_types self.now.facts.now.types function.now) args.now) function.now.inputs) }
    {
        let mut tys = List::new(alloc);
        for type_ref in function.inputs.as_slice() {
            tys.push(self.opened_at(alloc, function.params.len(), aliases, *type_ref, args)?)?;
        }
        Ok(tys)
    }

    /// What a written type of a signature stands for that has so many parameters and these associated types: each of
    /// these for the argument of its own.
    fn opened_at(
        &self,
        alloc: Global,
        params: usize,
        aliases: &[usize],
        type_ref: TypeRefId,
        args: &List<GenericArg>,
    ) -> Result<Ty, AllocError>
        ensures { IfOk result (λ ty. ty ≡ written_at (opened params aliases.now self.now.facts.now.types) args.now type_ref) }
    {
        let ty = lower_opened(alloc, self.facts, params, aliases, type_ref)?;
        instantiate(alloc, &ty, args)
    }
}
