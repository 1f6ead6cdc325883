//! Types as text.
ghost use Rattle.std.specs.Prelude.{◌≡◌, ◌≤◌, ◌++◌, List, length, map, take, OnOk, codes, string_bytes};
ghost use Rattle.std.specs.Option.{option_copied};
ghost use Rattle.std.specs.Fmt.{decimal};
ghost use Rattle.infer_report.specs.Words.{adt_params, int_text, uint_text, float_text, const_text, ref_text, ptr_text, label_text, safety_text, callable_text, separator, joined, tuple_text, args_text, own_count, adt_own_count, own_args, adt_text, implements_text, projection_text, arg_text, ty_text, type_text};
ghost use Rattle.infer_report.specs.Own.{later_args_text, later_arg_text};

use hir_facts::{RawFacts, RawTrait};
use hir_types::{
    AdtId, CallableDefId, ClosureId, Const, FloatTy, GenericArg, IntTy, List, Mutability, Region,
    Safety, Ty, TypeAliasId, UintTy,
};
use std::alloc::AllocError;

fn int_name(int: IntTy) -> &'static str
    ensures { result.now ≡ int_text int }
{
    match int {
        IntTy::Isize => "isize",
        IntTy::I8 => "i8",
        IntTy::I16 => "i16",
        IntTy::I32 => "i32",
        IntTy::I64 => "i64",
        IntTy::I128 => "i128",
    }
}

fn uint_name(uint: UintTy) -> &'static str
    ensures { result.now ≡ uint_text uint }
{
    match uint {
        UintTy::Usize => "usize",
        UintTy::U8 => "u8",
        UintTy::U16 => "u16",
        UintTy::U32 => "u32",
        UintTy::U64 => "u64",
        UintTy::U128 => "u128",
    }
}

fn float_name(float: FloatTy) -> &'static str
    ensures { result.now ≡ float_text float }
{
    match float {
        FloatTy::F16 => "f16",
        FloatTy::F32 => "f32",
        FloatTy::F64 => "f64",
        FloatTy::F128 => "f128",
    }
}

fn safety_name(safety: Safety) -> &'static str
    ensures { result.now ≡ safety_text safety }
{
    match safety {
        Safety::Safe => "fn",
        Safety::Unsafe => "unsafe fn",
    }
}

fn ref_name(mutability: Mutability) -> &'static str
    ensures { result.now ≡ ref_text mutability }
{
    match mutability {
        Mutability::Not => "",
        Mutability::Mut => "mut ",
    }
}

fn ptr_name(mutability: Mutability) -> &'static str
    ensures { result.now ≡ ptr_text mutability }
{
    match mutability {
        Mutability::Not => "const ",
        Mutability::Mut => "mut ",
    }
}

fn push_closure(out: &mut String, id: ClosureId) -> Result<(), AllocError>
    ensures { OnOk result (string_bytes out.new ≡ string_bytes out.old ++ (codes "closure e" ++ decimal id.0.0)) }
{
    let number = id.0.0;
    write!(out, "closure e{number}")
}

fn push_callable(out: &mut String, id: CallableDefId) -> Result<(), AllocError>
    ensures { OnOk result (string_bytes out.new ≡ string_bytes out.old ++ callable_text id) }
{
    match id {
        CallableDefId::FunctionId(function) => {
            let number = function.0;
            write!(out, "fn{number}")
        }
        CallableDefId::VariantId(variant) => {
            let number = variant.0;
            write!(out, "variant{number}")
        }
    }
}

fn push_label(out: &mut String, label: &str) -> Result<(), AllocError>
    ensures { OnOk result (string_bytes out.new ≡ string_bytes out.old ++ label_text label.now) }
{
    if label.is_empty() {
        Ok(())
    } else {
        out.push_str(label)?;
        out.push_str(" ")
    }
}

fn push_ref(out: &mut String, mutability: Mutability, region: &Region) -> Result<(), AllocError>
    ensures { OnOk result (string_bytes out.new ≡ string_bytes out.old ++ (codes "&" ++ label_text region.now.0 ++ ref_text mutability)) }
{
    out.push_str("&")?;
    push_label(out, region.0.as_str())?;
    out.push_str(ref_name(mutability))
}

fn push_ptr(out: &mut String, mutability: Mutability) -> Result<(), AllocError>
    ensures { OnOk result (string_bytes out.new ≡ string_bytes out.old ++ (codes "*" ++ ptr_text mutability)) }
{
    out.push_str("*")?;
    out.push_str(ptr_name(mutability))
}

fn push_const(out: &mut String, value: Const) -> Result<(), AllocError>
    ensures { OnOk result (string_bytes out.new ≡ string_bytes out.old ++ const_text value) }
{
    match value {
        Const::Value(value) => write!(out, "{value}"),
        Const::Param(number) => write!(out, "param{number}"),
        Const::Unknown => out.push_str("{const}"),
        Const::Var(hole) => write!(out, "?{hole}"),
        Const::Hole => out.push_str("_"),
    }
}

fn push_separator(out: &mut String, at: usize) -> Result<(), AllocError>
    ensures { OnOk result (string_bytes out.new ≡ string_bytes out.old ++ separator at) }
{
    match at {
        0 => Ok(()),
        _ => out.push_str(", "),
    }
}

#[cycle(shown)]
fn push_joined(out: &mut String, facts: &RawFacts, types: &[Ty]) -> Result<(), AllocError>
    ensures { OnOk result (string_bytes out.new ≡ string_bytes out.old ++ joined (map (ty_text facts.now) types.now)) }
{
    for (at, ty) in types.iter().enumerate() {
        push_separator(out, at)?;
        push_ty(out, facts, ty)?;
    }
    Ok(())
}

#[cycle(shown)]
fn push_tuple(out: &mut String, facts: &RawFacts, types: &List<Ty>) -> Result<(), AllocError>
    ensures { OnOk result (string_bytes out.new ≡ string_bytes out.old ++ tuple_text (map (ty_text facts.now) types.now)) }
{
    out.push_str("(")?;
    push_joined(out, facts, types.as_slice())?;
    if types.len() == 1 {
        out.push_str(",")?;
    }
    out.push_str(")")
}

#[cycle(shown)]
#[tactic(auto, using(crate::proofs::TypeTexts::arg_text_is))]
fn push_arg(out: &mut String, facts: &RawFacts, arg: &GenericArg) -> Result<(), AllocError>
    ensures { OnOk result (string_bytes out.new ≡ string_bytes out.old ++ arg_text facts.now arg.now) }
{
    match arg {
        GenericArg::Ty(ty) => push_ty(out, facts, ty),
        GenericArg::Const(value) => push_const(out, *value),
    }
}

#[cycle(shown)]
fn push_joined_args(
    out: &mut String,
    facts: &RawFacts,
    args: &[GenericArg],
) -> Result<(), AllocError>
    ensures { OnOk result (string_bytes out.new ≡ string_bytes out.old ++ joined (map (arg_text facts.now) args.now)) }
{
    for (at, arg) in args.iter().enumerate() {
        push_separator(out, at)?;
        push_arg(out, facts, arg)?;
    }
    Ok(())
}

/// Writes generic arguments, where there are any.
#[cycle(shown)]
pub fn push_args(out: &mut String, facts: &RawFacts, args: &[GenericArg]) -> Result<(), AllocError>
    ensures { OnOk result (string_bytes out.new ≡ string_bytes out.old ++ args_text (map (arg_text facts.now) args.now)) }
{
    if args.is_empty() {
        return Ok(());
    }
    out.push_str("<")?;
    push_joined_args(out, facts, args)?;
    out.push_str(">")
}

/// How many of so many arguments are those of a function's own parameters, or of those of a constructor's adt: those for
/// associated types in its signature come behind them.
fn own_count(facts: &RawFacts, id: CallableDefId, count: usize) -> usize
    ensures { result ≡ own_count facts.now id count }
{
    match id {
        CallableDefId::FunctionId(function) => match facts.fns.get(function.0 as usize) {
            Some(function) => function.params.len().min(count),
            None => count,
        },
        CallableDefId::VariantId(variant) => match facts.variants.get(variant.0 as usize) {
            Some(variant) => adt_own_count(facts, variant.adt, count),
            None => count,
        },
    }
}

/// How many of so many arguments are those of an adt's parameters.
fn adt_own_count(facts: &RawFacts, adt: AdtId, count: usize) -> usize
    ensures { result ≡ adt_own_count (adt_params facts.now adt) count }
{
    match facts.adts.get(adt.0 as usize) {
        Some(adt) => adt.params.len().min(count),
        None => count,
    }
}

/// Writes so many of these generic arguments.
#[cycle(shown)]
fn push_first_args(
    out: &mut String,
    facts: &RawFacts,
    args: &[GenericArg],
    count: usize,
) -> Result<(), AllocError>
    requires { count ≤ length args.now }
    ensures { OnOk result (string_bytes out.new ≡ string_bytes out.old ++ joined (map (arg_text facts.now) (take count args.now))) }
{
    for at in 0..count {
        push_separator(out, at)?;
        push_arg(out, facts, &args[at])?;
    }
    Ok(())
}

/// Writes the generic arguments of a function or constructor that are its own, where there are any.
#[cycle(shown)]
fn push_own_args(
    out: &mut String,
    facts: &RawFacts,
    id: CallableDefId,
    args: &[GenericArg],
) -> Result<(), AllocError>
    ensures { OnOk result (string_bytes out.new ≡ string_bytes out.old ++ args_text (own_args facts.now id (map (arg_text facts.now) args.now))) }
{
    let count = own_count(facts, id, args.len());
    if count == 0 {
        return Ok(());
    }
    out.push_str("<")?;
    push_first_args(out, facts, args, count)?;
    out.push_str(">")?;
    Ok(())
}

/// Writes a generic argument that is not the first, with what stands before it.
#[cycle(shown)]
fn push_later_arg(
    out: &mut String,
    facts: &RawFacts,
    at: usize,
    arg: &GenericArg,
) -> Result<(), AllocError>
    ensures { OnOk result (string_bytes out.new ≡ string_bytes out.old ++ later_arg_text at (arg_text facts.now arg.now)) }
{
    match at {
        0 => Ok(()),
        1 => {
            out.push_str("<")?;
            push_arg(out, facts, arg)
        }
        _ => {
            out.push_str(", ")?;
            push_arg(out, facts, arg)
        }
    }
}

/// Writes the generic arguments but the first, where there are any.
#[cycle(shown)]
fn push_later_args(
    out: &mut String,
    facts: &RawFacts,
    args: &[GenericArg],
) -> Result<(), AllocError>
    ensures { OnOk result (string_bytes out.new ≡ string_bytes out.old ++ later_args_text (map (arg_text facts.now) args.now)) }
{
    for (at, arg) in args.iter().enumerate() {
        push_later_arg(out, facts, at, arg)?;
    }
    if args.len() > 1 {
        out.push_str(">")?;
    }
    Ok(())
}

#[cycle(shown)]
fn push_adt(
    out: &mut String,
    facts: &RawFacts,
    id: AdtId,
    args: &List<GenericArg>,
) -> Result<(), AllocError>
    ensures { OnOk result (string_bytes out.new ≡ string_bytes out.old ++ adt_text facts.now id (map (arg_text facts.now) args.now)) }
{
    match facts.adts.get(id.0 as usize) {
        None => out.push_str("{unknown}"),
        Some(adt) => {
            out.push_str(adt.name.as_str())?;
            push_args(out, facts, args.as_slice())
        }
    }
}

/// Writes the self type, what stands between, and the trait at its other arguments.
#[cycle(shown)]
pub fn push_implements(
    out: &mut String,
    facts: &RawFacts,
    between: &str,
    item: Option<&RawTrait>,
    args: &[GenericArg],
) -> Result<(), AllocError>
    ensures { OnOk result (string_bytes out.new ≡ string_bytes out.old ++ implements_text between.now (option_copied item.entry) (map (arg_text facts.now) args.now)) }
{
    match (item, args.first()) {
        (Some(item), Some(own)) => {
            push_arg(out, facts, own)?;
            out.push_str(between)?;
            out.push_str(item.name.as_str())?;
            push_later_args(out, facts, args)
        }
        _ => out.push_str("{unknown}"),
    }
}

/// Writes an associated type at the arguments of its trait.
#[cycle(shown)]
pub fn push_projection(
    out: &mut String,
    facts: &RawFacts,
    id: TypeAliasId,
    args: &[GenericArg],
) -> Result<(), AllocError>
    ensures { OnOk result (string_bytes out.new ≡ string_bytes out.old ++ projection_text facts.now id (map (arg_text facts.now) args.now)) }
{
    match facts.aliases.get(id.0 as usize) {
        None => out.push_str("{unknown}"),
        Some(alias) => {
            out.push_str("<")?;
            let item = facts.traits.get(alias.trait_.0 as usize);
            push_implements(out, facts, " as ", item, args)?;
            out.push_str(">::")?;
            out.push_str(alias.name.as_str())
        }
    }
}

/// Writes what stands between a function's name and its output.
#[cycle(shown)]
fn push_inputs(out: &mut String, facts: &RawFacts, types: &List<Ty>) -> Result<(), AllocError>
    ensures { OnOk result (string_bytes out.new ≡ string_bytes out.old ++ (codes "(" ++ joined (map (ty_text facts.now) types.now) ++ codes ") -> ")) }
{
    out.push_str("(")?;
    push_joined(out, facts, types.as_slice())?;
    out.push_str(") -> ")
}

/// Writes a type: adts and associated types by their names in the facts, functions and constructors by their
/// numbers. `dyn` traits and opaque types, which the facts do not carry yet, are `{unknown}`: no type
/// that fits the facts is one.
#[cycle(shown)]
#[tactic(auto, using(crate::proofs::TypeTexts::ty_text_is))]
pub fn push_ty(out: &mut String, facts: &RawFacts, ty: &Ty) -> Result<(), AllocError>
    ensures { OnOk result (string_bytes out.new ≡ string_bytes out.old ++ ty_text facts.now ty.now) }
{
    match ty {
        Ty::Bool => out.push_str("bool"),
        Ty::Char => out.push_str("char"),
        Ty::Int(int) => out.push_str(int_name(*int)),
        Ty::Uint(uint) => out.push_str(uint_name(*uint)),
        Ty::Float(float) => out.push_str(float_name(*float)),
        Ty::Str => out.push_str("str"),
        Ty::Never => out.push_str("!"),
        Ty::Tuple(types) => push_tuple(out, facts, types),
        Ty::Array(ty, length) => {
            out.push_str("[")?;
            push_ty(out, facts, ty.get())?;
            out.push_str("; ")?;
            push_const(out, *length)?;
            out.push_str("]")
        }
        Ty::Slice(ty) => {
            out.push_str("[")?;
            push_ty(out, facts, ty.get())?;
            out.push_str("]")
        }
        Ty::Ref(mutability, region, ty) => {
            push_ref(out, *mutability, region)?;
            push_ty(out, facts, ty.get())
        }
        Ty::RawPtr(mutability, ty) => {
            push_ptr(out, *mutability)?;
            push_ty(out, facts, ty.get())
        }
        Ty::Adt(id, args) => push_adt(out, facts, *id, args),
        Ty::FnDef(id, args) => {
            push_callable(out, *id)?;
            push_own_args(out, facts, *id, args.as_slice())
        }
        Ty::FnPtr {
            safety,
            inputs,
            output,
        } => {
            out.push_str(safety_name(*safety))?;
            push_inputs(out, facts, inputs)?;
            push_ty(out, facts, output.get())
        }
        Ty::Closure { id, inputs, output } => {
            push_closure(out, *id)?;
            push_inputs(out, facts, inputs)?;
            push_ty(out, facts, output.get())
        }
        Ty::Param(number) => write!(out, "param{number}"),
        Ty::Projection(id, args) | Ty::AssociatedType(id, args) => {
            push_projection(out, facts, *id, args.as_slice())
        }
        Ty::Dynamic { .. } => out.push_str("{unknown}"),
        Ty::Opaque(..) | Ty::Error => out.push_str("{unknown}"),
        Ty::Var(hole) | Ty::IntVar(hole) => write!(out, "?{hole}"),
        Ty::Hole => out.push_str("_"),
    }
}

/// Writes the type of a node, where it has one.
pub fn push_type(out: &mut String, facts: &RawFacts, ty: &Option<Ty>) -> Result<(), AllocError>
    ensures { OnOk result (string_bytes out.new ≡ string_bytes out.old ++ type_text facts.now ty.now) }
{
    match ty {
        None => out.push_str("{unknown}"),
        Some(ty) => push_ty(out, facts, ty),
    }
}
