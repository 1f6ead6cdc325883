//! Reading expressions of the kinds that inference does not carry yet.
ghost use Rattle.std.specs.Prelude.{◌≡◌, List, Result, Some, None, Ok, Err};
ghost use Rattle.serde_json.specs.View.{view};
ghost use Rattle.infer_text.specs.Own.{IsAsRead, record_field_in, closure_param_in, unsafe_in, let_expr_in, loop_in, closure_in, break_in, method_in, field_expr_in, index_in, record_in, repeat_in, range_in, cast_in, ref_expr_in, unary_expr_in, binary_expr_in, assign_in, later_expr_in, jump_in, compound_in, operation_in};

use super::fault::Misread;
use super::reader::{FromData, expect_parts, is, misshapen, part_of};
use hir_raw::{LaterExpr, RawClosureParam, RawRecordField};
use serde_json::Value;
use std::alloc::Global;

#[tactic(auto, unfolding(crate::specs::LaterExprs::record_field_in))]
impl FromData for RawRecordField {
    ghost reads = { record_field_in };

    fn from_data(alloc: Global, value: &Value) -> Result<RawRecordField, Misread> {
        expect_parts(alloc, value, 2)?;
        let name = part_of(alloc, value, 0)?;
        let expr = part_of(alloc, value, 1)?;
        Ok(RawRecordField { name, expr })
    }
}

#[tactic(auto, unfolding(crate::specs::LaterExprs::closure_param_in))]
impl FromData for RawClosureParam {
    ghost reads = { closure_param_in };

    fn from_data(alloc: Global, value: &Value) -> Result<RawClosureParam, Misread> {
        expect_parts(alloc, value, 2)?;
        let pat = part_of(alloc, value, 0)?;
        let type_ref = part_of(alloc, value, 1)?;
        Ok(RawClosureParam { pat, type_ref })
    }
}

#[tactic(auto, unfolding(crate::specs::LaterExprs::unsafe_in))]
fn unsafe_block(alloc: Global, value: &Value) -> Result<LaterExpr, Misread>
    ensures { IsAsRead result (unsafe_in (view value.now)) }
{
    let statements = part_of(alloc, value, 1)?;
    let tail = part_of(alloc, value, 2)?;
    Ok(LaterExpr::Unsafe { statements, tail })
}

#[tactic(auto, unfolding(crate::specs::LaterExprs::let_expr_in))]
fn let_expr(alloc: Global, value: &Value) -> Result<LaterExpr, Misread>
    ensures { IsAsRead result (let_expr_in (view value.now)) }
{
    let pat = part_of(alloc, value, 1)?;
    let expr = part_of(alloc, value, 2)?;
    Ok(LaterExpr::Let { pat, expr })
}

#[tactic(auto, unfolding(crate::specs::LaterExprs::loop_in))]
fn loop_expr(alloc: Global, value: &Value) -> Result<LaterExpr, Misread>
    ensures { IsAsRead result (loop_in (view value.now)) }
{
    let label = part_of(alloc, value, 1)?;
    let body = part_of(alloc, value, 2)?;
    Ok(LaterExpr::Loop { label, body })
}

#[tactic(auto, unfolding(crate::specs::LaterExprs::closure_in))]
fn closure(alloc: Global, value: &Value) -> Result<LaterExpr, Misread>
    ensures { IsAsRead result (closure_in (view value.now)) }
{
    let params = part_of(alloc, value, 1)?;
    let ret_type = part_of(alloc, value, 2)?;
    let body = part_of(alloc, value, 3)?;
    Ok(LaterExpr::Closure {
        params,
        ret_type,
        body,
    })
}

#[tactic(auto, unfolding(crate::specs::LaterExprs::break_in))]
fn break_expr(alloc: Global, value: &Value) -> Result<LaterExpr, Misread>
    ensures { IsAsRead result (break_in (view value.now)) }
{
    let label = part_of(alloc, value, 1)?;
    let expr = part_of(alloc, value, 2)?;
    Ok(LaterExpr::Break { label, expr })
}

#[tactic(auto, unfolding(crate::specs::LaterExprs::method_in))]
fn method_call(alloc: Global, value: &Value) -> Result<LaterExpr, Misread>
    ensures { IsAsRead result (method_in (view value.now)) }
{
    let receiver = part_of(alloc, value, 1)?;
    let method_name = part_of(alloc, value, 2)?;
    let generic_args = part_of(alloc, value, 3)?;
    let args = part_of(alloc, value, 4)?;
    Ok(LaterExpr::MethodCall {
        receiver,
        method_name,
        generic_args,
        args,
    })
}

#[tactic(auto, unfolding(crate::specs::LaterExprs::field_expr_in))]
fn field(alloc: Global, value: &Value) -> Result<LaterExpr, Misread>
    ensures { IsAsRead result (field_expr_in (view value.now)) }
{
    let expr = part_of(alloc, value, 1)?;
    let name = part_of(alloc, value, 2)?;
    Ok(LaterExpr::Field { expr, name })
}

#[tactic(auto, unfolding(crate::specs::LaterExprs::index_in))]
fn index(alloc: Global, value: &Value) -> Result<LaterExpr, Misread>
    ensures { IsAsRead result (index_in (view value.now)) }
{
    let base = part_of(alloc, value, 1)?;
    let index = part_of(alloc, value, 2)?;
    Ok(LaterExpr::Index { base, index })
}

#[tactic(auto, unfolding(crate::specs::LaterExprs::record_in))]
fn record_lit(alloc: Global, value: &Value) -> Result<LaterExpr, Misread>
    ensures { IsAsRead result (record_in (view value.now)) }
{
    let path = part_of(alloc, value, 1)?;
    let fields = part_of(alloc, value, 2)?;
    let spread = part_of(alloc, value, 3)?;
    Ok(LaterExpr::RecordLit {
        path,
        fields,
        spread,
    })
}

#[tactic(auto, unfolding(crate::specs::LaterExprs::repeat_in))]
fn repeat(alloc: Global, value: &Value) -> Result<LaterExpr, Misread>
    ensures { IsAsRead result (repeat_in (view value.now)) }
{
    let initializer = part_of(alloc, value, 1)?;
    let repeat = part_of(alloc, value, 2)?;
    let length = part_of(alloc, value, 3)?;
    Ok(LaterExpr::Repeat {
        initializer,
        repeat,
        length,
    })
}

#[tactic(auto, unfolding(crate::specs::LaterExprs::range_in))]
fn range(alloc: Global, value: &Value) -> Result<LaterExpr, Misread>
    ensures { IsAsRead result (range_in (view value.now)) }
{
    let is_inclusive = part_of(alloc, value, 1)?;
    let lhs = part_of(alloc, value, 2)?;
    let rhs = part_of(alloc, value, 3)?;
    Ok(LaterExpr::Range {
        is_inclusive,
        lhs,
        rhs,
    })
}

#[tactic(auto, unfolding(crate::specs::LaterExprs::cast_in))]
fn cast(alloc: Global, value: &Value) -> Result<LaterExpr, Misread>
    ensures { IsAsRead result (cast_in (view value.now)) }
{
    let expr = part_of(alloc, value, 1)?;
    let type_ref = part_of(alloc, value, 2)?;
    Ok(LaterExpr::Cast { expr, type_ref })
}

#[tactic(auto, unfolding(crate::specs::LaterExprs::ref_expr_in))]
fn ref_expr(alloc: Global, value: &Value) -> Result<LaterExpr, Misread>
    ensures { IsAsRead result (ref_expr_in (view value.now)) }
{
    let is_raw = part_of(alloc, value, 1)?;
    let mutability = part_of(alloc, value, 2)?;
    let expr = part_of(alloc, value, 3)?;
    Ok(LaterExpr::Ref {
        is_raw,
        mutability,
        expr,
    })
}

#[tactic(auto, unfolding(crate::specs::LaterExprs::unary_expr_in))]
fn unary(alloc: Global, value: &Value) -> Result<LaterExpr, Misread>
    ensures { IsAsRead result (unary_expr_in (view value.now)) }
{
    let op = part_of(alloc, value, 1)?;
    let expr = part_of(alloc, value, 2)?;
    Ok(LaterExpr::UnaryOp { op, expr })
}

#[tactic(auto, unfolding(crate::specs::LaterExprs::binary_expr_in))]
fn binary(alloc: Global, value: &Value) -> Result<LaterExpr, Misread>
    ensures { IsAsRead result (binary_expr_in (view value.now)) }
{
    let op = part_of(alloc, value, 1)?;
    let lhs = part_of(alloc, value, 2)?;
    let rhs = part_of(alloc, value, 3)?;
    Ok(LaterExpr::BinaryOp { op, lhs, rhs })
}

#[tactic(auto, unfolding(crate::specs::LaterExprs::assign_in))]
fn assignment(alloc: Global, value: &Value) -> Result<LaterExpr, Misread>
    ensures { IsAsRead result (assign_in (view value.now)) }
{
    let target = part_of(alloc, value, 1)?;
    let value = part_of(alloc, value, 2)?;
    Ok(LaterExpr::Assignment { target, value })
}

/// An operation.
#[tactic(auto, unfolding(crate::specs::LaterExprs::operation_in))]
fn operation(alloc: Global, tag: (&str, usize), value: &Value) -> Result<LaterExpr, Misread>
    ensures { IsAsRead result (operation_in (tag.entry.0.now, tag.entry.1) (view value.now)) }
{
    if is(tag, "cast", 3) {
        cast(alloc, value)
    } else if is(tag, "ref", 4) {
        ref_expr(alloc, value)
    } else if is(tag, "box", 2) {
        Ok(LaterExpr::Box(part_of(alloc, value, 1)?))
    } else if is(tag, "un", 3) {
        unary(alloc, value)
    } else if is(tag, "bin", 4) {
        binary(alloc, value)
    } else if is(tag, "assign", 3) {
        assignment(alloc, value)
    } else if is(tag, "index", 3) {
        index(alloc, value)
    } else {
        Err(misshapen(alloc))
    }
}

/// A method call, a field, a record, a range, an array, or an operation.
#[tactic(auto, unfolding(crate::specs::LaterExprs::compound_in))]
fn compound(alloc: Global, tag: (&str, usize), value: &Value) -> Result<LaterExpr, Misread>
    ensures { IsAsRead result (compound_in (tag.entry.0.now, tag.entry.1) (view value.now)) }
{
    if is(tag, "method", 5) {
        method_call(alloc, value)
    } else if is(tag, "field", 3) {
        field(alloc, value)
    } else if is(tag, "record", 4) {
        record_lit(alloc, value)
    } else if is(tag, "range", 4) {
        range(alloc, value)
    } else if is(tag, "array", 2) {
        Ok(LaterExpr::Array(part_of(alloc, value, 1)?))
    } else if is(tag, "repeat", 4) {
        repeat(alloc, value)
    } else {
        operation(alloc, tag, value)
    }
}

/// What leaves a loop or a function, a compound, or an operation.
#[tactic(auto, unfolding(crate::specs::LaterExprs::jump_in))]
fn jump(alloc: Global, tag: (&str, usize), value: &Value) -> Result<LaterExpr, Misread>
    ensures { IsAsRead result (jump_in (tag.entry.0.now, tag.entry.1) (view value.now)) }
{
    if is(tag, "break", 3) {
        break_expr(alloc, value)
    } else if is(tag, "continue", 2) {
        let label = part_of(alloc, value, 1)?;
        Ok(LaterExpr::Continue { label })
    } else if is(tag, "return", 2) {
        Ok(LaterExpr::Return(part_of(alloc, value, 1)?))
    } else if is(tag, "become", 2) {
        Ok(LaterExpr::Become(part_of(alloc, value, 1)?))
    } else {
        compound(alloc, tag, value)
    }
}

/// An expression of a kind that inference does not carry yet, by its tag.
#[tactic(auto, unfolding(crate::specs::LaterExprs::later_expr_in))]
pub fn later_expr(alloc: Global, tag: (&str, usize), value: &Value) -> Result<LaterExpr, Misread>
    ensures { IsAsRead result (later_expr_in (tag.entry.0.now, tag.entry.1) (view value.now)) }
{
    if is(tag, "missing", 0) {
        Ok(LaterExpr::Missing)
    } else if is(tag, "_", 0) {
        Ok(LaterExpr::Underscore)
    } else if is(tag, "offset", 0) {
        Ok(LaterExpr::Offset)
    } else if is(tag, "unsafe", 3) {
        unsafe_block(alloc, value)
    } else if is(tag, "const", 2) {
        Ok(LaterExpr::Const(part_of(alloc, value, 1)?))
    } else if is(tag, "let", 3) {
        let_expr(alloc, value)
    } else if is(tag, "loop", 3) {
        loop_expr(alloc, value)
    } else if is(tag, "closure", 4) {
        closure(alloc, value)
    } else {
        jump(alloc, tag, value)
    }
}
