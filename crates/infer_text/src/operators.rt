//! Reading operators.
ghost use Rattle.std.specs.Prelude.{◌≡◌, Result, Some, None, Ok, Err};
ghost use Rattle.infer_text.specs.Own.{logic_sign, arith_sign, cmp_sign, assign_sign, binary_sign, binary_in, unary_in};

use super::fault::Misread;
use super::reader::{FromData, misshapen};
use hir_raw::{ArithOp, BinaryOp, CmpOp, LogicOp, UnaryOp};
use serde_json::Value;
use std::alloc::Global;

fn logic_of(sign: &str) -> Option<LogicOp>
    ensures { result ≡ logic_sign sign.now }
{
    if sign == "&&" {
        Some(LogicOp::And)
    } else if sign == "||" {
        Some(LogicOp::Or)
    } else {
        None
    }
}

fn arith_of(sign: &str) -> Option<ArithOp>
    ensures { result ≡ arith_sign sign.now }
{
    if sign == "+" {
        Some(ArithOp::Add)
    } else if sign == "-" {
        Some(ArithOp::Sub)
    } else if sign == "*" {
        Some(ArithOp::Mul)
    } else if sign == "/" {
        Some(ArithOp::Div)
    } else if sign == "%" {
        Some(ArithOp::Rem)
    } else if sign == "&" {
        Some(ArithOp::BitAnd)
    } else if sign == "|" {
        Some(ArithOp::BitOr)
    } else if sign == "^" {
        Some(ArithOp::BitXor)
    } else if sign == "<<" {
        Some(ArithOp::Shl)
    } else if sign == ">>" {
        Some(ArithOp::Shr)
    } else {
        None
    }
}

fn cmp_of(sign: &str) -> Option<CmpOp>
    ensures { result ≡ cmp_sign sign.now }
{
    if sign == "==" {
        Some(CmpOp::Eq)
    } else if sign == "!=" {
        Some(CmpOp::Ne)
    } else if sign == "<" {
        Some(CmpOp::Lt)
    } else if sign == "<=" {
        Some(CmpOp::Le)
    } else if sign == ">" {
        Some(CmpOp::Gt)
    } else if sign == ">=" {
        Some(CmpOp::Ge)
    } else {
        None
    }
}

/// The operator of a compound assignment.
fn assign_of(sign: &str) -> Option<ArithOp>
    ensures { result ≡ assign_sign sign.now }
{
    if sign == "+=" {
        Some(ArithOp::Add)
    } else if sign == "-=" {
        Some(ArithOp::Sub)
    } else if sign == "*=" {
        Some(ArithOp::Mul)
    } else if sign == "/=" {
        Some(ArithOp::Div)
    } else if sign == "%=" {
        Some(ArithOp::Rem)
    } else if sign == "&=" {
        Some(ArithOp::BitAnd)
    } else if sign == "|=" {
        Some(ArithOp::BitOr)
    } else if sign == "^=" {
        Some(ArithOp::BitXor)
    } else if sign == "<<=" {
        Some(ArithOp::Shl)
    } else if sign == ">>=" {
        Some(ArithOp::Shr)
    } else {
        None
    }
}

#[tactic(auto, unfolding(crate::specs::Operators::binary_sign))]
fn binary_of(sign: &str) -> Option<BinaryOp>
    ensures { result ≡ binary_sign sign.now }
{
    if let Some(op) = logic_of(sign) {
        Some(BinaryOp::Logic(op))
    } else if let Some(op) = arith_of(sign) {
        Some(BinaryOp::Arith(op))
    } else if let Some(op) = cmp_of(sign) {
        Some(BinaryOp::Cmp(op))
    } else if let Some(op) = assign_of(sign) {
        Some(BinaryOp::Assign(op))
    } else {
        None
    }
}

#[tactic(auto, unfolding(crate::specs::Operators::binary_in))]
impl FromData for BinaryOp {
    ghost reads = { binary_in };

    fn from_data(alloc: Global, value: &Value) -> Result<BinaryOp, Misread> {
        match value.as_str() {
            None => Err(misshapen(alloc)),
            Some(sign) => match binary_of(sign) {
                None => Err(misshapen(alloc)),
                Some(op) => Ok(op),
            },
        }
    }
}

#[tactic(auto, unfolding(crate::specs::Operators::unary_in))]
impl FromData for UnaryOp {
    ghost reads = { unary_in };

    fn from_data(alloc: Global, value: &Value) -> Result<UnaryOp, Misread> {
        let Some(word) = value.as_str() else {
            return Err(misshapen(alloc));
        };
        if word == "not" {
            Ok(UnaryOp::Not)
        } else if word == "neg" {
            Ok(UnaryOp::Neg)
        } else if word == "deref" {
            Ok(UnaryOp::Deref)
        } else {
            Err(misshapen(alloc))
        }
    }
}
