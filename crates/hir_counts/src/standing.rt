//! What stands in written types.
ghost use Rattle.std.specs.Prelude.{◌≡◌, max, map, length, slice_index, IfOk};
ghost use Rattle.hir_counts.specs.Words.{most, type_parts, AllHold, ChildrenBefore, param_bound, wrong_args, hole_at};
ghost use Rattle.hir_counts.specs.Own.{own_of, AreMosts};

use crate::sizes::{larger, most_of};
use hir_raw::{RawFacts, RawType, alias_params, has_params};
use std::alloc::{AllocError, Global};

/// What is sought in a written type.
#[derive(Clone, Copy, Debug)]
pub enum Sought {
    /// One more than the greatest number of a parameter, or 0.
    Params,
    /// 1 where arguments are not as many as the parameters, else 0.
    Args,
    /// 1 where a `_` stands, else 0.
    Holes,
}

fn param_bound(ty: &RawType) -> usize
    ensures { result ≡ param_bound ty.now }
{
    match ty {
        RawType::Param(number) => *number as usize + 1,
        RawType::Bool | RawType::Char | RawType::Integer(_) | RawType::Tuple(_) => 0,
        RawType::Adt { .. } | RawType::Projection { .. } => 0,
        RawType::Hole | RawType::Other => 0,
    }
}

fn wrong_args(raw: &RawFacts, ty: &RawType) -> usize
    ensures { result ≡ wrong_args raw.now ty.now }
{
    match ty {
        RawType::Adt { adt, args } => match raw.adts.get(adt.0 as usize) {
            None => 1,
            Some(adt) => if adt.params.len() == args.len() { 0 } else { 1 },
        },
        RawType::Projection { alias, args } => {
            if has_params(alias_params(raw, *alias), args.len()) {
                0
            } else {
                1
            }
        }
        RawType::Bool | RawType::Char | RawType::Integer(_) | RawType::Tuple(_) => 0,
        RawType::Param(_) | RawType::Hole | RawType::Other => 0,
    }
}

fn hole_at(ty: &RawType) -> usize
    ensures { result ≡ hole_at ty.now }
{
    match ty {
        RawType::Hole => 1,
        RawType::Bool | RawType::Char | RawType::Integer(_) | RawType::Tuple(_) => 0,
        RawType::Adt { .. } | RawType::Projection { .. } => 0,
        RawType::Param(_) | RawType::Other => 0,
    }
}

fn own_of(raw: &RawFacts, sought: Sought, ty: &RawType) -> usize
    ensures { result ≡ own_of raw.now sought ty.now }
{
    match sought {
        Sought::Params => param_bound(ty),
        Sought::Args => wrong_args(raw, ty),
        Sought::Holes => hole_at(ty),
    }
}

fn most_over(mosts: &[usize], own: usize, ty: &RawType) -> usize
    requires { ChildrenBefore (length mosts.now) ty.now }
    ensures { result ≡ max own (most (map (λ t. slice_index mosts.now t.0) (type_parts ty.now))) }
{
    larger(own, most_of(mosts, ty.parts()))
}

/// The greatest number of what is sought, at each written type and all that stands in it.
pub fn mosts_of(
    alloc: Global,
    raw: &RawFacts,
    sought: Sought,
    types: &[RawType],
) -> Result<Vec<usize>, AllocError>
    requires { AllHold ChildrenBefore types.now }
    ensures { IfOk result (λ v. AreMosts (own_of raw.now sought) types.now (length types.now) v.items) }
{
    let mut mosts = Vec::new(alloc);
    for ty in types {
        let own = own_of(raw, sought, ty);
        let most = most_over(&mosts, own, ty);
        mosts.push(most)?;
    }
    Ok(mosts)
}
