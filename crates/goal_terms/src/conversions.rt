//! Types and lists of their arguments as terms.
ghost use Rattle.std.specs.Prelude.{◌≡◌, [], IfOk, map};
ghost use Rattle.goal_terms.specs.Words.{term, node, chain, const_term, const_part, type_part, arg_term, part_term, part_terms};
ghost use Rattle.goal_terms.specs.Own.{term_of, IsHead, HasHeads};

use crate::levels::one_level;
use crate::term::Term;
use hir_types::{Const, GenericArg, Head, Hole, List, MOST_LEVELS, Outline, OutlinePart, Ty};
use std::alloc::{AllocError, Global};

/// A head without parts.
#[tactic(auto, using(crate::specs::Terms::term_is))]
fn bare(alloc: Global, head: Head) -> Result<Term, AllocError>
    ensures is { IfOk result (λ made. term_of made ≡ node head []) }
    ensures heads { IfOk result (λ made. HasHeads (term_of made)) }
{
    Term::join(alloc, Term::Leaf(head), Term::Leaf(Head::End))
}

#[tactic(auto, using(crate::specs::Terms::term_is))]
fn value_term(alloc: Global, value: Const) -> Result<Term, AllocError>
    ensures is { IfOk result (λ made. term_of made ≡ const_term value) }
    ensures heads { IfOk result (λ made. HasHeads (term_of made)) }
{
    match value {
        Const::Value(number) => bare(alloc, Head::Value(number)),
        Const::Param(number) => bare(alloc, Head::ConstParam(number)),
        Const::Unknown => bare(alloc, Head::UnknownConst),
        Const::Var(number) => Ok(Term::Hole(Hole::Const(number))),
        Const::Hole => bare(alloc, Head::ConstHole),
    }
}

/// A const as a part.
#[tactic(auto, using(crate::specs::Terms::term_is))]
fn const_of(alloc: Global, value: Const) -> Result<Term, AllocError>
    ensures is { IfOk result (λ made. term_of made ≡ const_part value) }
    ensures heads { IfOk result (λ made. IsHead (term_of made) × HasHeads (term_of made)) }
{
    let value = value_term(alloc, value)?;
    Term::join(alloc, Term::Leaf(Head::ConstPart), value)
}

/// A type as a part.
#[cycle(convert)]
#[tactic(auto, using(crate::specs::Terms::term_is))]
fn type_of(alloc: Global, ty: &Ty, levels: u32) -> Result<Term, AllocError>
    ensures is { IfOk result (λ made. term_of made ≡ type_part (term ty.now)) }
    ensures heads { IfOk result (λ made. IsHead (term_of made) × HasHeads (term_of made)) }
{
    let ty = type_within(alloc, ty, levels)?;
    Term::join(alloc, Term::Leaf(Head::TypePart), ty)
}

#[cycle(convert)]
#[tactic(auto, using(crate::specs::Terms::term_is))]
fn part_of(alloc: Global, part: &OutlinePart<'_>, levels: u32) -> Result<Term, AllocError>
    ensures is { IfOk result (λ made. term_of made ≡ part_term part.now) }
    ensures heads { IfOk result (λ made. IsHead (term_of made) × HasHeads (term_of made)) }
{
    match part {
        OutlinePart::Ty(ty) => type_of(alloc, ty, levels),
        OutlinePart::Const(value) => const_of(alloc, *value),
        OutlinePart::Mark(head) => Ok(Term::Leaf(*head)),
    }
}

/// Parts in order, from the last to the first.
#[cycle(convert)]
#[tactic(auto, using(crate::specs::Terms::term_is))]
fn parts_of(alloc: Global, parts: &[OutlinePart<'_>], levels: u32) -> Result<Term, AllocError>
    ensures is { IfOk result (λ made. term_of made ≡ chain (part_terms parts.now)) }
    ensures heads { IfOk result (λ made. HasHeads (term_of made)) }
{
    let mut made = Term::Leaf(Head::End);
    for i in (0..parts.len()).rev() {
        let part = part_of(alloc, &parts[i], levels)?;
        made = Term::join(alloc, part, made)?;
    }
    Ok(made)
}

#[cycle(convert)]
#[tactic(auto, using(crate::specs::Terms::term_is))]
fn type_within(alloc: Global, ty: &Ty, levels: u32) -> Result<Term, AllocError>
    ensures is { IfOk result (λ made. term_of made ≡ term ty.now) }
    ensures heads { IfOk result (λ made. HasHeads (term_of made)) }
{
    let below = one_level(levels)?;
    match ty.outline(alloc)? {
        Outline::Hole(hole) => Ok(Term::Hole(hole)),
        Outline::Node(head, parts) => {
            let parts = parts_of(alloc, &parts, below)?;
            Term::join(alloc, Term::Leaf(head), parts)
        }
    }
}

/// The type as a term.
pub fn type_term(alloc: Global, ty: &Ty) -> Result<Term, AllocError>
    ensures is { IfOk result (λ made. term_of made ≡ term ty.now) }
    ensures heads { IfOk result (λ made. HasHeads (term_of made)) }
{
    type_within(alloc, ty, MOST_LEVELS)
}

#[tactic(auto, using(hir_types::specs::TermLaws::term_is))]
fn arg_of(alloc: Global, arg: &GenericArg) -> Result<Term, AllocError>
    ensures is { IfOk result (λ made. term_of made ≡ arg_term arg.now) }
    ensures heads { IfOk result (λ made. IsHead (term_of made) × HasHeads (term_of made)) }
{
    match arg {
        GenericArg::Ty(ty) => type_of(alloc, ty, MOST_LEVELS),
        GenericArg::Const(value) => const_of(alloc, *value),
    }
}

/// A list of arguments as a term.
#[tactic(auto, using(crate::specs::Terms::term_is))]
pub fn args_term(alloc: Global, args: &List<GenericArg>) -> Result<Term, AllocError>
    ensures is { IfOk result (λ made. term_of made ≡ chain (map arg_term args.now)) }
    ensures heads { IfOk result (λ made. HasHeads (term_of made)) }
{
    let args = args.as_slice();
    let mut made = Term::Leaf(Head::End);
    for i in (0..args.len()).rev() {
        let arg = arg_of(alloc, &args[i])?;
        made = Term::join(alloc, arg, made)?;
    }
    Ok(made)
}
