//! Goals, with what comes of them worked out by hand.
ghost use Rattle.std.specs.Prelude.{◌≡◌, IfOk, OnOk};
ghost use Rattle.goal_tests.specs.Words.{only_goal, IsTree};

use goal_facts::ProofSource;
use goal_tree::GoalTree;
use hir_facts::{ExprId, ExprOrPatId, GenericArg, Goal, List, TraitId, TraitRef, Ty};
use std::alloc::{AllocError, Global};
use std::test::Fail;

pub const NODE: ExprOrPatId = ExprOrPatId::ExprId(ExprId(7));

/// That a type implements trait 0.
pub fn implements(alloc: Global, ty: Ty) -> Result<Goal, AllocError>
    ensures { IfOk result (λ made. made ≡ only_goal (record { 0 = 0 }) ty) }
{
    let mut args = List::new(alloc);
    args.push(GenericArg::Ty(ty))?;
    Ok(Goal::Trait(TraitRef {
        id: TraitId(0),
        args,
    }))
}

/// Selects the one of this number, where it is open, by what is built in.
fn select(tree: &mut GoalTree, at: usize, goals: Vec<Goal>) -> Result<(), AllocError>
    requires { IsTree tree.old }
    ensures { OnOk result (IsTree tree.new) }
{
    if tree.is_open(at) {
        tree.select(at, ProofSource::BuiltIn, goals)?;
    }
    Ok(())
}

#[test]
fn proves_what_waits(rt: HostRuntime) -> Result<(), Fail> {
    let alloc = rt.alloc();
    let mut tree = GoalTree::new(alloc);
    tree.register(implements(alloc, Ty::Bool)?, NODE, 3)?;
    tree.register(implements(alloc, Ty::Str)?, NODE, 3)?;
    let mut parts = Vec::new(alloc);
    parts.push(implements(alloc, Ty::Char)?)?;
    parts.push(implements(alloc, Ty::Never)?)?;
    select(&mut tree, 0, parts)?;
    assert_eq!(rt; tree.len(), 4);
    assert_eq!(rt; tree.pending()?.len(), 2);
    select(&mut tree, 3, Vec::new(alloc))?;
    assert_eq!(rt; tree.pending()?.len(), 2);
    select(&mut tree, 2, Vec::new(alloc))?;
    let pending = tree.pending()?;
    assert_eq!(rt; pending.len(), 1);
    assert_eq!(rt; pending[0].0, implements(alloc, Ty::Str)?);
    let proofs = tree.proofs()?;
    assert_eq!(rt; proofs.len(), 3);
    assert_eq!(rt; proofs[2].goal, implements(alloc, Ty::Bool)?);
    assert_eq!(rt; proofs[2].children.as_slice().len(), 2);
    assert_eq!(rt; proofs[2].children.get(0).copied(), Some(1));
    Ok(())
}
