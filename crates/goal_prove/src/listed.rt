//! Lists of proofs.
ghost use Rattle.std.specs.Prelude.{IfOk};
ghost use Rattle.goal_prove.specs.Own.{IsPushed, IsProofIf};

use goal_facts::{Proof, ProofSource, asked, is_same};
use hir_facts::{Goal, List};
use std::alloc::{AllocError, Global};

/// The number of a proof of the goal, but for lifetimes, that is listed from this number on.
pub fn proof_since(
    alloc: Global,
    goal: &Goal,
    since: usize,
    proofs: &[Proof],
) -> Result<Option<usize>, AllocError>
    ensures { IfOk result (λ found. IsProofIf proofs.now goal.now found) }
{
    let wanted = asked(alloc, goal)?;
    for number in since..proofs.len() {
        let listed = asked(alloc, &proofs[number].goal)?;
        if is_same(&listed, &wanted) {
            return Ok(Some(number));
        }
    }
    Ok(None)
}

/// Adds a proof; gives its number.
pub fn push_proof(
    alloc: Global,
    goal: &Goal,
    source: ProofSource,
    children: List<usize>,
    proofs: &mut Vec<Proof>,
) -> Result<usize, AllocError>
    ensures { IfOk result (λ number. IsPushed proofs.old.items proofs.new.items (record { goal = goal.now; source = source; children = children }) number) }
{
    let number = proofs.len();
    let goal = goal.dup(alloc)?;
    proofs.push(Proof {
        goal,
        source,
        children,
    })?;
    Ok(number)
}
