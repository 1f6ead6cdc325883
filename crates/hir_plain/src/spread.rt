//! The nodes of a graph from which no way leads to a bad node.
ghost use Rattle.std.specs.Prelude.{◌≡◌, ◌<◌, ◌++◌, ◌∷◌, [], ℕ, Some, fold, length, replicate, slice_get, slice_set, IfOk, OnOk};
ghost use Rattle.hir_plain.specs.Words.{KidsFit, In};
ghost use Rattle.hir_plain.specs.Own.{IsUnmarked, AreGood, users_at, AreUsers, AddsUser, marks_of, unmarked};

use hir_types::List;
use std::alloc::{AllocError, Global};

/// For each of so many nodes no node that uses it.
fn no_users(alloc: Global, count: usize) -> Result<Vec<List<usize>>, AllocError>
    ensures { IfOk result (λ v. v.items ≡ replicate count []) }
{
    let mut users = Vec::new(alloc);
    for _ in 0..count {
        users.push(List::new(alloc))?;
    }
    Ok(users)
}

fn add_user(users: &mut Vec<List<usize>>, used: usize, user: usize) -> Result<(), AllocError>
    requires { used < length users.old.items }
    ensures { OnOk result (users.new.items ≡ slice_set users.old.items used (users_at users.old.items used ++ user ∷ [])) }
{
    users[used].push(user)?;
    Ok(())
}

fn add_users(users: &mut Vec<List<usize>>, user: usize, used: &[usize]) -> Result<(), AllocError>
    requires { (k c : ℕ) → slice_get used.now k ≡ Some c → c < length users.old.items }
    ensures { OnOk result (AddsUser users.old.items users.new.items user used.now) }
{
    for node in used {
        add_user(users, *node, user)?;
    }
    Ok(())
}

/// The nodes that use each node: those whose child it is.
fn users_of(alloc: Global, kids: &List<List<usize>>) -> Result<Vec<List<usize>>, AllocError>
    requires { KidsFit kids.now }
    ensures { IfOk result (λ v. AreUsers kids.now (length kids.now) v.items) }
{
    let mut users = no_users(alloc, kids.len())?;
    for (node, children) in kids.as_slice().iter().enumerate() {
        add_users(&mut users, node, children.as_slice())?;
    }
    Ok(users)
}

/// The nodes without a mark.
fn unmarked_nodes(alloc: Global, marks: &[bool]) -> Result<Vec<usize>, AllocError>
    ensures all { IfOk result (λ v. (n : ℕ) → n < length marks.now → IsUnmarked marks.now n → In v.items n) }
    ensures only { IfOk result (λ v. (n : ℕ) → In v.items n → (n < length marks.now) × IsUnmarked marks.now n) }
{
    let mut nodes = Vec::new(alloc);
    for (node, is_marked) in marks.iter().enumerate() {
        if !*is_marked {
            nodes.push(node)?;
        }
    }
    Ok(nodes)
}

/// A search for the nodes from which a way leads to a bad one, under way.
#[derive(Drop)]
struct Spread {
    /// Which nodes are not known to lead to a bad one.
    good: Vec<bool>,
    /// The nodes that do, and whose users were not looked at.
    waiting: Vec<usize>,
}

impl Spread {
    /// Takes a node's mark away, where it has one.
    fn unmark(&mut self, node: usize) -> Result<(), AllocError>
        requires { node < length self.old.good.items }
        ensures { OnOk result (marks_of self.new ≡ unmarked (marks_of self.old) node) }
    {
        if self.good[node] {
            self.good[node] = false;
            self.waiting.push(node)?;
        }
        Ok(())
    }

    fn unmark_all(&mut self, nodes: &[usize]) -> Result<(), AllocError>
        requires { (k n : ℕ) → slice_get nodes.now k ≡ Some n → n < length self.old.good.items }
        ensures { OnOk result (marks_of self.new ≡ fold unmarked (marks_of self.old) nodes.now) }
    {
        for node in nodes {
            self.unmark(*node)?;
        }
        Ok(())
    }
}

/// Marks the nodes of a graph from which no way leads to a node that is not fine.
///
/// `kids` are each node's children. The search takes as many steps as there are nodes and children.
pub fn good_nodes(
    alloc: Global,
    kids: &List<List<usize>>,
    fine: &[bool],
) -> Result<Vec<bool>, AllocError>
    requires fit { KidsFit kids.now }
    requires size { length fine.now ≡ length kids.now }
    ensures { IfOk result (λ v. AreGood kids.now fine.now v.items) }
{
    let users = users_of(alloc, kids)?;
    let mut spread = Spread {
        good: Vec::from_slice(alloc, fine)?,
        waiting: unmarked_nodes(alloc, fine)?,
    };
    while let Some(node) = spread.waiting.pop() {
        spread.unmark_all(users[node].as_slice())?;
    }
    Ok(spread.good)
}
