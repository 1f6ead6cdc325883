//! Goals that nothing selects until more is known of their holes: the stalled obligations of the
//! fulfillment context that `infer/unify.rs` asks in `select_obligations_where_possible`. One that sleeps is
//! asked again only when a hole in it is bound.
ghost use Rattle.std.specs.Prelude.{◌≡◌, ◌<◌, ◌++◌, ◌∷◌, [], length, get_or, slice_set, IfOk, OnOk};
ghost use Rattle.infer_goals.specs.Words.{hole_number, term_of, bindings};
ghost use Rattle.infer_goals.specs.Own.{IsAmong, HasRoom, IsListed, KeepsListed, ListsHoles, FallsAsleep, AreWoken, IsStirredAt, IsStirred, AreCopied};

use goal_terms::Term;
use hir_types::{Hole, List};
use infer_table::InferenceTable;
use std::alloc::{AllocError, Global};

fn number(hole: Hole) -> usize
    ensures { result ≡ hole_number hole }
{
    match hole {
        Hole::Ty(number) | Hole::Int(number) | Hole::Const(number) => number,
    }
}

/// Makes a list for the hole of this number, and for those before it.
fn make_room(alloc: Global, lists: &mut Vec<List<usize>>, hole: usize) -> Result<(), AllocError>
    ensures { OnOk result (HasRoom lists.old.items hole lists.new.items) }
{
    'grow: while lists.len() <= hole {
        lists.push(List::new(alloc))?;
    }
    Ok(())
}

fn push_at(lists: &mut Vec<List<usize>>, hole: usize, at: usize) -> Result<(), AllocError>
    requires { hole < length lists.old.items }
    ensures { OnOk result (lists.new.items ≡ slice_set lists.old.items hole (get_or lists.old.items hole [] ++ at ∷ [])) }
{
    lists[hole].push(at)?;
    Ok(())
}

/// Adds an obligation to those that sleep on a hole.
fn push_hole(
    alloc: Global,
    lists: &mut Vec<List<usize>>,
    hole: usize,
    at: usize,
) -> Result<(), AllocError>
    ensures kept { OnOk result (KeepsListed lists.old.items lists.new.items) }
    ensures listed { OnOk result (IsListed lists.new.items hole at) }
{
    make_room(alloc, lists, hole)?;
    push_at(lists, hole, at)?;
    Ok(())
}

/// Adds an obligation to those that sleep on each hole of the term.
#[tactic(auto, using(crate::specs::Words::term_is))]
fn push_holes(
    alloc: Global,
    lists: &mut Vec<List<usize>>,
    term: &Term,
    at: usize,
) -> Result<(), AllocError>
    ensures kept { OnOk result (KeepsListed lists.old.items lists.new.items) }
    ensures listed { OnOk result (ListsHoles lists.new.items (term_of term.now) at) }
{
    match term {
        Term::Hole(hole) => {
            push_hole(alloc, lists, number(*hole), at)?;
            Ok(())
        }
        Term::Leaf(_) => Ok(()),
        Term::Pair(first, second) => {
            push_holes(alloc, lists, first.get(), at)?;
            push_holes(alloc, lists, second.get(), at)?;
            Ok(())
        }
    }
}

/// Notes that an obligation sleeps.
fn fall_asleep(asleep: &mut Vec<bool>, at: usize) -> Result<(), AllocError>
    ensures { OnOk result (FallsAsleep asleep.old.items at asleep.new.items) }
{
    'grow: while asleep.len() <= at {
        asleep.push(false)?;
    }
    asleep[at] = true;
    Ok(())
}

/// Wakes an obligation, where it sleeps: so it is listed once, however many of its holes were bound.
fn wake_one(asleep: &mut Vec<bool>, at: usize, todo: &mut Vec<usize>) -> Result<(), AllocError>
    ensures { OnOk result (AreWoken (λ i. i ≡ at) asleep.old.items todo.old.items asleep.new.items todo.new.items) }
{
    let Some(true) = asleep.get(at) else {
        return Ok(());
    };
    asleep[at] = false;
    todo.push(at)?;
    Ok(())
}

/// Wakes those of these that sleep.
fn wake_all(
    asleep: &mut Vec<bool>,
    numbers: &[usize],
    todo: &mut Vec<usize>,
) -> Result<(), AllocError>
    ensures { OnOk result (AreWoken (IsAmong numbers.now) asleep.old.items todo.old.items asleep.new.items todo.new.items) }
{
    for at in numbers {
        wake_one(asleep, *at, todo)?;
    }
    Ok(())
}

/// The obligations that nothing selects, by the holes for which they wait.
#[derive(Debug, Drop)]
pub struct Sleepers {
    alloc: Global,
    /// For each hole, by its number, those that fell asleep with it.
    by_hole: Vec<List<usize>>,
    /// Which sleep still.
    asleep: Vec<bool>,
    /// How many of the table's bindings were looked at.
    seen: usize,
}

impl Sleepers {
    /// None sleeps.
    pub fn new(alloc: Global) -> Sleepers
        ensures asleep { result.asleep.items ≡ [] }
        ensures seen { result.seen ≡ 0 }
    {
        Sleepers {
            alloc,
            by_hole: Vec::new(alloc),
            asleep: Vec::new(alloc),
            seen: 0,
        }
    }

    /// Lets an obligation sleep until one of the holes in these parts of its goal is bound.
    pub fn sleep(&mut self, at: usize, parts: &Term) -> Result<(), AllocError>
        ensures kept { OnOk result (KeepsListed self.old.by_hole.items self.new.by_hole.items) }
        ensures listed { OnOk result (ListsHoles self.new.by_hole.items (term_of parts.now) at) }
        ensures asleep { OnOk result (FallsAsleep self.old.asleep.items at self.new.asleep.items) }
        ensures seen { self.new.seen ≡ self.old.seen }
    {
        push_holes(self.alloc, &mut self.by_hole, parts, at)?;
        fall_asleep(&mut self.asleep, at)?;
        Ok(())
    }

    /// Wakes those that sleep on a hole.
    fn wake_hole(&mut self, hole: usize, todo: &mut Vec<usize>) -> Result<(), AllocError>
        ensures woken { OnOk result (AreWoken (IsListed self.old.by_hole.items hole) self.old.asleep.items todo.old.items self.new.asleep.items todo.new.items) }
        ensures lists { self.new.by_hole.items ≡ self.old.by_hole.items }
    {
        let Some(numbers) = self.by_hole.get(hole) else {
            return Ok(());
        };
        wake_all(&mut self.asleep, numbers.as_slice(), todo)?;
        Ok(())
    }

    /// Wakes those that sleep on the hole that was bound after so many others.
    fn wake_bound(
        &mut self,
        table: &InferenceTable,
        place: usize,
        todo: &mut Vec<usize>,
    ) -> Result<(), AllocError>
        ensures woken { OnOk result (AreWoken (IsStirredAt self.old.by_hole.items (bindings table.now) place) self.old.asleep.items todo.old.items self.new.asleep.items todo.new.items) }
        ensures lists { self.new.by_hole.items ≡ self.old.by_hole.items }
    {
        let Some(hole) = table.bound_hole(place) else {
            return Ok(());
        };
        self.wake_hole(number(hole), todo)?;
        Ok(())
    }

    /// Wakes those of which a hole was bound since this was last called, and adds them to those that are to
    /// be looked at.
    pub fn wake(&mut self, table: &InferenceTable, todo: &mut Vec<usize>) -> Result<(), AllocError>
        ensures woken { OnOk result (AreWoken (IsStirred self.old.by_hole.items (bindings table.now) self.old.seen (length (bindings table.now))) self.old.asleep.items todo.old.items self.new.asleep.items todo.new.items) }
        ensures lists { OnOk result (self.new.by_hole.items ≡ self.old.by_hole.items) }
        ensures seen { OnOk result (self.new.seen ≡ length (bindings table.now)) }
    {
        let count = table.bound_count();
        for place in self.seen..count {
            self.wake_bound(table, place, todo)?;
        }
        self.seen = count;
        Ok(())
    }

    /// For each hole those that fell asleep with it: copies.
    fn lists(&self) -> Result<Vec<List<usize>>, AllocError>
        ensures { IfOk result (λ made. made.items ≡ self.now.by_hole.items) }
    {
        let mut copies = Vec::new(self.alloc);
        for list in self.by_hole.as_slice() {
            copies.push(list.copied(self.alloc)?)?;
        }
        Ok(copies)
    }

    /// A copy of all.
    pub fn dup(&self) -> Result<Sleepers, AllocError>
        ensures { IfOk result (λ copy. AreCopied self.now copy) }
    {
        Ok(Sleepers {
            alloc: self.alloc,
            by_hole: self.lists()?,
            asleep: Vec::from_slice(self.alloc, self.asleep.as_slice())?,
            seen: self.seen,
        })
    }
}
