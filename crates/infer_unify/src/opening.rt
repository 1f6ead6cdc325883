//! Terms with holes in the places of associated types that are to be read, and of `{unknown}`.
ghost use Rattle.std.specs.Prelude.{◌≡◌, ◌+◌, IfOk, OnOk};
ghost use Rattle.infer_unify.specs.Words.{hole_number, term_of};
ghost use Rattle.infer_unify.specs.Own.{aliases_of, IsOpened, IsPutFor, above, AreOpened};

use goal_terms::Term;
use hir_types::{Head, Hole, TypeAliasId};
use std::alloc::{AllocError, Global};

/// An associated type at its arguments, and the number of the hole in its place.
#[derive(Debug, Drop)]
pub struct Alias {
    pub hole: usize,
    pub alias: TypeAliasId,
    pub args: Term,
}

/// Two terms with holes in these places, and the associated types.
#[derive(Debug, Drop)]
pub(crate) struct OpenedBoth {
    pub left: Term,
    pub right: Term,
    pub aliases: Vec<Alias>,
}

/// The number from which on no hole is in use, and the associated types that were met.
#[derive(Debug, Drop)]
struct Opening {
    next: usize,
    aliases: Vec<Alias>,
}

fn number_of(hole: Hole) -> usize
    ensures { result ≡ hole_number hole }
{
    match hole {
        Hole::Ty(number) | Hole::Int(number) | Hole::Const(number) => number,
    }
}

/// The least number above those of all holes in the term.
#[tactic(auto, using(crate::specs::Words::term_is))]
fn number_above(term: &Term) -> Result<usize, AllocError>
    ensures { IfOk result (λ n. n ≡ above (term_of term.now)) }
{
    match term {
        Term::Hole(hole) => number_of(*hole).checked_add(1).ok_or(AllocError),
        Term::Leaf(_) => Ok(0),
        Term::Pair(left, right) => {
            let left = number_above(left.get())?;
            let right = number_above(right.get())?;
            Ok(left.max(right))
        }
    }
}

impl Opening {
    /// The number of a hole that is not in use.
    fn fresh(&mut self) -> Result<usize, AllocError>
        ensures made { IfOk result (λ made. made ≡ self.old.next) }
        ensures next { OnOk result (self.new.next ≡ self.old.next + 1) }
        ensures aliases { self.new.aliases ≡ self.old.aliases }
    {
        let number = self.next;
        self.next = number.checked_add(1).ok_or(AllocError)?;
        Ok(number)
    }

    /// The hole that is put in the place of a head with the parts behind it, where one is.
    fn put_for(
        &mut self,
        alloc: Global,
        head: Head,
        parts: &Term,
    ) -> Result<Option<Hole>, AllocError>
        ensures { IfOk result (λ put. IsPutFor self.old.next self.new.next (aliases_of self.old.aliases.items) (aliases_of self.new.aliases.items) head (term_of parts.now) put) }
    {
        match head {
            Head::Projection(alias) => {
                let hole = self.fresh()?;
                let args = parts.dup(alloc)?;
                self.aliases.push(Alias { hole, alias, args })?;
                Ok(Some(Hole::Ty(hole)))
            }
            Head::Error => Ok(Some(Hole::Ty(self.fresh()?))),
            Head::UnknownConst => Ok(Some(Hole::Const(self.fresh()?))),
            _ => Ok(None),
        }
    }

    /// The term with holes in these places.
    #[tactic(auto, using(crate::specs::Words::term_is))]
    fn open(&mut self, alloc: Global, term: &Term) -> Result<Term, AllocError>
        ensures { IfOk result (λ made. IsOpened self.old.next self.new.next (aliases_of self.old.aliases.items) (aliases_of self.new.aliases.items) (term_of term.now) (term_of made)) }
    {
        match term {
            Term::Hole(hole) => Ok(Term::Hole(*hole)),
            Term::Leaf(head) => Ok(Term::Leaf(*head)),
            Term::Pair(first, rest) => match first.get() {
                Term::Hole(hole) => {
                    let rest = self.open(alloc, rest.get())?;
                    Term::join(alloc, Term::Hole(*hole), rest)
                }
                Term::Leaf(head) => {
                    if let Some(hole) = self.put_for(alloc, *head, rest.get())? {
                        return Ok(Term::Hole(hole));
                    }
                    let rest = self.open(alloc, rest.get())?;
                    Term::join(alloc, Term::Leaf(*head), rest)
                }
                Term::Pair(mark, part) => {
                    let mark = mark.get().dup(alloc)?;
                    let part = self.open(alloc, part.get())?;
                    let first = Term::join(alloc, mark, part)?;
                    let rest = self.open(alloc, rest.get())?;
                    Term::join(alloc, first, rest)
                }
            },
        }
    }
}

/// Two terms, the holes that are put in the second behind those in the first.
pub(crate) fn open_both(alloc: Global, left: &Term, right: &Term) -> Result<OpenedBoth, AllocError>
    ensures { IfOk result (λ made. AreOpened (term_of left.now) (term_of right.now) (aliases_of made.aliases.items) (term_of made.left) (term_of made.right)) }
{
    let next = number_above(left)?.max(number_above(right)?);
    let mut opening = Opening {
        next,
        aliases: Vec::new(alloc),
    };
    let left = opening.open(alloc, left)?;
    let right = opening.open(alloc, right)?;
    Ok(OpenedBoth {
        left,
        right,
        aliases: opening.aliases,
    })
}
