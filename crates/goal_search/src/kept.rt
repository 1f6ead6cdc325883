//! Answers that are kept, so that none is searched twice.
ghost use Rattle.std.specs.Prelude.{◌≡◌, ◌++◌, ◌∷◌, [], true, IfSome, OnOk, OnErr};
ghost use Rattle.goal_search.specs.Words.{term_of};
ghost use Rattle.goal_search.specs.Own.{kind_of, FoundIs};

use crate::answer::Answer;
use crate::parts::is_same_kind;
use crate::sources::Kind;
use goal_terms::Term;
use std::alloc::{AllocError, Global};

/// The answer to a goal whose parts are read, at a depth.
#[derive(Debug, Drop)]
pub struct Entry {
    pub kind: Kind,
    pub target: Term,
    pub depth: u32,
    pub answer: Answer,
}

/// Answers that were found.
#[derive(Debug, Drop)]
pub struct Kept {
    pub entries: Vec<Entry>,
}

impl Entry {
    fn is_of(&self, kind: Kind, target: &Term, depth: u32) -> bool
        ensures { result ≡ true → (self.now.depth ≡ depth) × (kind_of self.now.kind ≡ kind_of kind) × (term_of self.now.target ≡ term_of target.now) }
    {
        self.depth == depth && is_same_kind(self.kind, kind) && self.target.is_same(target)
    }
}

fn find_in(entries: &[Entry], kind: Kind, target: &Term, depth: u32) -> Option<Answer>
    ensures { IfSome result (λ answer. FoundIs entries.now (kind_of kind) (term_of target.now) depth answer) }
{
    for entry in entries {
        if entry.is_of(kind, target, depth) {
            return Some(entry.answer);
        }
    }
    None
}

impl Kept {
    /// No answers.
    pub fn new(alloc: Global) -> Kept
        ensures { result.entries.items ≡ [] }
    {
        Kept {
            entries: Vec::new(alloc),
        }
    }

    /// The answer that was kept.
    pub fn find(&self, kind: Kind, target: &Term, depth: u32) -> Option<Answer>
        ensures { IfSome result (λ answer. FoundIs self.now.entries.items (kind_of kind) (term_of target.now) depth answer) }
    {
        find_in(&self.entries, kind, target, depth)
    }

    /// Keeps an answer.
    pub fn keep(
        &mut self,
        kind: Kind,
        target: Term,
        depth: u32,
        answer: Answer,
    ) -> Result<(), AllocError>
        ensures ok { OnOk result (self.new.entries.items ≡ self.old.entries.items ++ (record { kind = kind; target = target; depth = depth; answer = answer }) ∷ []) }
        ensures err { OnErr result (self.new.entries.items ≡ self.old.entries.items) }
    {
        self.entries.push(Entry {
            kind,
            target,
            depth,
            answer,
        })?;
        Ok(())
    }
}
