//! Which entries of a list name a place.
ghost use Rattle.std.specs.Prelude.{◌≡◌, ◌↔◌, IsTrue, IfOk, slice_set, length, slice_index_or};
ghost use Rattle.hir_ids.specs.Own.{and_one, AreNamers, IsOne, IsNobody};
ghost use Rattle.hir_ids.specs.declared.namers.Namers.TheVariants.{Nobody};

use std::alloc::{AllocError, Global};

/// Which entries of a list name a place: none, one, which is here by its index, or several.
#[derive(Clone, Copy, Debug)]
pub enum Namers {
    Nobody,
    One(usize),
    Several,
}

/// Whether one entry names the place.
pub fn is_one(namers: Namers) -> bool
    ensures { IsTrue result ↔ IsOne namers }
{
    match namers {
        Namers::One(_) => true,
        Namers::Nobody | Namers::Several => false,
    }
}

/// Whether no entry names the place.
pub fn is_nobody(namers: Namers) -> bool
    ensures { IsTrue result ↔ IsNobody namers }
{
    match namers {
        Namers::Nobody => true,
        Namers::One(_) | Namers::Several => false,
    }
}

fn with_one(namers: Namers, k: usize) -> Namers
    ensures { result ≡ and_one namers k }
{
    match namers {
        Namers::Nobody => Namers::One(k),
        Namers::One(_) | Namers::Several => Namers::Several,
    }
}

fn note(namers: &mut Vec<Namers>, k: usize, place: usize)
    ensures { namers.new.items ≡ slice_set namers.old.items place (and_one (slice_index_or namers.old.items place Nobody) k) }
{
    if place < namers.len() {
        let before = namers[place];
        namers[place] = with_one(before, k);
    }
}

/// Which entries name each of the places below `count`; other places are passed over.
pub fn namers_of(
    alloc: Global,
    targets: &[Option<usize>],
    count: usize,
) -> Result<Vec<Namers>, AllocError>
    ensures { IfOk result (λ v. AreNamers targets.now (length targets.now) count v.items) }
{
    let mut namers = vec![in alloc; Namers::Nobody; count]?;
    for (k, target) in targets.iter().enumerate() {
        if let Some(place) = target {
            note(&mut namers, k, *place);
        }
    }
    Ok(namers)
}
