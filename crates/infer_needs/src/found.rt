//! What associated types were found to be.
ghost use Rattle.std.specs.Prelude.{◌≡◌, ◌++◌, ◌∷◌, [], None, OnOk, option_map};
ghost use Rattle.infer_needs.specs.Own.{FindsIn, AreDistinct};

use hir_facts::Ty;
use std::alloc::{AllocError, Global};
use std::collections::HashMap;
use std::marker::Model;

/// Associated types, each with what it was found to be, which contracts see as the list of these. Each is
/// found by a hash of it.
#[derive(Debug, Drop)]
pub struct Found {
    pairs: Vec<(Ty, Ty)>,
    /// Where in the list an associated type stands.
    places: HashMap<Ty, usize>,
}

impl Model for Found {
    ghost use Rattle.std.specs.Coded.{codes};
    ghost use Rattle.std.specs.Prelude.{List};
    ghost use Rattle.hir_types.specs.contracts.ty.Ty as ty;
    ghost use Rattle.infer_needs.specs.Words.{Ty};
    ghost use Rattle.infer_needs.specs.Listed.{IsIndexed};

    ghost Value = { List (Ty × Ty) };

    ghost coded = { Prim.hlevel (codes, ty.the_row.coded) };

    ghost view = { λ a. a.pairs.items };

    ghost invariant = { λ a. IsIndexed a.places a.pairs.items };
}

impl Found {
    /// None.
    pub fn new(alloc: Global) -> Found
        ensures { result ≡ [] }
    {
        Found {
            pairs: Vec::new(alloc),
            places: HashMap::new(alloc),
        }
    }

    /// What an associated type was found to be.
    pub fn find(&self, alias: &Ty) -> Option<&Ty>
        ensures { FindsIn self.now alias.now (option_map (λ t. t.now) result) }
    {
        let place = *self.places.get(alias)?;
        let pair = self.pairs.get(place)?;
        if pair.0.is_same(alias) {
            Some(&pair.1)
        } else {
            None
        }
    }

    /// Adds what an associated type was found to be of which none is listed.
    pub fn add(&mut self, alloc: Global, alias: Ty, ty: Ty) -> Result<(), AllocError>
        requires { FindsIn self.old alias None }
        ensures { OnOk result (self.new ≡ self.old ++ (alias, ty) ∷ []) }
    {
        let key = alias.dup(alloc)?;
        let place = self.pairs.len();
        self.places.insert(key, place)?;
        self.pairs.push((alias, ty))?;
        Ok(())
    }

    /// The list, in which no two are of the same associated type.
    pub fn into_pairs(self) -> Vec<(Ty, Ty)>
        ensures list { result.items ≡ self }
        ensures once { AreDistinct result.items }
    {
        let Found { pairs, places: _ } = self;
        pairs
    }
}
