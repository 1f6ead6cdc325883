//! Each label stands at one loop or block.
ghost use Rattle.std.specs.Prelude.{◌≡◌, ◌↔◌, IsTrue, IfOk, length};
ghost use Rattle.hir_laws.specs.Words.{AllHold, StandOnce};
ghost use Rattle.hir_laws.specs.Own.{ArePlaces, Agree, FollowsAt, place_of, PlacesOnce};

use hir_ids::said_of_body;
use hir_raw::{LabelRole, Mention, RawBody, Said};
use std::alloc::{AllocError, Global};

/// A label at a node.
#[derive(Clone, Copy, Debug)]
pub struct Place {
    label: usize,
    node: usize,
}

fn place_of(said: Said) -> Option<Place>
    ensures { result ≡ place_of said }
{
    match said.mention {
        Mention::Label(LabelRole::Here, label) => Some(Place {
            label: label.0 as usize,
            node: said.node,
        }),
        _ => None,
    }
}

/// The labels that stand at nodes.
fn places_of(alloc: Global, said: &[Said]) -> Result<Vec<Place>, AllocError>
    ensures { IfOk result (λ v. ArePlaces said.now (length said.now) v.items) }
{
    let mut places = Vec::new(alloc);
    for said in said {
        if let Some(place) = place_of(*said) {
            places.push(place)?;
        }
    }
    Ok(places)
}

/// Whether the place before, if it has the same label, is at the same node.
fn follows(places: &[Place], at: usize, place: Place) -> bool
    ensures { IsTrue result ↔ FollowsAt places.now at place }
{
    if at == 0 || at > places.len() {
        return true;
    }
    let before = places[at - 1];
    before.label != place.label || before.node == place.node
}

fn all_follow(places: &[Place]) -> bool
    ensures { IsTrue result ↔ AllHold (FollowsAt places.now) places.now }
{
    for (at, place) in places.iter().enumerate() {
        if !follows(places, at, *place) {
            return false;
        }
    }
    true
}

fn agree(mut places: Vec<Place>) -> Result<bool, AllocError>
    ensures { IfOk result (λ told. IsTrue told ↔ Agree places.items) }
{
    places.sort_by_key(|place| place.label)?;
    Ok(all_follow(&places))
}

/// Whether each label stands once in what is said of a body.
fn have_one_place(alloc: Global, said: &[Said]) -> Result<bool, AllocError>
    ensures { IfOk result (λ told. IsTrue told ↔ PlacesOnce said.now) }
{
    let places = places_of(alloc, said)?;
    agree(places)
}

/// Whether each label stands at one loop or block.
pub fn stand_once(alloc: Global, body: &RawBody) -> Result<bool, AllocError>
    ensures { IfOk result (λ told. IsTrue told ↔ StandOnce body.now) }
{
    let said = said_of_body(alloc, body)?;
    have_one_place(alloc, &said)
}
