// Where the listeners of an object stand.
ghost use Rattle.std.specs.Prelude.{◌≡◌, ◌++◌, ◌∷◌, [], OnOk, OnErr};
ghost use Rattle.event_dispatch.specs.inner.Places.{HasSamePlaces, IsForgotten, IsNoted, places_at, without_place};

use std::alloc::{AllocError, Global};
use std::collections::BTreeMap;
use std::marker::Model;

/// The places of an object's listeners, in their order.
#[derive(Debug, Drop)]
pub(crate) struct Places {
    items: Vec<usize>,
}

impl Model for Places {
    ghost use Rattle.std.specs.Prelude.{ℕ, List};

    ghost Value = { List ℕ };

    ghost view = { λ p. p.items.items };
}

/// The places of each object's listeners, by its number.
pub(crate) type Index = BTreeMap<u32, Places, Global>;

impl Places {
    // One place.
    fn one(alloc: Global, place: usize) -> Result<Places, AllocError>
        ensures { OnOk result (result ≡ Ok (place ∷ [])) }
    {
        let mut items = Vec::new(alloc);
        items.push(place)?;
        Ok(Places { items })
    }

    pub(crate) fn as_slice(&self) -> &[usize]
        ensures { result.now ≡ self.now }
    {
        &self.items
    }

    fn push(&mut self, place: usize) -> Result<(), AllocError>
        ensures ok { OnOk result (self.new ≡ self.old ++ place ∷ []) }
        ensures err { OnErr result (self.new ≡ self.old) }
    {
        self.items.push(place)?;
        Ok(())
    }

    fn take_out(&mut self, place: usize)
        ensures { self.new ≡ without_place place self.old }
    {
        self.items.retain(|p| *p != place);
    }
}

/// The places of the object's listeners.
pub(crate) fn places_at(index: &Index, owner: u32) -> &[usize]
    ensures { result.now ≡ places_at index.now owner }
{
    match index.get(&owner) {
        Some(places) => places.as_slice(),
        None => &[],
    }
}

/// Notes that another listener of the object stands at this place, behind the others.
pub(crate) fn note(
    alloc: Global,
    index: &mut Index,
    owner: u32,
    place: usize,
) -> Result<(), AllocError>
    ensures ok { OnOk result (IsNoted owner place index.old index.new) }
    ensures err { OnErr result (HasSamePlaces index.old index.new) }
{
    if let Some(places) = index.get_mut(&owner) {
        return places.push(place);
    }
    let places = Places::one(alloc, place)?;
    index.insert(owner, places)?;
    Ok(())
}

/// Forgets that a listener of the object stands at this place.
pub(crate) fn forget(index: &mut Index, owner: u32, place: usize)
    ensures { IsForgotten owner place index.old index.new }
{
    if let Some(places) = index.get_mut(&owner) {
        places.take_out(place);
    }
}
