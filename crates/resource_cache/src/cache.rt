// Bodies, found by their digests and compared byte by byte.
ghost use Rattle.std.specs.Prelude.{◌≡◌, ◌≢◌, ◌<◌, ◌^◌, ℕ, [], ◌∷◌, ◌++◌, Some, ◌↔◌};
ghost use Rattle.std.specs.Prelude.{All, IfOk, IsTrue, MatchOption, OnErr, OnOk};
ghost use Rattle.std.specs.Prelude.{length, slice_get};
ghost use Rattle.std.specs.Option.{option_copied};
ghost use Rattle.sha2.specs.Sha256.{sha256};
ghost use Rattle.resource_cache.specs.Bodies.{AreDistinct, IsMissing};
ghost use Rattle.resource_cache.specs.inner.Places.{place_by};

use crate::places::{Index, note, place_by};
use mug_text::{Bytes, NoMemory};
use sha2::{Digest, Sha256};
use std::alloc::Global;
use std::collections::BTreeMap;
use std::marker::Model;

/// Bodies, each of which has its place, from 0, in the order in which they were added.
#[derive(Drop)]
pub struct Cache {
    alloc: Global,
    bodies: Vec<Bytes>,
    index: Index,
    // The places of bodies whose digest an earlier one has.
    others: Vec<u32>,
}

impl Model for Cache {
    ghost use Rattle.std.specs.Prelude.{ℕ, List};
    ghost use Rattle.resource_cache.specs.inner.Places.{Holds};

    ghost Value = { List (List ℕ) };

    ghost view = { λ c. c.bodies.items };

    ghost invariant = { λ c. Holds c.bodies.items c.index c.others.items };
}

// Whether this body stands at the place.
fn is_at(bodies: &[Bytes], place: u32, bytes: &[u8]) -> bool
    ensures { IsTrue result ↔ (slice_get bodies.now place ≡ Some bytes.now) }
{
    match bodies.get(place as usize) {
        Some(body) => body.as_slice() == bytes,
        None => false,
    }
}

// The place of this body where it is the first with its digest.
fn first_place(bodies: &[Bytes], index: &Index, bytes: &[u8]) -> Option<u32>
    ensures { MatchOption result
        ((k : ℕ) → place_by index.now (sha256 bytes.now) ≡ Some k
        → slice_get bodies.now k ≢ Some bytes.now)
        (λ k. slice_get bodies.now k ≡ Some bytes.now) }
{
    let place = place_by(index, &Sha256::digest(bytes))?;
    if is_at(bodies, place, bytes) {
        Some(place)
    } else {
        None
    }
}

// Its place among these.
fn other_place(bodies: &[Bytes], others: &[u32], bytes: &[u8]) -> Option<u32>
    ensures { MatchOption result (All (λ k. slice_get bodies.now k ≢ Some bytes.now) others.now)
        (λ k. slice_get bodies.now k ≡ Some bytes.now) }
{
    for place in others {
        if is_at(bodies, *place, bytes) {
            return Some(*place);
        }
    }
    None
}

impl Cache {
    /// No bodies, which takes no memory.
    pub fn new(alloc: Global) -> Cache
        ensures { result ≡ [] }
    {
        Cache {
            alloc,
            bodies: Vec::new(alloc),
            index: BTreeMap::new(alloc),
            others: Vec::new(alloc),
        }
    }

    /// The number of bodies.
    pub fn len(&self) -> usize
        ensures len { result ≡ length self.now }
        ensures distinct { AreDistinct self.now }
    {
        self.bodies.len()
    }

    pub fn is_empty(&self) -> bool
        ensures { IsTrue result ↔ (self.now ≡ []) }
    {
        self.bodies.is_empty()
    }

    /// The place of a body that is there.
    pub fn place_of(&self, bytes: &[u8]) -> Option<u32>
        ensures place { MatchOption result (IsMissing bytes.now self.now)
            (λ place. slice_get self.now place ≡ Some bytes.now) }
    {
        match first_place(&self.bodies, &self.index, bytes) {
            Some(place) => Some(place),
            None => other_place(&self.bodies, &self.others, bytes),
        }
    }

    /// Adds a body that isn't there, and gives its place.
    pub fn add(&mut self, bytes: &[u8]) -> Result<u32, NoMemory>
        requires new { IsMissing bytes.now self.old }
        requires room { length self.old < 2 ^ 32 }
        ensures ok { OnOk result (self.new ≡ self.old ++ bytes.now ∷ []) }
        ensures place { IfOk result (λ place. place ≡ length self.old) }
        ensures err { OnErr result (self.new ≡ self.old) }
    {
        let body = Bytes::of(self.alloc, bytes)?;
        let place = self.bodies.len() as u32;
        self.bodies.reserve(1)?;
        note(
            &mut self.index,
            &mut self.others,
            Sha256::digest(bytes),
            place,
        )?;
        self.bodies.push_reserved(body);
        Ok(place)
    }

    /// The body at a place.
    pub fn get(&self, place: u32) -> Option<&[u8]>
        ensures { option_copied result ≡ slice_get self.now place }
    {
        match self.bodies.get(place as usize) {
            Some(body) => Some(body.as_slice()),
            None => None,
        }
    }
}

#[cfg(test)]
mod tests {
    use super::*;

    // The place of the body, which is added where it isn't there and a few are.
    fn kept(cache: &mut Cache, bytes: &[u8]) -> Result<Option<u32>, NoMemory> {
        if let Some(place) = cache.place_of(bytes) {
            return Ok(Some(place));
        }
        if cache.len() < 9 {
            return Ok(Some(cache.add(bytes)?));
        }
        Ok(None)
    }

    #[test]
    fn equal_bodies_are_kept_once(rt: HostRuntime) -> Result<(), NoMemory> {
        let mut cache = Cache::new(rt.alloc());
        assert!(rt; cache.is_empty());
        for (body, place) in [("a", 0), ("", 1), ("a", 0), ("b", 2), ("", 1), ("b", 2)] {
            let found = kept(&mut cache, body.as_bytes())?;
            assert!(rt; found == Some(place), "{body}");
            assert!(rt; cache.get(place) == Some(body.as_bytes()), "{body}");
        }
        assert!(rt; cache.len() == 3);
        assert!(rt; cache.get(3).is_none());
        Ok(())
    }
}
