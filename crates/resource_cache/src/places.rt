// The places of bodies by their digests.
ghost use Rattle.std.specs.Prelude.{◌≡◌, OnOk, OnErr};
ghost use Rattle.resource_cache.specs.inner.Places.{HasSamePlaces, IsNoted, place_by};

use std::alloc::{AllocError, Global};
use std::collections::BTreeMap;

/// A SHA-256 digest (FIPS 180-4).
pub(crate) type Digest = [u8; 32];

/// The place of the first body with each digest.
pub(crate) type Index = BTreeMap<Digest, u32, Global>;

/// The place of the first body with this digest.
pub(crate) fn place_by(index: &Index, digest: &Digest) -> Option<u32>
    ensures { result ≡ place_by index.now digest.now }
{
    index.get(digest).copied()
}

/// Notes that a body with this digest stands at this place. Where another one has the digest, it is
/// one of the others, which are looked through one by one.
pub(crate) fn note(
    index: &mut Index,
    others: &mut Vec<u32>,
    digest: Digest,
    place: u32,
) -> Result<(), AllocError>
    ensures ok { OnOk result
        (IsNoted digest place index.old others.old.items index.new others.new.items) }
    ensures err { OnErr result
        (HasSamePlaces index.old others.old.items index.new others.new.items) }
{
    if index.contains_key(&digest) {
        others.push(place)?;
    } else {
        index.insert(digest, place)?;
    }
    Ok(())
}
