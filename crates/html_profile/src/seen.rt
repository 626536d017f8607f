// Names that were seen.
ghost use Rattle.std.specs.Prelude.{◌≡◌, ◌∷◌, [], List, ℕ, false, not, IfOk, OnOk};
ghost use Rattle.std.specs.List.{list_any};
ghost use Rattle.std.specs.Str.{bytes_eq};
ghost use Rattle.html_profile.specs.Seen.{HasNames};

use std::alloc::{AllocError, Global};
use std::collections::BTreeSet;

/// A set of names, so that none is looked for among all that stood before.
#[derive(Drop)]
pub(crate) struct Seen {
    alloc: Global,
    names: BTreeSet<Vec<u8>>,
}

impl Seen {
    pub(crate) fn new(alloc: Global) -> Seen
        ensures { HasNames result [] }
    {
        Seen {
            alloc,
            names: BTreeSet::new(alloc),
        }
    }

    pub(crate) fn has(&self, name: &[u8]) -> bool
        ensures { (names : List (List ℕ)) → HasNames self.now names
            → result ≡ list_any (bytes_eq name.now) names }
    {
        self.names.contains(name)
    }

    /// Adds a name, and says whether it is a new one.
    pub(crate) fn add(&mut self, name: &[u8]) -> Result<bool, AllocError>
        ensures new { (names : List (List ℕ)) → HasNames self.old names
            → IfOk result (λ is_new. is_new ≡ not (list_any (bytes_eq name.now) names)) }
        ensures added { (names : List (List ℕ)) → HasNames self.old names
            → OnOk result (HasNames self.new (name.now ∷ names)) }
    {
        let is_new = self.names.insert(name.to_vec(self.alloc)?)?;
        Ok(is_new)
    }
    /// Takes away a name that stands among them once.
    pub(crate) fn remove(&mut self, name: &[u8])
        ensures { (names : List (List ℕ)) → HasNames self.old (name.now ∷ names)
            → list_any (bytes_eq name.now) names ≡ false → HasNames self.new names }
    {
        self.names.remove(name);
    }
}
