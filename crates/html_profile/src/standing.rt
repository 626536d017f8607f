// The names of the open elements.
ghost use Rattle.std.specs.Prelude.{◌≡◌, ◌≤◌, ◌∷◌, [], List, ℕ, length, reverse, take, OnOk};
ghost use Rattle.std.specs.List.{list_any};
ghost use Rattle.std.specs.Str.{bytes_eq};
ghost use Rattle.html_profile.specs.Standing.{HasStanding};

use crate::seen::Seen;
use std::alloc::{AllocError, Global};

/// The names of the open elements, so that a name that none of them has isn't looked for among all
/// of them.
#[derive(Drop)]
pub(crate) struct Standing {
    seen: Seen,
    // Of each open element, the innermost last, whether no element around it has its name.
    alone: Vec<bool>,
}

impl Standing {
    pub(crate) fn new(alloc: Global) -> Standing
        ensures { HasStanding result [] }
    {
        Standing {
            seen: Seen::new(alloc),
            alone: Vec::new(alloc),
        }
    }

    /// Whether an open element has this name.
    pub(crate) fn has(&self, name: &[u8]) -> bool
        ensures { (names : List (List ℕ)) → HasStanding self.now names
            → result ≡ list_any (bytes_eq name.now) names }
    {
        self.seen.has(name)
    }

    /// Adds the name of an element that is opened.
    pub(crate) fn push(&mut self, name: &[u8]) -> Result<(), AllocError>
        ensures { (names : List (List ℕ)) → HasStanding self.old names
            → OnOk result (HasStanding self.new (name.now ∷ names)) }
    {
        let is_new = self.seen.add(name)?;
        self.alone.push(is_new)?;
        Ok(())
    }

    /// Takes away the name of the innermost element, which is closed.
    pub(crate) fn pop(&mut self, name: &[u8])
        ensures { (names : List (List ℕ)) → HasStanding self.old (name.now ∷ names)
            → HasStanding self.new names }
    {
        let Some(is_alone) = self.alone.pop() else {
            return;
        };
        if is_alone {
            self.seen.remove(name);
        }
    }
}
