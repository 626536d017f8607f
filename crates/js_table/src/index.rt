// The places of names in a table.
ghost use Rattle.std.specs.Prelude.{nat_eq};
ghost use Rattle.std.specs.Cmp.Lexicographic.{pointwise, bytes_decides, nat_list_eq_equiv};
ghost use Rattle.std.specs.Cmp.Rules.{hashing};
ghost use Rattle.std.specs.Hash as fed;
ghost use Rattle.std.proofs.Common.{ap, rules};

use indexmap::{Equivalent, IndexMap};
use mug_text::JText;
use std::hash::{Hash, Hasher};

// The places of a table's names, and how many of its slots are gaps.
#[derive(Drop)]
pub(crate) struct Index {
    pub(crate) places: IndexMap<JText, usize>,
    pub(crate) gaps: usize,
}

// A name by its units, which is looked up as the text is.
#[derive(Clone, Copy, PartialEq, Eq)]
pub(crate) struct Units<'a>(pub(crate) &'a [u16]);

impl Hash for Units<'_> {
    ghost hash_input = { λ units. fed.slice fed.u16 units.0.now };

    ghost respects_eq = { Prim.search (hashing, rules) };

    fn hash<H: Hasher>(&self, state: &mut H) {
        self.0.hash(state);
    }
}

impl Equivalent<JText> for Units<'_> {
    ghost equivalent = { λ units text. pointwise nat_eq units.0.now text };

    ghost respects_hash = { λ units text h.
        ap (fed.slice fed.u16) ((bytes_decides units.0.now text).0 h) };

    ghost respects_eq = { λ units x y. nat_list_eq_equiv.congr units.0.now x y };

    fn equivalent(&self, text: &JText) -> bool {
        self.0 == text.as_slice()
    }
}
