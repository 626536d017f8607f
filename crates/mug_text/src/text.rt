// Texts of 16-bit units.
ghost use Rattle.std.specs.Prelude.{◌≡◌, ◌≢◌, ℕ, ◌<◌, ◌≤◌, ◌++◌, List, length, slice_index, slice_range, All, OnOk, OnErr, IfOk, IfErr};
ghost use Rattle.mug_text.specs.Characters.{trimmed};
ghost use Rattle.mug_text.specs.Text.{shown_text, utf8_of, IsText, IsWellFormed};
ghost use Rattle.mug_text.specs.TextFault.{Refuses};

use crate::NoMemory;
use crate::characters::trimmed_place;
use crate::shown::push_text;
use crate::utf8::{count_utf8, push_utf8};
use std::alloc::{AllocError, Global};
use std::marker::Model;
use std::rc::Rc;
use std::str;
use thiserror::Error;

// A buffer of so many units is kept whole by each of its parts; of a longer one, by a part of a quarter of it or more.
const SHORT: usize = 64;

/// An immutable list of 16-bit units (ECMA-262 edition 5.1, 8.4). Copies share the units, and so do slices that are no small part of them.
#[derive(Drop)]
pub struct JText {
    // The text is the part of the buffer from `from` up to `to`.
    buffer: Rc<Vec<u16>>,
    from: usize,
    to: usize,
}

impl Model for JText {
    ghost use Rattle.std.specs.Prelude.{ℕ, ◌≤◌, List, length, slice_range};

    ghost Value = { List ℕ };

    ghost view = { λ t. slice_range t.buffer.value.items t.from t.to };

    ghost invariant = { λ t. (t.from ≤ t.to) × (t.to ≤ length t.buffer.value.items) };
}

/// Why bytes are no text.
#[derive(Clone, Copy, Debug, PartialEq, Eq, Error)]
pub enum TextFault {
    /// At the first byte where no valid sequence begins.
    #[error("not utf-8 at {at}")]
    NotUtf8 { at: usize },
    #[error("out of memory")]
    NoMemory,
}

impl From<AllocError> for TextFault {
    ghost use Rattle.mug_text.specs.declared.text.TextFault.TheVariants.{NoMemory as no_memory};

    ghost from_gives = { λ _ fault. fault ≡ no_memory };

    fn from(_error: AllocError) -> TextFault {
        TextFault::NoMemory
    }
}

impl JText {
    /// The text of just these units.
    pub fn from_units(alloc: Global, units: &[u16]) -> Result<JText, NoMemory>
        ensures { IfOk result (λ text. text ≡ units.now) }
    {
        Ok(JText::whole(units.to_vec(alloc)?)?)
    }

    /// The text that these bytes are in UTF-8.
    pub fn from_utf8(alloc: Global, bytes: &[u8]) -> Result<JText, TextFault>
        ensures ok { IfOk result (λ text. IsText bytes.now text) }
        ensures well_formed { IfOk result (λ text. IsWellFormed text) }
        ensures units { IfOk result (λ text. All (λ unit. unit < 0x1_0000) text) }
        ensures whole { IfOk result (λ text. utf8_of text ≡ bytes.now) }
        ensures unique { IfOk result (λ text. (t : List ℕ) → All (λ unit. unit < 0x1_0000) t → IsWellFormed t → utf8_of t ≡ bytes.now → t ≡ text) }

        ensures refused { IfErr result (λ fault. Refuses fault bytes.now) }
        ensures no_text { (at : ℕ) → result ≡ Err (TextFault.NotUtf8 at) → (t : List ℕ) → IsWellFormed t → utf8_of t ≢ bytes.now }
    {
        match str::from_utf8(bytes) {
            Ok(text) => Ok(JText::of_str(alloc, text)?),
            Err(fault) => Err(TextFault::NotUtf8 {
                at: fault.valid_up_to(),
            }),
        }
    }

    /// Another owner of the same units.
    pub fn copy(&self) -> Result<JText, NoMemory>
        ensures { IfOk result (λ copy. copy ≡ self.now) }
    {
        self.share(0, self.len())
    }

    /// The text without the blanks at both ends (15.5.4.20).
    pub fn trim(&self) -> Result<JText, NoMemory>
        ensures { IfOk result (λ text. text ≡ trimmed self.now) }
    {
        let (from, to) = trimmed_place(self.as_slice());
        self.slice(from, to)
    }

    /// The units of this text, and then those of the other.
    pub fn concat(&self, other: &JText) -> Result<JText, NoMemory>
        ensures { IfOk result (λ both. both ≡ self.now ++ other.now) }
    {
        let front = self.as_slice();
        let back = other.as_slice();
        let alloc = *self.buffer.as_ref().allocator();
        let mut units = Vec::with_capacity(alloc, front.len() + back.len())?;
        units.extend_from_slice(front)?;
        units.extend_from_slice(back)?;
        Ok(JText::whole(units)?)
    }

    /// The units from one index up to another. A short part of long units is copied, so that it doesn't keep them.
    pub fn slice(&self, from: usize, to: usize) -> Result<JText, NoMemory>
        requires ordered { from ≤ to }
        requires within { to ≤ length self.now }
        ensures { IfOk result (λ part. part ≡ slice_range self.now from to) }
    {
        let kept = self.buffer.as_ref().len();
        if kept <= SHORT || (to - from) >= kept / 4 {
            return self.share(from, to);
        }
        let alloc = *self.buffer.as_ref().allocator();
        JText::from_units(alloc, &self.as_slice()[from..to])
    }

    /// Another owner of the units from one index up to another, which keeps them all.
    pub fn share(&self, from: usize, to: usize) -> Result<JText, NoMemory>
        requires ordered { from ≤ to }
        requires within { to ≤ length self.now }
        ensures { IfOk result (λ part. part ≡ slice_range self.now from to) }
    {
        Ok(JText {
            buffer: self.buffer.clone()?,
            from: self.from + from,
            to: self.from + to,
        })
    }

    /// The units.
    pub fn as_slice(&self) -> &[u16]
        ensures { result.now ≡ self.now }
    {
        &self.buffer.as_ref()[self.from..self.to]
    }

    /// The number of units.
    pub fn len(&self) -> usize
        ensures { result ≡ length self.now }
    {
        self.to - self.from
    }

    /// The unit at an index.
    pub fn unit(&self, index: usize) -> u16
        requires { index < length self.now }
        ensures { result ≡ slice_index self.now index }
    {
        self.as_slice()[index]
    }

    /// Appends the text in UTF-8, with U+FFFD for each surrogate without a partner.
    pub fn to_utf8(&self, out: &mut Vec<u8>) -> Result<(), NoMemory>
        ensures ok { OnOk result (out.new.items ≡ out.old.items ++ utf8_of self.now) }
        ensures err { OnErr result (out.new.items ≡ out.old.items) }
    {
        let before = out.len();
        let pushed = push_utf8(self.as_slice(), out);
        if pushed.is_err() {
            out.truncate(before);
        }
        pushed
    }

    /// The number of bytes that `to_utf8` appends.
    pub fn utf8_len(&self) -> usize
        ensures { result ≡ length (utf8_of self.now) }
    {
        count_utf8(self.as_slice())
    }

    /// Appends the text in UTF-8, with escapes for what does not print.
    pub fn shown(&self, out: &mut Vec<u8>) -> Result<(), NoMemory>
        ensures ok { OnOk result (out.new.items ≡ out.old.items ++ shown_text self.now) }
        ensures err { OnErr result (out.new.items ≡ out.old.items) }
    {
        let before = out.len();
        let pushed = push_text(self.as_slice(), out);
        if pushed.is_err() {
            out.truncate(before);
        }
        pushed
    }

    // The text of just these bytes.
    pub(crate) fn of_ascii(alloc: Global, bytes: &[u8]) -> Result<JText, NoMemory>
        ensures { IfOk result (λ text. text ≡ bytes.now) }
    {
        let mut units = Vec::with_capacity(alloc, bytes.len())?;
        for byte in bytes {
            units.push(u16::from(*byte))?;
        }
        Ok(JText::whole(units)?)
    }

    // The text that this is in UTF-16.
    pub(crate) fn of_str(alloc: Global, text: &str) -> Result<JText, AllocError>
        ensures { IfOk result (λ made. IsText text.now made) }
    {
        JText::whole(text.encode_utf16().collect(alloc)?)
    }

    // These units, taken over.
    fn whole(units: Vec<u16>) -> Result<JText, AllocError>
        ensures { IfOk result (λ text. text ≡ units.items) }
    {
        let to = units.len();
        Ok(JText {
            buffer: Rc::new(*units.allocator(), units)?,
            from: 0,
            to,
        })
    }
}
