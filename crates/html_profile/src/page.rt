// Reading a page.
ghost use Rattle.std.specs.Prelude.{◌≡◌, ℕ, ◌+◌, ◌<◌, ◌≤◌, ◌^◌, List, length, vec_len, drop, IfOk, IfErr, OnOk, IfSome, MatchOption, IsTrue, slice_get, Some};
ghost use Rattle.std.specs.Str.{IsUtf8};
ghost use Rattle.mug_text.specs.Text.{IsText};
ghost use Rattle.html_profile.specs.FirstPlace.{mark_len};
ghost use Rattle.html_profile.specs.Building.{state_of};
ghost use Rattle.html_profile.specs.Page.{Page, IsPage, IsWholePage, IsTree, opens_prelude, without_prelude, page_of};
ghost use Rattle.html_profile.specs.Numbering.{IsNumbered};
ghost use Rattle.html_profile.specs.Coherence.{NameElements, HandleElements, BelongToElements};
ghost use Rattle.html_profile.specs.ScriptPlaces.{unit_place};
ghost use Rattle.html_profile.specs.PageFault.{longest_page, Refuses};

use crate::document::{DocNode, HandlerAt, NameAt, ScriptAt};
use crate::front::{first_place, mark_len};
use crate::piece::piece_at;
use crate::prelude::PRELUDE;
use crate::tree::Builder;
use crate::unit_places::unit_place;
use mug_text::{JText, PAGE_LIMIT, TextFault};
use std::alloc::{AllocError, Global};
use std::marker::Model;
use thiserror::Error;

/// The longest page: 4 MiB, and the inserted script.
const LIMIT: usize = PAGE_LIMIT + PRELUDE_LEN;

// The length of the inserted script.
const PRELUDE_LEN: usize = 450;

/// Why bytes are no page.
#[derive(Clone, Copy, Debug, PartialEq, Eq, Error)]
pub enum HtmlFault {
    /// Above 4 MiB and the length of the inserted script.
    #[error("too large")]
    TooLarge,
    /// At the first byte where no valid sequence begins.
    #[error("not utf-8 at {at}")]
    NotUtf8 { at: usize },
    #[error("out of memory")]
    NoMemory,
}

impl From<AllocError> for HtmlFault {
    ghost use Rattle.html_profile.specs.declared.page.HtmlFault.TheVariants.{NoMemory as no_memory};

    ghost from_gives = { λ _ fault. fault ≡ no_memory };

    fn from(_error: AllocError) -> HtmlFault {
        HtmlFault::NoMemory
    }
}

/// A page as a tree.
#[derive(Debug, Drop)]
pub struct Document {
    nodes: Vec<DocNode>,
    scripts: Vec<ScriptAt>,
    handlers: Vec<HandlerAt>,
    names: Vec<NameAt>,
}

impl Model for Document {
    ghost use Rattle.html_profile.specs.Page.{Page};

    ghost Value = { Page };

    ghost use Rattle.std.specs.Prelude.{◌<◌, ◌^◌, length};
    ghost use Rattle.html_profile.specs.Coherence.{IsCoherent};
    ghost use Rattle.html_profile.specs.PageFault.{longest_page};

    ghost view = { λ d. record {
      nodes = d.nodes.items;
      scripts = d.scripts.items;
      handlers = d.handlers.items;
      names = d.names.items;
    } };

    ghost invariant = { λ d. (length d.nodes.items < 2 ^ 32)
        × IsCoherent longest_page (record {
          nodes = d.nodes.items;
          scripts = d.scripts.items;
          handlers = d.handlers.items;
          names = d.names.items;
        }) };
}

impl Document {
    /// The node of this number.
    pub fn node(&self, id: u32) -> &DocNode
        requires { id < length self.now.nodes }
        ensures { slice_get self.now.nodes id ≡ Some result.now }
    {
        &self.nodes[id as usize]
    }

    /// How many nodes there are.
    pub fn count(&self) -> u32
        ensures is { result ≡ length self.now.nodes }
        ensures numbered { IsNumbered self.now.nodes }
    {
        self.nodes.len() as u32
    }

    /// The scripts that are run, in the order of their elements.
    pub fn scripts(&self) -> &[ScriptAt]
        ensures is { result.now ≡ self.now.scripts }
        ensures elements { NameElements self.now.nodes result.now }
    {
        &self.scripts
    }

    /// The handler attributes, in the order of the page.
    pub fn handlers(&self) -> &[HandlerAt]
        ensures is { result.now ≡ self.now.handlers }
        ensures elements { HandleElements self.now.nodes result.now }
    {
        &self.handlers
    }

    /// Where the attributes stand that the tree has, in the order of the page.
    pub fn names(&self) -> &[NameAt]
        ensures is { result.now ≡ self.now.names }
        ensures elements { BelongToElements self.now.nodes result.now }
    {
        &self.names
    }

    /// The offset of the byte at which a unit of a script's text begins, counted as the script's
    /// place is.
    pub fn script_byte(&self, script: usize, unit: usize) -> usize
        requires { script < length self.now.scripts }
        ensures is { IfSome (slice_get self.now.scripts script)
            (λ s. result ≡ s.at + unit_place unit s.source) }
        ensures within { IfSome (slice_get self.now.scripts script)
            (λ s. result ≤ s.at + length s.source) }
    {
        let found = &self.scripts[script];
        found.at + unit_place(found.source.as_slice(), unit)
    }
}

// Whether the inserted script stands at the front.
fn opens_prelude(text: &[u8]) -> bool
    ensures is { result ≡ opens_prelude text.now }
    ensures bound { IsTrue result → PRELUDE_LEN ≤ length text.now }
{
    text.starts_with(PRELUDE.as_bytes())
}

// Builds what the pieces of the text make, in a page of this length.
fn build(alloc: Global, total: usize, text: &[u8]) -> Result<Builder, AllocError>
    requires short { length text.now ≤ LIMIT }
    requires decodes { IsUtf8 text.now }
    ensures tree { IfOk result (λ builder. IsTree total text.now (state_of builder)) }
    ensures room { IfOk result (λ builder. vec_len builder.nodes < 2 ^ 32) }
{
    let mut builder = Builder::new(alloc, total)?;
    let mut rest = text;
    while !rest.is_empty() {
        let (piece, behind) = piece_at(alloc, rest)?;
        builder.take(piece)?;
        rest = behind;
    }
    builder.settle()?;
    Ok(builder)
}

// The page without the inserted script, if that stands at the first place.
fn without_prelude(alloc: Global, bytes: &[u8]) -> Result<Option<Vec<u8>>, AllocError>
    ensures is { IfOk result (λ found. MatchOption found (without_prelude bytes.now ≡ bytes.now)
        (λ page. page.items ≡ without_prelude bytes.now)) }
    ensures behind_mark { IfOk result
        (λ found. IfSome found (λ page. mark_len bytes.now ≤ vec_len page)) }
    ensures shorter { IfOk result
        (λ found. IfSome found (λ page. vec_len page ≤ length bytes.now)) }
{
    let (before, rest) = bytes.split_at(first_place(bytes));
    if !opens_prelude(rest) {
        return Ok(None);
    }
    let (_, behind) = rest.split_at(PRELUDE_LEN);
    let mut page = before.to_vec(alloc)?;
    page.extend_from_slice(behind)?;
    Ok(Some(page))
}

// Refuses what is too long, and bytes that are no UTF-8. The whole page is read as one text, so
// that the first fault counts.
fn check_page(alloc: Global, bytes: &[u8]) -> Result<(), HtmlFault>
    ensures size { OnOk result (length bytes.now ≤ longest_page) }
    ensures text { OnOk result ((text : List ℕ) × IsText bytes.now text) }
    ensures err { IfErr result (λ fault. Refuses fault bytes.now) }
{
    if bytes.len() > LIMIT {
        return Err(HtmlFault::TooLarge);
    }
    match JText::from_utf8(alloc, bytes) {
        Ok(_) => Ok(()),
        Err(TextFault::NotUtf8 { at }) => Err(HtmlFault::NotUtf8 { at }),
        Err(TextFault::NoMemory) => Err(HtmlFault::NoMemory),
    }
}

// What has been built of a page.
fn built(alloc: Global, bytes: &[u8]) -> Result<Builder, AllocError>
    requires short { length bytes.now ≤ LIMIT }
    requires decodes { IsUtf8 bytes.now }
    ensures tree { IfOk result (λ builder. IsTree (length (without_prelude bytes.now))
        (drop (mark_len bytes.now) (without_prelude bytes.now)) (state_of builder)) }
    ensures room { IfOk result (λ builder. vec_len builder.nodes < 2 ^ 32) }
    ensures short { OnOk result (length (without_prelude bytes.now) ≤ LIMIT) }
{
    let mark = mark_len(bytes);
    match without_prelude(alloc, bytes)? {
        Some(page) => build(alloc, page.len(), page.as_slice().split_at(mark).1),
        None => build(alloc, bytes.len(), bytes.split_at(mark).1),
    }
}

// The page that was built.
fn page_of(builder: Builder) -> Document
    requires made { (total : ℕ) × (text : List ℕ) × (total ≤ LIMIT)
        × IsTree total text (state_of builder) }
    requires room { vec_len builder.nodes < 2 ^ 32 }
    ensures { result ≡ page_of (state_of builder) }
{
    let Builder {
        nodes,
        scripts,
        handlers,
        names,
        ..
    } = builder;
    Document {
        nodes,
        scripts,
        handlers,
        names,
    }
}

/// The page that these bytes are; the inserted script at the first place is passed over.
pub fn read_html(alloc: Global, bytes: &[u8]) -> Result<Document, HtmlFault>
    ensures page { IfOk result (λ page. IsPage bytes.now page) }
    ensures only { IfOk result (λ page. (other : Page) → IsPage bytes.now other → other ≡ page) }
    ensures size { OnOk result (length bytes.now ≤ longest_page) }
    ensures text { OnOk result ((text : List ℕ) × IsText bytes.now text) }
    ensures refused { IfErr result (λ fault. Refuses fault bytes.now) }
{
    check_page(alloc, bytes)?;
    Ok(page_of(built(alloc, bytes)?))
}

/// The page that these bytes are with nothing taken out: the inserted script is a script like
/// others, and places count every byte.
pub fn read_whole(alloc: Global, bytes: &[u8]) -> Result<Document, HtmlFault>
    ensures page { IfOk result (λ page. IsWholePage bytes.now page) }
    ensures only { IfOk result
        (λ page. (other : Page) → IsWholePage bytes.now other → other ≡ page) }
    ensures size { OnOk result (length bytes.now ≤ longest_page) }
    ensures text { OnOk result ((text : List ℕ) × IsText bytes.now text) }
    ensures refused { IfErr result (λ fault. Refuses fault bytes.now) }
{
    check_page(alloc, bytes)?;
    let (_, text) = bytes.split_at(mark_len(bytes));
    Ok(page_of(build(alloc, bytes.len(), text)?))
}
