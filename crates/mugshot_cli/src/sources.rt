// What a capture reads: a page and an arrival file.
ghost use Rattle.std.specs.Prelude.{◌≡◌, ◌≤◌, length, Ok, IfErr, IfOk};
ghost use Rattle.mug_text.specs.declared.limits.TheConstants.{PAGE_LIMIT};
ghost use Rattle.arrival_file.specs.Ranges.{InRanges};
ghost use Rattle.mugshot_cli.specs.Capturing.{FileRefused, IsBytes, IsThinPage, PageRefused, ReadsAs};
ghost use Rattle.mugshot_cli.specs.Outside.{Supply, supply};
ghost use Rattle.mugshot_cli.specs.inner.Refusals.{file_of_fault, file_of_read};
ghost use Rattle.mugshot_cli.specs.inner.Refusals.{page_of_read, page_of_text};
ghost use Rattle.mugshot_cli.specs.declared.sources.PageRefusal.TheVariants as page_refusal;

use crate::thin_page::reading::{Statement, read_thin};
use arrival_file::{ArrivalFault, ArrivalKind, Arrivals, FILE_LIMIT, read_arrivals};
use mug_outside::{ReadAll, Source, read_all};
use mug_text::{Bytes, JText, Listed, NoMemory, PAGE_LIMIT, TextFault};
use std::alloc::Global;

/// Why a page is not captured.
#[derive(Clone, Copy, Debug, PartialEq, Eq)]
pub enum PageRefusal {
    ReadFault,
    TooLarge,
    /// With the place of the first bad byte.
    NotUtf8 { at: u64 },
    /// It isn't thin.
    NotBuilt,
    NoMemory,
}

impl From<ReadAll> for PageRefusal {
    ghost from_gives = { λ fault why. why ≡ page_of_read fault };

    fn from(fault: ReadAll) -> PageRefusal {
        match fault {
            ReadAll::TooLarge => PageRefusal::TooLarge,
            ReadAll::ReadFault => PageRefusal::ReadFault,
            ReadAll::NoMemory => PageRefusal::NoMemory,
        }
    }
}

impl From<TextFault> for PageRefusal {
    ghost from_gives = { λ fault why. why ≡ page_of_text fault };

    fn from(fault: TextFault) -> PageRefusal {
        match fault {
            TextFault::NotUtf8 { at } => PageRefusal::NotUtf8 { at: at as u64 },
            TextFault::NoMemory => PageRefusal::NoMemory,
        }
    }
}

impl From<NoMemory> for PageRefusal {
    ghost from_gives = { λ _ why. why ≡ page_refusal.NoMemory };

    fn from(_fault: NoMemory) -> PageRefusal {
        PageRefusal::NoMemory
    }
}

/// Why an arrival file is not read.
#[derive(Clone, Copy, Debug, PartialEq, Eq)]
pub enum ArrivalsRefusal {
    ReadFault,
    Line { line: u64, kind: ArrivalKind },
    /// A line is of a kind that isn't built yet.
    NotBuilt,
    NoMemory,
}

impl From<ReadAll> for ArrivalsRefusal {
    ghost from_gives = { λ fault why. why ≡ file_of_read fault };

    fn from(fault: ReadAll) -> ArrivalsRefusal {
        match fault {
            ReadAll::TooLarge => ArrivalsRefusal::Line {
                line: 0,
                kind: ArrivalKind::Size,
            },
            ReadAll::ReadFault => ArrivalsRefusal::ReadFault,
            ReadAll::NoMemory => ArrivalsRefusal::NoMemory,
        }
    }
}

impl From<ArrivalFault> for ArrivalsRefusal {
    ghost from_gives = { λ fault why. why ≡ file_of_fault fault };

    fn from(fault: ArrivalFault) -> ArrivalsRefusal {
        match fault {
            ArrivalFault::Line { line, kind } => ArrivalsRefusal::Line { line, kind },
            ArrivalFault::NotBuilt { line: _ } => ArrivalsRefusal::NotBuilt,
            ArrivalFault::NoMemory => ArrivalsRefusal::NoMemory,
        }
    }
}

/// A thin page.
#[derive(Debug, Drop)]
pub struct Page {
    pub bytes: Bytes,
    pub statements: Listed<Statement>,
}

// The bytes of a page.
fn read_page<P: Source>(alloc: Global, page: &mut P) -> Result<Bytes, PageRefusal>
    ensures short { IfOk result (λ bytes. length bytes ≤ PAGE_LIMIT) }
    ensures whole { IfOk result (λ bytes. IsBytes (supply P.Source page.old) bytes) }
    ensures refused { IfErr result
        (λ why. PageRefused why (supply P.Source page.old) (supply P.Source page.new)) }
{
    let bytes = read_all(alloc, page, PAGE_LIMIT)?;
    Ok(bytes)
}

// The statements of a page.
fn statements_of(alloc: Global, page: &[u8]) -> Result<Listed<Statement>, PageRefusal>
    requires { length page.now ≤ PAGE_LIMIT }
    ensures thin { IfOk result (λ statements. IsThinPage page.now statements) }
    ensures refused { IfErr result
        (λ why. (before after : Supply) → IsBytes before page.now → PageRefused why before after) }
{
    let _text = JText::from_utf8(alloc, page)?;
    match read_thin(alloc, page)? {
        Some(statements) => Ok(statements),
        None => Err(PageRefusal::NotBuilt),
    }
}

/// Reads a thin page.
pub fn read_thin_page<P: Source>(alloc: Global, page: &mut P) -> Result<Page, PageRefusal>
    ensures thin { IfOk result (λ read. IsThinPage read.bytes read.statements) }
    ensures whole { IfOk result (λ read. IsBytes (supply P.Source page.old) read.bytes) }
    ensures refused { IfErr result
        (λ why. PageRefused why (supply P.Source page.old) (supply P.Source page.new)) }
{
    let bytes = read_page(alloc, page)?;
    let statements = statements_of(alloc, bytes.as_slice())?;
    Ok(Page { bytes, statements })
}

/// Reads an arrival file.
pub fn read_file<A: Source>(alloc: Global, arrivals: &mut A) -> Result<Arrivals, ArrivalsRefusal>
    ensures read { IfOk result (λ given. ReadsAs (supply A.Source arrivals.old) (Ok given)) }
    ensures ranges { IfOk result InRanges }
    ensures refused { IfErr result
        (λ why. FileRefused why (supply A.Source arrivals.old) (supply A.Source arrivals.new)) }
{
    let bytes = read_all(alloc, arrivals, FILE_LIMIT)?;
    let given = read_arrivals(alloc, bytes.as_slice())?;
    Ok(given)
}
