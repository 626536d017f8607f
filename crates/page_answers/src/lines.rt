// What is printed for a line.
use crate::{changes, pages};
use html_profile::{HtmlFault, PRELUDE};
use mug_text::NoMemory;
use std::alloc::Global;
use written_text::bytes;

/// How the page of a line is read, or what is left of its document behind the changes that follow
/// `;`.
pub fn answer_of(alloc: Global, line: &str) -> Result<String, NoMemory> {
    if let Some(written) = line.strip_prefix("page ") {
        return pages::read(alloc, &page_of(alloc, written)?);
    }
    if let Some(written) = line.strip_prefix("whole ") {
        return pages::whole(alloc, &page_of(alloc, written)?);
    }
    if let Some(written) = line.strip_prefix("first ") {
        return Ok(format!(in alloc; "{}", html_profile::first_place(&page_of(alloc, written)?))?);
    }
    if let Some(written) = line.strip_prefix("dom ") {
        return match written.split_once(" ; ") {
            Some((page, words)) => changes::left(alloc, &page_of(alloc, page)?, words),
            None => changes::left(alloc, &page_of(alloc, written)?, ""),
        };
    }
    Ok(String::from_str(alloc, "no page, whole, first or dom")?)
}

/// A fault as it is printed.
pub fn fault_line(alloc: Global, fault: HtmlFault) -> Result<String, NoMemory> {
    Ok(format!(in alloc; "{fault}")?)
}

// The page that is written so: bytes, and the inserted script wherever `\p` stands.
fn page_of(alloc: Global, written: &str) -> Result<Vec<u8>, NoMemory> {
    let mut page = Vec::new(alloc);
    for (i, piece) in written.split("\\p").enumerate() {
        if i > 0 {
            page.extend_from_slice(PRELUDE.as_bytes())?;
        }
        page.extend_from_slice(&bytes(alloc, piece)?)?;
    }
    Ok(page)
}
