// Where a script that is to run first stands in a page.
ghost use Rattle.std.specs.Prelude.{◌≡◌, ◌≤◌, length};
ghost use Rattle.html_profile.specs.FirstPlace.{mark_len, opens_doctype, first_place};

use crate::mark::{Mark, opens_lowered};

// The length of the byte order mark.
pub(crate) fn mark_len(bytes: &[u8]) -> usize
    ensures is { result ≡ mark_len bytes.now }
    ensures within { result ≤ length bytes.now }
{
    if bytes.starts_with(b"\xEF\xBB\xBF") {
        3
    } else {
        0
    }
}

/// The offset after the byte order mark, or after the doctype that stands first there.
pub fn first_place(bytes: &[u8]) -> usize
    ensures is { result ≡ first_place bytes.now }
    ensures behind_mark { mark_len bytes.now ≤ result }
    ensures within { result ≤ length bytes.now }
{
    let start = mark_len(bytes);
    let text = &bytes[start..];
    let spaces = Mark::Ink.place(text);
    let doctype = &text[spaces..];
    let end = Mark::TagEnd.place(doctype);
    if opens_lowered(doctype, b"<!doctype") && end < doctype.len() {
        start + spaces + end + 1
    } else {
        start
    }
}
