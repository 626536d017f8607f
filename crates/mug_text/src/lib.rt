//! Texts, and the small types that the layers above share: bytes, lists, and the want of memory.
#![tactic(auto)]

mod bytes;
mod characters;
mod compared;
mod digits;
mod index;
mod limits;
mod listed;
mod memory;
mod number;
mod shown;
mod text;
mod utf8;

pub use bytes::Bytes;
pub use characters::{is_blank, is_digit, is_line_end, is_space, trimmed};
pub use digits::{decimal_below, digit_value, digits_number};
pub use limits::{INDEX_END, PAGE_LIMIT, SAFE_END, TEXT_LIMIT};
pub use listed::Listed;
pub use memory::NoMemory;
pub use number::number_text;
pub use text::{JText, TextFault};
