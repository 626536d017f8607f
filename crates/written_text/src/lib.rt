//! Texts and bytes as lines of cases write them: with escapes for what a line can't show.
#![tactic(auto)]

mod byte_reading;
mod digits;
mod text_reading;

pub use byte_reading::bytes;
pub use text_reading::written_text;
