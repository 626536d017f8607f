//! The items of a session file.
#![tactic(auto)]

mod inputs;
mod item;
mod promises;
mod reading;
mod writing;

pub use inputs::inputs_of;
pub use item::{HEAD_PAGE_LIMIT, LogItem, SCRIPT_SIZE, STEPS_LIMIT, Word};
pub use promises::{
    logged_inputs_come_back, no_item_begins_another, what_decodes_encodes_back,
    what_is_encoded_decodes,
};
pub use reading::decode;
pub use writing::{encode, encoded_len};
