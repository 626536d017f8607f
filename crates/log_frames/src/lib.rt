//! The frames of a session file, read one by one from any disk.
#![tactic(auto)]

mod reader;

pub use reader::{FrameFault, FrameReader, Next};
