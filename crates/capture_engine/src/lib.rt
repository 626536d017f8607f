//! The pushing side of a recording: items go into frames, frames to the disk, and a line is written
//! for each.
#![tactic(auto)]

mod laws;
mod line;
mod recorder;

pub use laws::frames_are_one;
pub use line::{LINE_LIMIT, Line};
pub use recorder::{CaptureFault, EARLY_MOMENT, PAYLOAD_LIMIT, Recorder};
