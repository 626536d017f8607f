//! The outside: bytes that come in, bytes that go out, and counts of what failed.
#![tactic(auto)]

mod count;
mod failed;
mod failing;
mod mem_sink;
mod mem_source;
mod sink;
mod source;
mod std_sink;
mod std_source;

pub use count::COUNT_END;
pub use failed::Failed;
pub use failing::Failing;
pub use mem_sink::MemSink;
pub use mem_source::MemSource;
pub use sink::{Sink, WriteFault, write_whole};
pub use source::{ReadAll, Source, read_all};
pub use std_sink::StdSink;
pub use std_source::StdSource;
