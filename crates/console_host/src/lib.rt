//! A small host: `console.log`, and the prototypes as empty objects.
#![tactic(auto)]

mod host;
mod laws;
mod line;

pub use host::ConsoleHost;
pub use laws::console_log_is_in_the_table;
pub use line::{CONSOLE_LOG, Line};
