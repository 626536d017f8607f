//! The commands: they record what a page takes in from outside, and replay it.
#![tactic(auto)]

mod capturing;
mod command;
mod counts;
mod damage;
mod lines;
mod listing;
mod outcome;
mod printing;
mod refusal;
mod replaying;
mod session;
mod sources;
mod thin_page;
mod top;

pub use command::{Command, UsageFault, read_words};
pub use outcome::{Outcome, Status};
pub use refusal::say;
pub use thin_page::end::Want;
pub use thin_page::laws::{a_capture_is_replayed, replay_is_the_plain_run};
pub use top::mugshot;
