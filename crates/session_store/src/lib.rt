//! Session files: written frame by frame, and what a stop left of one, recovered.
#![tactic(auto)]

mod keeper;
mod laws;
mod recovery;

pub use keeper::{Ack, MOMENT_END, SESSION_LIMIT, Store, StoreFault};
pub use laws::{logs_are_recovered, recovery_is_one};
pub use recovery::{RecoverFault, Session, recover};
