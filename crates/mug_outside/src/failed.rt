// A call of the outside that failed.
use thiserror::Error;

/// The outside refused; the object's count of faults rose.
#[derive(Clone, Copy, Debug, PartialEq, Eq, Error)]
#[error("failed")]
pub struct Failed;
