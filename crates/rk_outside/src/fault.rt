// The one answer of a source or a sink that could not do what it was asked.
use thiserror::Error;

/// A source or a sink failed. Its count of faults rose in the call that answers this.
#[derive(Clone, Copy, Debug, PartialEq, Eq, Error)]
#[error("the device failed")]
pub struct Failed;
