ghost use Rattle.std.specs.Prelude.{◌≡◌};
ghost use Rattle.rk_message.specs.Wire.{wire_error_by};
ghost use Rattle.rk_message.specs.declared.missing.WireError.TheVariants.{NoMemory as no_memory};

use rk_types::NoMemory as OutOfMemory;
use thiserror::Error;

/// The wire has no message of this number: it was never sent, or it is forgotten.
#[derive(Clone, Copy, Debug, PartialEq, Eq, Error)]
#[error("no message {0} is on the wire")]
pub struct NoMessage(pub u64);

/// Why a message of a wire is not read.
#[derive(Clone, Copy, Debug, PartialEq, Eq, Error)]
pub enum WireError {
    /// The wire has no message of this number.
    #[error("no message {0} is on the wire")]
    NoMessage(u64),
    /// Memory ran out.
    #[error("out of memory")]
    NoMemory,
}

impl From<NoMessage> for WireError {
    ghost from_gives = { λ error e. e ≡ wire_error_by error };

    fn from(error: NoMessage) -> WireError {
        WireError::NoMessage(error.0)
    }
}

impl From<OutOfMemory> for WireError {
    ghost from_gives = { λ _ e. e ≡ no_memory };

    fn from(_error: OutOfMemory) -> WireError {
        WireError::NoMemory
    }
}
