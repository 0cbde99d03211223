ghost use Rattle.std.specs.Prelude.{◌≡◌};
ghost use Rattle.rk_session.specs.declared.error.AskError.TheVariants.{NoMemory as no_memory};

use rk_types::NoMemory;
use std::alloc::AllocError;
use thiserror::Error;

/// Why a client does not ask a call.
#[derive(Clone, Copy, Debug, PartialEq, Eq, Error)]
pub enum AskError {
    /// Memory ran out, or the client has asked as many calls as there are numbers.
    #[error("out of memory")]
    NoMemory,
    /// The call with this seq is outstanding.
    #[error("call {0} is outstanding")]
    Busy(u64),
}

impl From<NoMemory> for AskError {
    ghost from_gives = { λ _ e. e ≡ no_memory };

    fn from(_error: NoMemory) -> AskError {
        AskError::NoMemory
    }
}

impl From<AllocError> for AskError {
    ghost from_gives = { λ _ e. e ≡ no_memory };

    fn from(_error: AllocError) -> AskError {
        AskError::NoMemory
    }
}
