ghost use Rattle.std.specs.Prelude.{◌≡◌};
ghost use Rattle.rk_cluster.specs.declared.error.ClusterError.TheVariants.{NoMemory as no_memory};

use crate::code::Code;
use rk_types::NoMemory;
use std::alloc::{AllocError, AllocFailed};
use thiserror::Error;

/// Why a call of a cluster is not carried out, or not to its end.
#[derive(Clone, Copy, Debug, PartialEq, Eq, Error)]
pub enum ClusterError {
    /// Memory ran out. A first part of the call has happened; since then one lane may be spent, and one client may have taken its turn.
    #[error("out of memory")]
    NoMemory,
    /// It is refused by this code; nothing has changed.
    #[error("refused by code {0:?}")]
    Code(Code),
    /// This number of a lane has grown too great; what came before has happened.
    #[error("a lane is worn, at {0}")]
    Worn(u64),
}

impl From<NoMemory> for ClusterError {
    ghost from_gives = { λ _ e. e ≡ no_memory };

    fn from(_error: NoMemory) -> ClusterError {
        ClusterError::NoMemory
    }
}

impl From<AllocError> for ClusterError {
    ghost from_gives = { λ _ e. e ≡ no_memory };

    fn from(_error: AllocError) -> ClusterError {
        ClusterError::NoMemory
    }
}

impl<T: Drop> From<AllocFailed<T>> for ClusterError {
    ghost from_gives = { λ _ e. e ≡ no_memory };

    fn from(_error: AllocFailed<T>) -> ClusterError {
        ClusterError::NoMemory
    }
}
