ghost use Rattle.std.specs.Prelude.{◌≡◌};
ghost use Rattle.rk_settle.specs.Failures.{failure_by};
ghost use Rattle.rk_settle.specs.declared.error.SettleError.TheVariants.{NoMemory as no_memory};

use rk_cluster::ClusterError;
use rk_types::NoMemory;
use std::alloc::AllocFailed;
use thiserror::Error;

/// Why a settling command stops before its end. What came before has happened.
#[derive(Clone, Copy, Debug, PartialEq, Eq, Error)]
pub enum SettleError {
    /// Memory ran out.
    #[error("out of memory")]
    NoMemory,
    /// This number of a lane, or of a session, has grown too great.
    #[error("a lane is worn, at {0}")]
    Worn(u64),
    /// In so many rounds a replica failed.
    #[error("replicas failed in {0} rounds")]
    Replica(u64),
    /// The command has not ended in 2^64 - 1 moves.
    #[error("the command does not end")]
    TooLong,
}

impl From<NoMemory> for SettleError {
    ghost from_gives = { λ _ e. e ≡ no_memory };

    fn from(_error: NoMemory) -> SettleError {
        SettleError::NoMemory
    }
}

impl<T: Drop> From<AllocFailed<T>> for SettleError {
    ghost from_gives = { λ _ e. e ≡ no_memory };

    fn from(_error: AllocFailed<T>) -> SettleError {
        SettleError::NoMemory
    }
}

impl From<ClusterError> for SettleError {
    ghost from_gives = { λ error e. e ≡ failure_by error };

    fn from(error: ClusterError) -> SettleError {
        match error {
            ClusterError::NoMemory => SettleError::NoMemory,
            ClusterError::Worn(number) => SettleError::Worn(number),
            // No call of a command is refused by a code.
            ClusterError::Code(_) => SettleError::NoMemory,
        }
    }
}
