ghost use Rattle.std.specs.Prelude.{◌≡◌};
ghost use Rattle.rk_play.specs.Stops.{error_by_cluster, error_by_settling};
ghost use Rattle.rk_play.specs.declared.error.PlayError.TheVariants.{NoMemory as no_memory};

use rk_cluster::{ClusterError, Code};
use rk_settle::SettleError;
use rk_types::NoMemory;
use std::alloc::{AllocError, AllocFailed};
use thiserror::Error;

/// Why a run stops at a command.
#[derive(Clone, Copy, Debug, PartialEq, Eq, Error)]
pub enum PlayError {
    /// Memory ran out, or a settling command made more moves than are counted.
    #[error("out of memory")]
    NoMemory,
    /// The command is refused with this code, and has changed nothing.
    #[error("refused with code {0:?}")]
    Refused(Code),
    /// This number of a lane, or of a session, has grown too great.
    #[error("a lane is worn, at {0}")]
    Worn(u64),
    /// In so many rounds of one command a replica failed.
    #[error("replicas failed in {0} rounds")]
    Replica(u64),
}

impl From<NoMemory> for PlayError {
    ghost from_gives = { λ _ e. e ≡ no_memory };

    fn from(_error: NoMemory) -> PlayError {
        PlayError::NoMemory
    }
}

impl From<AllocError> for PlayError {
    ghost from_gives = { λ _ e. e ≡ no_memory };

    fn from(_error: AllocError) -> PlayError {
        PlayError::NoMemory
    }
}

impl<T: Drop> From<AllocFailed<T>> for PlayError {
    ghost from_gives = { λ _ e. e ≡ no_memory };

    fn from(_error: AllocFailed<T>) -> PlayError {
        PlayError::NoMemory
    }
}

impl From<ClusterError> for PlayError {
    ghost from_gives = { λ error e. e ≡ error_by_cluster error };

    fn from(error: ClusterError) -> PlayError {
        match error {
            ClusterError::NoMemory => PlayError::NoMemory,
            ClusterError::Code(code) => PlayError::Refused(code),
            ClusterError::Worn(number) => PlayError::Worn(number),
        }
    }
}

impl From<SettleError> for PlayError {
    ghost from_gives = { λ error e. e ≡ error_by_settling error };

    fn from(error: SettleError) -> PlayError {
        match error {
            SettleError::NoMemory | SettleError::TooLong => PlayError::NoMemory,
            SettleError::Worn(number) => PlayError::Worn(number),
            SettleError::Replica(rounds) => PlayError::Replica(rounds),
        }
    }
}
