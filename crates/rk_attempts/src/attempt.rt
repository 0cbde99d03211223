ghost use Rattle.std.specs.Prelude.{◌≡◌};
ghost use Rattle.rk_attempts.specs.declared.attempt.Short.TheVariants.{NoMemory as no_memory};

use rk_types::{Key, NoMemory};
use std::alloc::AllocFailed;
use thiserror::Error;

/// What became of a call by one attempt.
#[derive(Drop)]
pub enum Attempt {
    /// It is answered.
    Answered,
    /// The tablet of this number has moved: ask again.
    Moved(u32),
    /// The record of this key has not arrived yet: ask again.
    NotYet(Key),
    /// No answer is there yet.
    Waiting,
}

/// Why work in a lane stops before its end. What came before has happened.
#[derive(Clone, Copy, Debug, PartialEq, Eq, Error)]
pub enum Short {
    /// Memory ran out.
    #[error("out of memory")]
    NoMemory,
    /// This number of the lane, or of the session, has grown too great.
    #[error("the lane is worn, at {0}")]
    Worn(u64),
}

impl From<NoMemory> for Short {
    ghost from_gives = { λ _ e. e ≡ no_memory };

    fn from(_error: NoMemory) -> Short {
        Short::NoMemory
    }
}

impl<T: Drop> From<AllocFailed<T>> for Short {
    ghost from_gives = { λ _ e. e ≡ no_memory };

    fn from(_error: AllocFailed<T>) -> Short {
        Short::NoMemory
    }
}
