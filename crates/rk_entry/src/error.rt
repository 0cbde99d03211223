ghost use Rattle.std.specs.Prelude.{◌≡◌};
ghost use Rattle.rk_entry.specs.declared.error.DecodeError.TheVariants.{NoMemory as no_memory};

use rk_types::NoMemory;
use std::alloc::{AllocError, AllocFailed};
use thiserror::Error;

/// The kind is none that there is.
pub const BAD_KIND: u8 = 1;

/// No body of this kind has this length, or the last length or count within it makes another.
pub const BAD_BODY_LENGTH: u8 = 2;

/// A number is out of its range.
pub const BAD_NUMBER: u8 = 3;

/// The length of a key is out of its limits, or a byte of the key is no printed character.
pub const BAD_KEY: u8 = 4;

/// The length of a value is out of its limits, or a byte of the value is no printed character.
pub const BAD_VALUE: u8 = 5;

/// A choice is none of those that there are, or members of a list are out of order or repeat.
pub const BAD_CHOICE: u8 = 6;

/// The mark at the end of a long object is not that of the bytes before it.
pub const BAD_MARK: u8 = 7;

/// Why nothing was read: the first fault from the left.
#[derive(Clone, Copy, Debug, PartialEq, Eq, Error)]
pub enum DecodeError {
    /// The bytes end before the field at their end is whole, and every field before it is lawful.
    #[error("the bytes end within a field")]
    Cut,
    /// A field is whole and unlawful with those before it: the number is one of the `BAD_` constants.
    #[error("a field is unlawful, by rule {0}")]
    Bad(u8),
    /// Memory ran out.
    #[error("out of memory")]
    NoMemory,
}

impl From<NoMemory> for DecodeError {
    ghost from_gives = { λ _ e. e ≡ no_memory };

    fn from(_error: NoMemory) -> DecodeError {
        DecodeError::NoMemory
    }
}

impl From<AllocError> for DecodeError {
    ghost from_gives = { λ _ e. e ≡ no_memory };

    fn from(_error: AllocError) -> DecodeError {
        DecodeError::NoMemory
    }
}

impl<T: Drop> From<AllocFailed<T>> for DecodeError {
    ghost from_gives = { λ _ e. e ≡ no_memory };

    fn from(_error: AllocFailed<T>) -> DecodeError {
        DecodeError::NoMemory
    }
}
