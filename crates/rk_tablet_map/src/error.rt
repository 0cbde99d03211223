ghost use Rattle.std.specs.Prelude.{◌≡◌};
ghost use Rattle.rk_tablet_map.specs.declared.error.MapError.TheVariants.{NoMemory as no_memory};

use rk_types::NoMemory;
use thiserror::Error;

/// Why a tablet map refuses.
#[derive(Clone, Copy, Debug, PartialEq, Eq, Error)]
pub enum MapError {
    /// Memory ran out.
    #[error("out of memory")]
    NoMemory,
    /// No tablet has the hash, or none has the number.
    #[error("no such tablet")]
    NoTablet,
    /// At this hash the range cannot be split: it is not above the first hash, or it is above the last.
    #[error("the range cannot be split at {0}")]
    BadSplit(u64),
    /// A tablet with this number is there already.
    #[error("tablet {0} is there already")]
    Taken(u32),
    /// The range meets that of another tablet.
    #[error("the range meets that of another tablet")]
    Overlap,
}

impl From<NoMemory> for MapError {
    ghost from_gives = { λ _ e. e ≡ no_memory };

    fn from(_error: NoMemory) -> MapError {
        MapError::NoMemory
    }
}
