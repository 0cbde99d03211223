use thiserror::Error;

/// A backup reported that it holds `length` bytes of a segment that has `limit`.
#[derive(Clone, Copy, Debug, PartialEq, Eq, Error)]
#[error("{length} bytes of a segment that has {limit}")]
pub struct Overreach {
    pub length: u32,
    pub limit: u32,
}
