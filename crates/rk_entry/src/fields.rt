//! The fields that entries are made of, one reader and one writer each.
//!
//! A reader takes a field from the front of some bytes and lends the bytes after it. It answers `Cut` if the bytes end
//! before the field is whole, and `Bad` if the field is whole and unlawful. A writer puts a field at the end of bytes
//! that have room for it, which takes no memory.

pub use ends::{put_end, put_outcome, put_range, read_end, read_outcome, read_range};
pub use numbers::{
    put_u8, put_u16, put_u32, put_u64, read_u8, read_u16, read_u32, read_u32_from, read_u64,
    read_u64_from,
};
pub use texts::{put_key, put_value, read_key, read_key_length, read_value, read_value_length};

mod ends;
mod numbers;
mod texts;
