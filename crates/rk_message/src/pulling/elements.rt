use crate::fields::Element;
use crate::pulling::entries::read_entry_within;
use rk_entry::fields::{put_u64, read_u64};
use rk_entry::{DecodeError, Entry, put_entry};
use std::alloc::Global;

// A hash.
impl Element for u64 {
    ghost use Rattle.std.specs.Int.{w64};
    ghost use Rattle.rk_entry.specs.Numbers.{number_bytes, read_number, IsNumber};
    ghost use Rattle.rk_message.specs.declared.pulling.TheConstants.{HASH_BYTES};

    ghost spelled = { number_bytes w64 };

    ghost count = { λ hash. HASH_BYTES };

    ghost IsLawful = { IsNumber w64 0 };

    ghost read_as = { read_number w64 };

    fn read(_alloc: Global, bytes: &[u8]) -> Result<(u64, &[u8]), DecodeError> {
        read_u64(bytes)
    }

    fn put(&self, into: &mut Vec<u8>) {
        put_u64(into, *self);
    }
}

impl Element for Entry {
    ghost use Rattle.rk_entry.specs.Spelling.{spelled};
    ghost use Rattle.rk_entry.specs.Lawful.{IsLawfulEntry};
    ghost use Rattle.rk_message.specs.Pulling.{entry_count, read_entry_within};

    ghost spelled = { spelled };

    ghost count = { entry_count };

    ghost IsLawful = { IsLawfulEntry };

    ghost read_as = { read_entry_within };

    fn read(alloc: Global, bytes: &[u8]) -> Result<(Entry, &[u8]), DecodeError> {
        read_entry_within(alloc, bytes)
    }

    fn put(&self, into: &mut Vec<u8>) {
        put_entry(into, self);
    }
}
