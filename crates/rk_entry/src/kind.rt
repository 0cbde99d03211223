ghost use Rattle.std.specs.Prelude.{◌≡◌, ◌<◌, if◌then◌else◌};
ghost use Rattle.std.specs.Int.{is_in_range};
ghost use Rattle.rk_entry.specs.Kinds.{kind_number, kind_numbered, is_body_length, is_list_length, is_marked};

use rk_types::{LONGEST_KEY, LONGEST_SHORT_VALUE, LONGEST_VALUE};

/// Bytes of an entry before its body: the kind, and the length of the body.
pub const HEAD_BYTES: u32 = 1 + 4;

/// The most bytes of a body, so that four bytes hold the length of an entry.
pub const LONGEST_BODY: u32 = u32::MAX - HEAD_BYTES;

/// Bytes of the body of a tombstone but for its key: the table, the version, the client, the seq and the length of the
/// key.
pub const TOMBSTONE_BYTES: u32 = 8 + 8 + 4 + 8 + 1;

/// Bytes of the body of an object but for its key, its value and its mark: those of a tombstone, and the length of the
/// value.
pub const OBJECT_BYTES: u32 = TOMBSTONE_BYTES + 4;

/// Bytes of the mark at the end of a long object.
pub const MARK_BYTES: u32 = 1;

/// Bytes of the body of a refusal but for its key: those of a tombstone, with the version that was found in place of
/// its own, and the reason.
pub const REFUSED_BYTES: u32 = TOMBSTONE_BYTES + 1;

/// Bytes of the body of a Carried but for its ends: the range, the term, the floor and the count of ends.
pub const CARRIED_BYTES: u32 = 3 * 8 + 8 + 8 + 2;

/// Bytes of the end of a call: the client, the seq, the tag and the version.
pub const END_BYTES: u32 = 4 + 8 + 1 + 8;

/// The most ends of a Carried, as many as its count can state.
pub const MOST_ENDS: u32 = u16::MAX as u32;

/// Bytes of the body of a Joined but for its segments: the range, the term and the count of segments.
pub const JOINED_BYTES: u32 = 3 * 8 + 8 + 4;

/// Bytes of the number of a segment.
pub const SEGMENT_NUMBER_BYTES: u32 = 4;

/// How an entry is spelled: which fields follow the number of the kind, its first byte.
#[derive(Clone, Copy, PartialEq, Eq)]
pub enum Kind {
    /// An item with a value of at most 8,192 bytes.
    Object = 1,
    /// An item without a value.
    Tombstone = 2,
    /// A refusal.
    Refused = 3,
    /// The ends that came with a tablet.
    Carried = 4,
    /// The side segments that became part of the log.
    Joined = 5,
    /// An item with a longer value, which ends with a mark.
    LongObject = 17,
}

impl Kind {
    /// The first byte of the entries of this kind.
    pub fn number(self) -> u8
        ensures { result ≡ kind_number self }
    {
        self as u8
    }

    /// The kind with this number, if there is one.
    pub fn numbered(number: u8) -> Option<Kind>
        ensures { result ≡ kind_numbered number }
    {
        match number {
            1 => Some(Kind::Object),
            2 => Some(Kind::Tombstone),
            3 => Some(Kind::Refused),
            4 => Some(Kind::Carried),
            5 => Some(Kind::Joined),
            17 => Some(Kind::LongObject),
            _ => None,
        }
    }

    /// Whether the entries of this kind end with a mark.
    pub fn is_marked(self) -> bool
        ensures { result ≡ is_marked self }
    {
        matches!(self, Kind::LongObject)
    }

    /// Whether some lawful entry of this kind has a body of this many bytes.
    pub fn is_body_length(self, length: u32) -> bool
        ensures { result ≡ is_body_length self length }
    {
        let key = LONGEST_KEY as u32;
        let short = LONGEST_SHORT_VALUE as u32;
        let long = LONGEST_VALUE as u32;
        match self {
            Kind::Object => is_within(OBJECT_BYTES + 1, OBJECT_BYTES + key + short, length),
            Kind::Tombstone => is_within(TOMBSTONE_BYTES + 1, TOMBSTONE_BYTES + key, length),
            Kind::Refused => is_within(REFUSED_BYTES + 1, REFUSED_BYTES + key, length),
            Kind::Carried => is_list(
                CARRIED_BYTES,
                END_BYTES,
                CARRIED_BYTES + END_BYTES * MOST_ENDS,
                length,
            ),
            Kind::Joined => is_list(JOINED_BYTES, SEGMENT_NUMBER_BYTES, LONGEST_BODY, length),
            Kind::LongObject => is_within(
                OBJECT_BYTES + 1 + (short + 1) + MARK_BYTES,
                OBJECT_BYTES + key + long + MARK_BYTES,
                length,
            ),
        }
    }
}

/// Whether the number is at least `least` and at most `most`.
pub fn is_within(least: u32, most: u32, number: u32) -> bool
    ensures { result ≡ is_in_range least most number }
{
    least <= number && number <= most
}

/// Whether so many bytes, at most `most`, are `first` bytes and some members of `each` bytes.
pub fn is_list(first: u32, each: u32, most: u32, number: u32) -> bool
    requires { 0 < each }
    ensures { result ≡ is_list_length first each most number }
{
    first <= number && number <= most && (number - first) % each == 0
}

/// How many bytes the mark of an entry takes, which has one or has none.
pub fn mark_count(marked: bool) -> u32
    ensures { result ≡ (if marked then MARK_BYTES else 0) }
{
    if marked { MARK_BYTES } else { 0 }
}
