ghost use Rattle.std.specs.Prelude.{◌≡◌, ◌+◌, ◌<◌, ◌≤◌, ◌^◌, length, drop, slice_index};
ghost use Rattle.std.specs.List.{prefix_len};
ghost use Rattle.rk_log.specs.Parts.{AreKnown, bytes_in, lengths_in, is_whole_at, lacking_at, piece_at};

use crate::copied::{Copied, MOST_BACKUPS, lacking_from};
use std::marker::Model;

/// Bytes of a segment that are to be sent to a backup: those from the byte `at` on, counted from 0; lent.
#[derive(Drop)]
pub struct Piece<'a> {
    pub segment: u32,
    pub at: u32,
    pub bytes: &'a [u8],
}

impl<'a> Model for Piece<'a> {
    ghost use Rattle.rk_log.specs.Piece.{PlacedBytes};

    ghost Value = { PlacedBytes };

    ghost view = { λ piece. record { segment = piece.segment; at = piece.at; bytes = piece.bytes.now } };
}

// What a backup is not known to hold of the segment of this number.
fn missing<'a>(number: u32, copied: &'a Copied, backup: usize) -> Piece<'a>
    requires backup { backup < MOST_BACKUPS }
    requires within { slice_index copied.now.known backup ≤ length copied.now.segment.bytes }
    ensures { result ≡ piece_at backup number copied.now }
{
    let at = copied.known[backup];
    let (_, bytes) = copied.segment.bytes().split_at(at as usize);
    Piece {
        segment: number,
        at,
        bytes,
    }
}

/// What a backup is not known to hold of the first segment that it does not hold whole, among segments that are numbered
/// from `first` on, past the first `from` of them. None if it holds all of those.
pub(crate) fn pending_in<'a>(
    segments: &'a [Copied],
    first: u32,
    backup: usize,
    from: usize,
) -> Option<Piece<'a>>
    requires backup { backup < MOST_BACKUPS }
    requires from { from ≤ length segments.now }
    requires numbers { first + length segments.now ≤ 2 ^ 32 }
    requires within { AreKnown (bytes_in segments.now) (lengths_in segments.now) }
    ensures { result ≡ lacking_at backup first segments.now
        (from + prefix_len (is_whole_at backup) (drop from segments.now)) }
{
    let at = lacking_from(segments, backup, from);
    match segments.get(at) {
        Some(copied) => Some(missing(first + at as u32, copied, backup)),
        None => None,
    }
}
