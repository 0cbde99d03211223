ghost use Rattle.std.specs.Prelude.{◌≡◌, ◌<◌};
ghost use Rattle.rk_log.specs.Parts.{IsCursor, cursor_at};

use crate::copied::{Copied, MOST_BACKUPS, lacking_from};

/// A backup is known to hold so many segments whole, counted from the first; the last main segment, which may still
/// grow, is never counted.
#[derive(Clone, Copy)]
pub(crate) struct Cursor {
    pub(crate) main: usize,
    pub(crate) sides: usize,
}

/// The furthest cursor of a backup, found from an earlier one. It takes a step for each segment between them.
pub(crate) fn advanced(main: &[Copied], sides: &[Copied], backup: usize, cursor: Cursor) -> Cursor
    requires backup { backup < MOST_BACKUPS }
    requires cursor { IsCursor backup main.now sides.now cursor }
    ensures { result ≡ cursor_at backup main.now sides.now }
{
    Cursor {
        main: lacking_from(main, backup, cursor.main).min(main.len().saturating_sub(1)),
        sides: lacking_from(sides, backup, cursor.sides),
    }
}
