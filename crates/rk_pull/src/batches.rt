ghost use Rattle.std.specs.Prelude.{◌≡◌, ◌^◌, ◌<◌, length, IfOk};
ghost use Rattle.rk_table.specs.Items.{live_in};
ghost use Rattle.rk_table.specs.Scans.{batch_at, next_token};

use rk_table::RecordTable;
use rk_types::{Held, NoMemory, Range, Token};
use std::alloc::Global;

/// A batch ends with the first item at which the log entries of its items have this many bytes together.
pub const BATCH_BYTES: u32 = 20_480;

/// Duplicates of the live items of the range from the token on, in scan order, up to and with the first one at which
/// their entries have [`BATCH_BYTES`], and the token behind them: `{1024, 0}` exactly when none is left. `NoMemory` may
/// come in place of the answer. One scan of the table, which has fewer than 2^32 items.
pub fn batch<T: RecordTable>(
    alloc: Global,
    table: &T,
    range: &Range,
    from: &Token,
) -> Result<(Vec<Held>, Token), NoMemory>
    requires { length (T.items table.now) < 2 ^ 32 }
    ensures items { IfOk result (λ answer.
        answer.0.items ≡ batch_at from.now BATCH_BYTES (live_in range.now (T.items table.now))) }
    ensures next { IfOk result (λ answer.
        answer.1 ≡ next_token from.now BATCH_BYTES (live_in range.now (T.items table.now))) }
{
    let mut items = Vec::new(alloc);
    let next = table.scan(range, from, BATCH_BYTES, &mut items)?;
    Ok((items, next))
}
