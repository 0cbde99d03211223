// A copy of a whole journal.
ghost use Rattle.std.specs.Prelude.{◌≡◌, IfOk};

use rk_types::{NoMemory, Placed};
use std::alloc::Global;

/// A list of its own with copies of these records.
pub(crate) fn copy_records(alloc: Global, records: &[Placed]) -> Result<Vec<Placed>, NoMemory>
    ensures { IfOk result (λ copied. copied.items ≡ records.now) }
{
    let mut copied = Vec::with_capacity(alloc, records.len())?;
    for record in records {
        copied.push(record.duplicate()?)?;
    }
    Ok(copied)
}
