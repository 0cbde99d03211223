// The records of a table, in lines by key.
ghost use Rattle.std.specs.Prelude.{◌≡◌, ◌++◌, OnOk};
ghost use Rattle.std.specs.List.{flat_map};
ghost use Rattle.rk_lines.specs.Records.{by_key, item_line, record_lines};

use crate::words::{push_numbered, push_value, push_words};
use rk_types::{Held, NoMemory};

/// Adds the lines of items that come in any order, by the bytes of their keys; those of one key stay in their order, and
/// tombstones have none. After `NoMemory` a part of the lines may have been written. A sort, and nothing is copied.
pub fn push_records(text: &mut Vec<u8>, mut items: Vec<Held>) -> Result<(), NoMemory>
    ensures { OnOk result (text.new.items ≡ text.old.items ++ record_lines items.items) }
{
    sort_by_key(&mut items)?;
    push_items(text, items.as_slice())
}

// Puts items into the order of their keys; those of one key stay in their order.
fn sort_by_key(items: &mut Vec<Held>) -> Result<(), NoMemory>
    ensures { OnOk result (items.new.items ≡ by_key items.old.items) }
{
    items.sort_by(|a, b| a.key.cmp(&b.key))?;
    Ok(())
}

// Adds the lines of items in the order in which they come.
fn push_items(text: &mut Vec<u8>, items: &[Held]) -> Result<(), NoMemory>
    ensures { OnOk result (text.new.items ≡ text.old.items ++ flat_map item_line items.now) }
{
    for item in items {
        push_record(text, item)?;
    }
    Ok(())
}

/// Adds the line of a record, and nothing for a tombstone. After `NoMemory` a part of the line may have been written.
pub fn push_record(text: &mut Vec<u8>, item: &Held) -> Result<(), NoMemory>
    ensures { OnOk result (text.new.items ≡ text.old.items ++ item_line item.now) }
{
    let Some(value) = &item.value else {
        return Ok(());
    };
    push_words(text, b"record ", item.key.bytes())?;
    push_numbered(text, b" ", item.version)?;
    push_value(text, value)?;
    text.push(b'\n')?;
    Ok(())
}
