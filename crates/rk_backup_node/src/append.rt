// What a backup makes of an Append.
ghost use Rattle.std.specs.Prelude.{◌≡◌, ◌+◌, ◌≤◌, true, length, IsErrOf};
ghost use Rattle.rk_outside.specs.Losses.{HasLossCause};
ghost use Rattle.rk_outside.specs.Segments.{WhereTold};
ghost use Rattle.rk_backup.specs.Lane.{number_of, replica_of};
ghost use Rattle.rk_world.specs.Backup.{append_step, append_taken, calls_replica};
ghost use Rattle.rk_backup_node.specs.Called.{IsBacked, append_called};

use rk_backup::BackupLane;
use rk_message::{Append, Body, Message, Stored};
use rk_outside::{Lost, Replica};
use rk_types::{Node, SEGMENT_BYTES};
use std::alloc::Global;

/// A backup takes a master's Append, and reports how many bytes of the segment it stores then. The bytes end within a segment.
/// After `Failed` some first part of what was new may be stored, and the message is lost; it comes only if bytes come that
/// begin within the stored ones or at their end. After `NoMemory` nothing has changed. Stored bytes are read only if some
/// come again.
pub fn take_append<R: Replica>(
    backup: &mut BackupLane<R>,
    alloc: Global,
    master: u8,
    append: &Append,
) -> Result<Message, Lost>
    requires { append.now.at + length append.now.bytes ≤ SEGMENT_BYTES }
    ensures backed { IsBacked (append_step (number_of backup.old) master append.now
        (append_called result (R.lengths (replica_of backup.old) master append.now.segment) (R.lengths (replica_of backup.new) master append.now.segment))) result }
    ensures segments { WhereTold (λ old new. new ≡ append_taken old master append.now
        (append_called result (R.lengths (replica_of backup.old) master append.now.segment) (R.lengths (replica_of backup.new) master append.now.segment)))
        (R.segments (replica_of backup.old)) (R.segments (replica_of backup.new)) }
    ensures number { number_of backup.new ≡ number_of backup.old }
    ensures asked { IsErrOf result Lost.Failed → calls_replica (R.lengths (replica_of backup.old) master append.now.segment) append.now ≡ true }
    ensures cause { HasLossCause (R.faults (replica_of backup.old)) (R.faults (replica_of backup.new)) result }
{
    let bytes = append.bytes.as_slice();
    let length = backup.on_append(alloc, master, append.segment, append.at, bytes)?;
    Ok(Message {
        from: Node::Backup(backup.number()),
        to: Node::Master(master),
        body: Body::Stored(Stored {
            segment: append.segment,
            length,
        }),
    })
}
