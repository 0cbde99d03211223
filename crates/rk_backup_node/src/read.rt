// What a backup makes of a Read.
ghost use Rattle.std.specs.Prelude.{◌≡◌, ◌≤◌, length, take};
ghost use Rattle.std.specs.Option.{option_map};
ghost use Rattle.rk_outside.specs.Losses.{HasLossCause};
ghost use Rattle.rk_outside.specs.Segments.{IsSame, WhereTold};
ghost use Rattle.rk_backup.specs.Lane.{number_of, replica_of};
ghost use Rattle.rk_world.specs.Backup.{common_front as common_front_lem, copied as copied_lem};
ghost use Rattle.rk_backup_node.specs.Called.{IsCopied};

use rk_backup::BackupLane;
use rk_message::{Body, CopySegment, Message, ReadSegment};
use rk_outside::{Lost, Replica};
use rk_types::{Listed, Node};
use std::alloc::Global;

/// A backup takes a master's Read of a segment, and answers with a copy: of what its replica gives, as far as the segment's
/// master has the same bytes in its log, which are `log`; none if either has no such segment. No segment changes. After
/// `Failed` the message is lost. A comparison of the bytes, and nothing is copied but by the replica.
pub fn take_read<R: Replica>(
    backup: &mut BackupLane<R>,
    alloc: Global,
    reader: u8,
    read: ReadSegment,
    log: &[u8],
) -> Result<Message, Lost>
    ensures copied { IsCopied (number_of backup.old) reader read log.now (R.segments (replica_of backup.old)) result }
    ensures segments { WhereTold IsSame (R.segments (replica_of backup.old)) (R.segments (replica_of backup.new)) }
    ensures lengths { IsSame (R.lengths (replica_of backup.old)) (R.lengths (replica_of backup.new)) }
    ensures number { number_of backup.new ≡ number_of backup.old }
    ensures cause { HasLossCause (R.faults (replica_of backup.old)) (R.faults (replica_of backup.new)) result }
{
    let bytes = backup.on_read(alloc, read.master, read.segment)?;
    Ok(Message {
        from: Node::Backup(backup.number()),
        to: Node::Master(reader),
        body: Body::Copy(CopySegment {
            tenure: read.tenure,
            master: read.master,
            segment: read.segment,
            bytes: copied(bytes, log),
        }),
    })
}

// Of what was read the longest first part that a log's segment begins with; none if either is not there.
fn copied(read: Option<Vec<u8>>, log: &[u8]) -> Option<Listed<u8>>
    ensures { result ≡ copied_lem (option_map (λ bytes. bytes.items) read) log.now }
{
    let mut bytes = read?;
    if log.is_empty() {
        return None;
    }
    let count = common_front(bytes.as_slice(), log);
    bytes.truncate(count);
    Some(Listed::from_vec(bytes))
}

// The length of the longest first part that two lists of bytes have in common.
fn common_front(read: &[u8], log: &[u8]) -> usize
    ensures front { take result read.now ≡ common_front_lem read.now log.now }
    ensures within { result ≤ length read.now }
{
    let most = read.len().min(log.len());
    for count in 0..most {
        if read[count] != log[count] {
            return count;
        }
    }
    most
}
