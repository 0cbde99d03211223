ghost use Rattle.std.specs.Prelude.{◌≡◌, ◌<◌, ◌^◌, ◌+◌, ◌*◌, length};
ghost use Rattle.std.specs.List.{AllByRecursion};
ghost use Rattle.rk_entry.specs.Numbers.{HasRoom, Gains};
ghost use Rattle.rk_message.specs.Fields.{list_bytes};
ghost use Rattle.rk_message.specs.Rebuilding.{member_bytes, IsLawfulMember, rebuild_bytes, rebuild_count, IsLawfulRebuild, read_segment_bytes, kept, kept_bytes, copy_bytes, copy_count, rebuilt_bytes, rebuilt_count, IsLawfulRebuilt};

use crate::fields::{COUNT_BYTES, put_bytes, put_list, put_tenure};
use crate::handover::put_ends;
use crate::rebuilding::{
    COPY_BYTES, CopySegment, MEMBER_BYTES, MISSING, PRESENT, READ_SEGMENT_BYTES, REBUILD_BYTES,
    REBUILT_BYTES, ReadSegment, Rebuild, Rebuilt,
};
use rk_entry::END_BYTES;
use rk_entry::fields::{put_range, put_u8, put_u32, put_u64};
use rk_types::{Listed, Member};

// Puts the members of a lineage after their count at the end.
fn put_lineage(into: &mut Vec<u8>, lineage: &[Member])
    requires few { length lineage.now < 2 ^ 32 }
    requires lawful { AllByRecursion IsLawfulMember lineage.now }
    requires room { HasRoom into.old (COUNT_BYTES + MEMBER_BYTES * length lineage.now) }
    ensures { Gains into.old into.new (list_bytes member_bytes lineage.now) (COUNT_BYTES + MEMBER_BYTES * length lineage.now) }
{
    put_list(into, lineage);
}

/// Puts a lawful Rebuild at the end.
#[tactic(auto, unfolding(crate::specs::Rebuilding::rebuild_bytes))]
pub fn put_rebuild(into: &mut Vec<u8>, rebuild: &Rebuild)
    requires lawful { IsLawfulRebuild rebuild.now }
    requires few { length rebuild.now.lineage < 2 ^ 32 }
    requires room { HasRoom into.old (rebuild_count rebuild.now) }
    ensures { Gains into.old into.new (rebuild_bytes rebuild.now) (rebuild_count rebuild.now) }
{
    put_tenure(into, &rebuild.tenure);
    put_range(into, &rebuild.range);
    put_lineage(into, rebuild.lineage.as_slice());
}

/// Puts a Read at the end.
#[tactic(auto, unfolding(crate::specs::Rebuilding::read_segment_bytes))]
pub fn put_read_segment(into: &mut Vec<u8>, wanted: &ReadSegment)
    requires { HasRoom into.old READ_SEGMENT_BYTES }
    ensures { Gains into.old into.new (read_segment_bytes wanted.now) READ_SEGMENT_BYTES }
{
    put_tenure(into, &wanted.tenure);
    put_u8(into, wanted.master);
    put_u32(into, wanted.segment);
}

// Puts at the end whether a segment was ever written, and the bytes that are kept of it.
#[tactic(auto, unfolding(crate::specs::Rebuilding::kept_bytes))]
fn put_kept(into: &mut Vec<u8>, segment: &Option<Listed<u8>>)
    requires few { length (kept segment.now) < 2 ^ 32 }
    requires room { HasRoom into.old (1 + COUNT_BYTES + length (kept segment.now)) }
    ensures { Gains into.old into.new (kept_bytes segment.now) (1 + COUNT_BYTES + length (kept segment.now)) }
{
    match segment {
        None => {
            put_u8(into, MISSING);
            put_bytes(into, &[]);
        }
        Some(bytes) => {
            put_u8(into, PRESENT);
            put_bytes(into, bytes.as_slice());
        }
    }
}

/// Puts a Copy at the end.
#[tactic(auto, unfolding(crate::specs::Rebuilding::copy_bytes))]
pub fn put_copy(into: &mut Vec<u8>, copy: &CopySegment)
    requires few { length (kept copy.now.bytes) < 2 ^ 32 }
    requires room { HasRoom into.old (copy_count copy.now) }
    ensures { Gains into.old into.new (copy_bytes copy.now) (copy_count copy.now) }
{
    put_tenure(into, &copy.tenure);
    put_u8(into, copy.master);
    put_u32(into, copy.segment);
    put_kept(into, &copy.bytes);
}

/// Puts a lawful Rebuilt at the end.
#[tactic(auto, unfolding(crate::specs::Rebuilding::rebuilt_bytes))]
pub fn put_rebuilt(into: &mut Vec<u8>, rebuilt: &Rebuilt)
    requires lawful { IsLawfulRebuilt rebuilt.now }
    requires few { length rebuilt.now.ends < 2 ^ 32 }
    requires room { HasRoom into.old (rebuilt_count rebuilt.now) }
    ensures { Gains into.old into.new (rebuilt_bytes rebuilt.now) (rebuilt_count rebuilt.now) }
{
    put_tenure(into, &rebuilt.tenure);
    put_u64(into, rebuilt.place);
    put_ends(into, rebuilt.ends.as_slice());
}

/// How many bytes the fields of a Rebuild take.
pub fn rebuild_len(rebuild: &Rebuild) -> u32
    requires { rebuild_count rebuild.now < 2 ^ 32 }
    ensures { result ≡ rebuild_count rebuild.now }
{
    REBUILD_BYTES + MEMBER_BYTES * rebuild.lineage.as_slice().len() as u32
}

/// How many bytes the fields of a Copy take.
pub fn copy_len(copy: &CopySegment) -> u32
    requires { copy_count copy.now < 2 ^ 32 }
    ensures { result ≡ copy_count copy.now }
{
    match &copy.bytes {
        None => COPY_BYTES,
        Some(bytes) => COPY_BYTES + bytes.as_slice().len() as u32,
    }
}

/// How many bytes the fields of a Rebuilt take.
pub fn rebuilt_len(rebuilt: &Rebuilt) -> u32
    requires { rebuilt_count rebuilt.now < 2 ^ 32 }
    ensures { result ≡ rebuilt_count rebuilt.now }
{
    REBUILT_BYTES + END_BYTES * rebuilt.ends.as_slice().len() as u32
}
