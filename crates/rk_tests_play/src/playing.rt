// What a test plays a script with.
ghost use Rattle.std.specs.Prelude.{◌≡◌, IfOk, vec_len};

use rk_outside::MemoryReplica;
use std::alloc::Global;
use std::test::Fail;

/// The lines that scripts begin with.
pub const SETUP: &str = "masters 2\nbackups 2\ntable 1 1\nclient 1\n";

/// A sink has room for so many bytes.
pub const ROOM: usize = 200_000;

// A run has one replica for each of four backups and eight lanes.
const REPLICAS: usize = rk_types::REPLICAS;

/// The replicas of a run, which hold nothing. No call fails but those of these numbers at the replica of this place, which keep
/// so many bytes.
pub fn replicas<'a>(
    alloc: Global,
    place: usize,
    failing: &'a [u64],
    kept: usize,
) -> Result<Vec<MemoryReplica<'a>>, Fail>
    ensures { IfOk result (λ replicas. vec_len replicas ≡ REPLICAS) }
{
    let mut replicas = Vec::with_capacity(alloc, REPLICAS)?;
    'replicas: while replicas.len() < REPLICAS {
        let replica = MemoryReplica::new(alloc);
        if replicas.len() == place {
            replicas.push(replica.failing(failing).keeping(kept))?;
        } else {
            replicas.push(replica)?;
        }
    }
    Ok(replicas)
}

/// These parts, one after the other.
pub fn joined(alloc: Global, parts: &[&str]) -> Result<String, Fail> {
    let mut text = String::new(alloc);
    for part in parts {
        text.push_str(part)?;
    }
    Ok(text)
}
