// What a master makes of a backup's word that it holds so much of a segment.
ghost use Rattle.std.specs.Prelude.{◌≡◌, IfOk, OnOk};
ghost use Rattle.rk_log.specs.Log.{IsBackup, overreach};
ghost use Rattle.rk_world.specs.Commits.{stored_taken};
ghost use Rattle.rk_master.specs.Parts.{worked_of};
ghost use Rattle.rk_master.specs.State.{IsState, master_of};

use crate::commit::apply_held;
use crate::state::MasterState;
use crate::waiting::go_on;
use crate::work::Worked;
use rk_message::Stored;
use rk_types::NoMemory;

/// A master takes a backup's word that it holds so much of a segment. A step for each entry that it commits and each
/// segment that the backup is now known to hold whole; what the entries take; and what goes on.
pub(crate) fn take_stored(
    state: &mut MasterState,
    backup: u8,
    stored: Stored,
) -> Result<Worked, NoMemory>
    requires state { IsState state.old }
    requires backup { IsBackup state.old.log backup }
    ensures state { OnOk result (IsState state.new) }
    ensures ok { IfOk result (λ work. worked_of (master_of state.new) work
        ≡ stored_taken (master_of state.old) backup stored (overreach state.old.log stored.segment stored.length)) }
{
    let mut work = state.nothing();
    let Ok(()) = state.log.stored(backup, stored.segment, stored.length) else {
        return Ok(work);
    };
    apply_held(state, &mut work)?;
    go_on(state)?;
    Ok(work)
}
