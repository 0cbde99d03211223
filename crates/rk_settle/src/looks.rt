// What settling commands look at in a lane. Of a lane that is spent nothing is known.
ghost use Rattle.std.specs.Prelude.{◌≡◌, IfSome};
ghost use Rattle.std.specs.Option.{option_copied};
ghost use Rattle.rk_tablet_map.specs.Rows.{row_of};
ghost use Rattle.rk_priority.specs.Hashes.{is_waiting};
ghost use Rattle.rk_world.specs.Master.{is_staged};
ghost use Rattle.rk_world.specs.Premises.{IsMaster};
ghost use Rattle.rk_world.specs.World.{lives, master_at, tablet_in};
ghost use Rattle.rk_cluster.specs.Told.{LaneTells};
ghost use Rattle.rk_settle.specs.Lawful.{AreNamed};
ghost use Rattle.rk_settle.specs.Settle.{is_unnoticed as is_unnoticed_lem, unnoticed as unnoticed_lem};

use rk_lane::Lane;
use rk_message::Wire;
use rk_outside::Replica;
use rk_tablet_map::Row;
use rk_transfer::Role;

/// The wire.
pub(crate) fn wire_of<R: Replica + Drop>(at: &Lane<R>) -> &Wire
    ensures { LaneTells R.segments at.now (λ w. w.wire) result.now }
{
    at.wire()
}

/// The row of a tablet in a lane, if there is one: its owner, or the source and the target of its migration, are there. A lane that is
/// spent has none. A step for each row.
pub fn row_at<R: Replica + Drop>(at: &Lane<R>, tablet: u32) -> Option<&Row>
    ensures row { LaneTells R.segments at.now (λ w. row_of w.coordinator.rows tablet) (option_copied result) }
    ensures named { IfSome (option_copied result) (λ row. AreNamed at.now.masters row.phase) }
{
    if at.spent() {
        return None;
    }
    at.rows().row(tablet)
}

/// Whether a master lives. A step for each master that has crashed.
pub(crate) fn lives_at<R: Replica + Drop>(at: &Lane<R>, master: u8) -> bool
    ensures { LaneTells R.segments at.now (λ w. lives w master) result }
{
    !at.crashed(master)
}

/// What a master is to a tablet.
pub(crate) fn role_at<R: Replica + Drop>(at: &Lane<R>, master: u8, tablet: u32) -> Role
    requires { IsMaster at.now.masters master }
    ensures { LaneTells R.segments at.now (λ w. (tablet_in w master tablet).handover.role) result }
{
    at.master(master).role(tablet)
}

/// The term at which a master has a tablet.
pub(crate) fn term_at<R: Replica + Drop>(at: &Lane<R>, master: u8, tablet: u32) -> u64
    requires { IsMaster at.now.masters master }
    ensures { LaneTells R.segments at.now (λ w. (tablet_in w master tablet).handover.term) result }
{
    at.master(master).term(tablet)
}

/// How many entries of its log a master has applied.
pub(crate) fn applied_at<R: Replica + Drop>(at: &Lane<R>, master: u8) -> u64
    requires { IsMaster at.now.masters master }
    ensures { LaneTells R.segments at.now (λ w. (master_at w master).applied) result }
{
    at.master(master).applied()
}

/// Whether a master waits for hashes of a tablet, or has some to ask for.
pub(crate) fn waits_at<R: Replica + Drop>(at: &Lane<R>, master: u8, tablet: u32) -> bool
    requires { IsMaster at.now.masters master }
    ensures { LaneTells R.segments at.now (λ w. is_waiting (tablet_in w master tablet).pulling.hashes) result }
{
    at.master(master).is_waiting(tablet)
}

/// Whether a call is staged at a master.
pub(crate) fn staged_at<R: Replica + Drop>(at: &Lane<R>, master: u8, client: u32, seq: u64) -> bool
    requires { IsMaster at.now.masters master }
    ensures { LaneTells R.segments at.now (λ w. is_staged (master_at w master) client seq) result }
{
    at.master(master).staged_call(client, seq)
}

/// The lowest master that has crashed and was not noticed, if there is one. A step for each master, and for each that has
/// crashed.
pub(crate) fn unnoticed<R: Replica + Drop>(at: &Lane<R>, masters: u8) -> Option<u8>
    requires { at.now.masters ≡ masters }
    ensures next { LaneTells R.segments at.now unnoticed_lem result }
    ensures there { IfSome result (IsMaster masters) }
{
    if at.spent() {
        return None;
    }
    for index in 0..masters {
        if is_unnoticed(at, index + 1) {
            return Some(index + 1);
        }
    }
    None
}

// Whether a master has crashed and was not noticed. A step for each master that has crashed.
fn is_unnoticed<R: Replica + Drop>(at: &Lane<R>, master: u8) -> bool
    ensures { LaneTells R.segments at.now (λ w. is_unnoticed_lem w master) result }
{
    at.crashed(master) && !at.noticed(master)
}
