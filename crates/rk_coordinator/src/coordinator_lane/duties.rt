// What a coordinator does on its turn.
ghost use Rattle.std.specs.Prelude.{◌≡◌, ◌++◌, [], true, OnOk, OnErr, IfOk};
ghost use Rattle.std.specs.List.{flat_map};
ghost use Rattle.std.specs.Option.{option_to_list};
ghost use Rattle.rk_world.specs.CoordinatorStep.{coordinator_turn, row_duty as row_duty_lem};
ghost use Rattle.rk_world.specs.Coordinator.{Coordinator, from_coordinator, row_tenure};
ghost use Rattle.rk_coordinator.specs.Lane.{grant_of, told_of};

use crate::coordinator_lane::CoordinatorLane;
use rk_message::{Body, Grant, Message, Prepare, Rebuild, Tenure};
use rk_tablet_map::{Phase, Row};
use rk_types::{Listed, NoMemory, Node};

impl CoordinatorLane {
    /// What the coordinator sends on its turn, by rising tablet: a Prepare or a Close for a tablet that opens, a Grant for a
    /// tablet that moves, a Rebuild for a tablet that is rebuilt. A step for each row, and a search for each tablet that
    /// moves; lineages, and what sources reported of clients, are copied.
    pub fn turn(&self) -> Result<Vec<Message>, NoMemory>
        ensures { IfOk result (λ sends. sends.items ≡ coordinator_turn self.now) }
    {
        duties(self)
    }

    /// Whether it is known at a look that a turn would send nothing: each tablet is owned. A look at each row.
    pub fn rests(&self) -> bool
        ensures { result ≡ true → coordinator_turn self.now ≡ [] }
    {
        are_owned(self.map.rows())
    }
}

// Whether each tablet is owned, so that no row has a duty.
fn are_owned(rows: &[Row]) -> bool
    ensures { result ≡ true → (coordinator : Coordinator) → flat_map (λ row. row_duty_lem coordinator row row.phase) rows.now ≡ [] }
{
    for row in rows {
        if !matches!(row.phase, Phase::Owned { .. }) {
            return false;
        }
    }
    true
}

// What is sent for all rows.
fn duties(lane: &CoordinatorLane) -> Result<Vec<Message>, NoMemory>
    ensures { IfOk result (λ sends. sends.items ≡ coordinator_turn lane.now) }
{
    let mut sends = Vec::new(lane.alloc());
    for row in lane.map.rows() {
        push_some(&mut sends, row_duty(lane, row)?)?;
    }
    Ok(sends)
}

/// Puts what there is at the end of a list. After `NoMemory` the list is as it was.
pub(crate) fn push_some<T: Drop>(things: &mut Vec<T>, thing: Option<T>) -> Result<(), NoMemory>
    ensures ok { OnOk result (things.new.items ≡ things.old.items ++ option_to_list thing) }
    ensures err { OnErr result (things.new.items ≡ things.old.items) }
{
    let Some(it) = thing else {
        return Ok(());
    };
    things.push(it)?;
    Ok(())
}

// What is sent for a row.
fn row_duty(lane: &CoordinatorLane, row: &Row) -> Result<Option<Message>, NoMemory>
    ensures { IfOk result (λ message. option_to_list message ≡ row_duty_lem lane.now row.now row.now.phase) }
{
    let tenure = tenure_of(row);
    let range = row.range;
    Ok(match &row.phase {
        Phase::Owned { .. } => None,
        Phase::Opening {
            target,
            dfrom: None,
            ..
        } => { Some(to_master(*target, Body::Prepare(Prepare { tenure, range }))) }
        Phase::Opening {
            source,
            dfrom: Some(_),
            ..
        } => Some(to_master(*source, Body::Close(tenure))),
        Phase::Moving { source, target, .. } => {
            Some(to_master(*target, Body::Grant(grant(lane, tenure, *source)?)))
        }
        Phase::Rebuilding { lineage, to } => {
            let lineage = lineage.duplicate()?;
            Some(to_master(
                *to,
                Body::Rebuild(Rebuild {
                    tenure,
                    range,
                    lineage,
                }),
            ))
        }
    })
}

// The Grant of a tenure: it hands on what the source reported, and if that is not known, a floor of 1 and no ends.
fn grant(lane: &CoordinatorLane, tenure: Tenure, source: u8) -> Result<Grant, NoMemory>
    ensures { IfOk result (λ grant. grant ≡ grant_of tenure source (told_of lane.now tenure.tablet)) }
{
    let Some(told) = lane.handed.get(u64::from(tenure.tablet)) else {
        return Ok(Grant {
            tenure,
            source,
            floor: 1,
            ends: Listed::new(lane.alloc()),
        });
    };
    Ok(Grant {
        tenure,
        source,
        floor: told.floor(),
        ends: told.ends()?,
    })
}

/// The tenure of a row.
pub(crate) fn tenure_of(row: &Row) -> Tenure
    ensures { result ≡ row_tenure row.now }
{
    Tenure {
        tablet: row.tablet,
        term: row.term,
    }
}

/// A message from the coordinator to a master.
pub(crate) fn to_master(master: u8, body: Body) -> Message
    ensures { result ≡ from_coordinator (Node.Master master) body }
{
    Message {
        from: Node::Coordinator,
        to: Node::Master(master),
        body,
    }
}
