// What a coordinator makes of messages.
ghost use Rattle.std.specs.Prelude.{◌≡◌, [], ◌∷◌, false, OnOk, OnErr, IfOk};
ghost use Rattle.std.specs.Option.{option_copied};
ghost use Rattle.rk_world.specs.Coordinator.{from_coordinator, owner_of as owner_of_lem};
ghost use Rattle.rk_world.specs.CoordinatorStep as step;
ghost use Rattle.rk_coordinator.specs.Handled.{IsHandled};

use crate::coordinator_lane::CoordinatorLane;
use crate::coordinator_lane::duties::{tenure_of, to_master};
use crate::handled::Handled;
use crate::told::Told;
use rk_message::{Body, Located, Lookup, Message, Ready, Rebuilt, Tenure, Transfer};
use rk_tablet_map::{Phase, Row};
use rk_types::{NoMemory, Node};

impl CoordinatorLane {
    /// Takes a message: a client's Lookup, or what a master that was not noticed dead reports of a row at its term. Each
    /// other message is ignored. After `NoMemory` nothing has changed. A search for the row, and a step for each master
    /// that was noticed dead; what a Transfer reports of clients is copied.
    pub fn handle(&mut self, message: &Message) -> Result<Handled, NoMemory>
        ensures ok { IfOk result (λ handled.
            IsHandled (step.coordinator_step self.old message.now) message.now.body self.new handled) }
        ensures err { OnErr result (self.new ≡ self.old) }
    {
        match message.from {
            Node::Client(client) => self.question(client, &message.body),
            Node::Master(master) => self.report(master, &message.body),
            Node::Coordinator | Node::Backup(_) => Ok(self.silent()),
        }
    }

    // Nothing comes of a message.
    fn silent(&self) -> Handled
        ensures sends { result.sends.items ≡ [] }
        ensures took { result.took_rebuilt ≡ false }
    {
        sending(Vec::new(self.alloc()))
    }

    // Takes what a client sent.
    fn question(&self, client: u32, body: &Body) -> Result<Handled, NoMemory>
        ensures { IfOk result (IsHandled (step.question self.now client body.now) body.now self.now) }
    {
        match body {
            Body::Lookup(lookup) => Ok(sending(self.answers_to(client, lookup)?)),
            _ => Ok(self.silent()),
        }
    }

    // The answer to a client's Lookup, if a row has the hash.
    fn answers_to(&self, client: u32, lookup: &Lookup) -> Result<Vec<Message>, NoMemory>
        ensures { IfOk result (λ sends. sends.items
            ≡ (step.lookup_taken self.now (Node.Client client) lookup.now).sends) }
    {
        let mut sends = Vec::new(self.alloc());
        if let Some(row) = self.map.row_with(lookup.table, lookup.hash) {
            sends.push(located(client, row))?;
        }
        Ok(sends)
    }

    // Takes what a master sent.
    fn report(&mut self, sender: u8, body: &Body) -> Result<Handled, NoMemory>
        ensures ok { IfOk result (IsHandled (step.report self.old sender body.now) body.now self.new) }
        ensures err { OnErr result (self.new ≡ self.old) }
    {
        match body {
            Body::Ready(ready) => {
                self.ready_in(sender, ready);
                Ok(self.silent())
            }
            Body::Transfer(transfer) => {
                self.transfer_in(sender, transfer)?;
                Ok(self.silent())
            }
            Body::Joined(tenure) => Ok(sending(self.joined_in(sender, tenure)?)),
            Body::Rebuilt(rebuilt) => self.rebuilt_in(sender, rebuilt),
            _ => Ok(self.silent()),
        }
    }

    // The row that a message of a master speaks of: one at the message's term, while that master was not noticed dead.
    fn row_for(&self, sender: u8, tenure: &Tenure) -> Option<&Row>
        ensures { option_copied result ≡ step.row_for self.now sender tenure.now }
    {
        if self.noticed(sender) {
            return None;
        }
        let row = self.map.row(tenure.tablet)?;
        if row.term != tenure.term {
            return None;
        }
        Some(row)
    }

    // The target of a tablet that opens is ready: its place is noted, if that is not known yet.
    fn ready_in(&mut self, sender: u8, ready: &Ready)
        ensures { step.report self.old sender (Body.Ready ready.now) ≡ step.unanswered self.new }
    {
        let Some(row) = self.row_for(sender, &ready.tenure) else {
            return;
        };
        let Phase::Opening {
            source,
            sfrom,
            target,
            dfrom: None,
        } = &row.phase
        else {
            return;
        };
        if sender != *target {
            return;
        }
        let phase = Phase::Opening {
            source: *source,
            sfrom: *sfrom,
            target: *target,
            dfrom: Some(ready.place),
        };
        let (tablet, term) = (row.tablet, row.term);
        self.map.change(tablet, term, phase);
    }

    // The source of a tablet that opens has frozen it: once the target's place is known it moves, and what the source
    // reported is noted for the Grant.
    fn transfer_in(&mut self, sender: u8, transfer: &Transfer) -> Result<(), NoMemory>
        ensures ok { OnOk result (step.report self.old sender (Body.Transfer transfer.now) ≡ step.unanswered self.new) }
        ensures err { OnErr result (self.new ≡ self.old) }
    {
        let Some(row) = self.row_for(sender, &transfer.tenure) else {
            return Ok(());
        };
        let Phase::Opening {
            source,
            sfrom,
            target,
            dfrom: Some(dfrom),
        } = &row.phase
        else {
            return Ok(());
        };
        if sender != *source {
            return Ok(());
        }
        let phase = Phase::Moving {
            source: *source,
            sfrom: *sfrom,
            target: *target,
            dfrom: *dfrom,
        };
        let (tablet, term) = (row.tablet, row.term);
        let told = Told::new(transfer.floor, transfer.ends.duplicate()?);
        self.handed.insert(u64::from(tablet), told)?;
        self.map.change(tablet, term, phase);
        Ok(())
    }

    // The target of a tablet that moves has all of it: it owns the tablet, and its source is told to let go. An owner is
    // sent its Own again.
    fn joined_in(&mut self, sender: u8, tenure: &Tenure) -> Result<Vec<Message>, NoMemory>
        ensures ok { IfOk result (λ sends. step.report self.old sender (Body.Joined tenure.now)
            ≡ step.answered self.new sends.items) }
        ensures err { OnErr result (self.new ≡ self.old) }
    {
        let mut sends = Vec::new(self.alloc());
        let Some(row) = self.row_for(sender, tenure) else {
            return Ok(sends);
        };
        match &row.phase {
            Phase::Moving {
                source,
                target,
                dfrom,
                ..
            } if sender == *target => {
                sends.push(own_to(*target, row))?;
                sends.push(release_to(*source, row))?;
                let phase = Phase::Owned {
                    master: *target,
                    from: *dfrom,
                };
                let (tablet, term) = (row.tablet, row.term);
                self.map.change(tablet, term, phase);
                Ok(sends)
            }
            Phase::Owned { master, .. } if sender == *master => {
                sends.push(own_to(*master, row))?;
                Ok(sends)
            }
            _ => Ok(sends),
        }
    }

    // A tablet is rebuilt: its master owns it, and what it reported is taken. An owner is sent its Own again.
    fn rebuilt_in(&mut self, sender: u8, rebuilt: &Rebuilt) -> Result<Handled, NoMemory>
        ensures ok { IfOk result
            (IsHandled (step.report self.old sender (Body.Rebuilt rebuilt.now)) (Body.Rebuilt rebuilt.now) self.new) }
        ensures err { OnErr result (self.new ≡ self.old) }
    {
        let mut sends = Vec::new(self.alloc());
        let Some(row) = self.row_for(sender, &rebuilt.tenure) else {
            return Ok(sending(sends));
        };
        match &row.phase {
            Phase::Rebuilding { to, .. } if sender == *to => {
                sends.push(own_to(*to, row))?;
                let phase = Phase::Owned {
                    master: *to,
                    from: rebuilt.place,
                };
                let (tablet, term) = (row.tablet, row.term);
                self.map.change(tablet, term, phase);
                Ok(Handled {
                    sends,
                    took_rebuilt: true,
                })
            }
            Phase::Owned { master, .. } if sender == *master => {
                sends.push(own_to(*master, row))?;
                Ok(sending(sends))
            }
            _ => Ok(sending(sends)),
        }
    }
}

// These messages come of a message.
fn sending(sends: Vec<Message>) -> Handled
    ensures sends { result.sends ≡ sends }
    ensures took { result.took_rebuilt ≡ false }
{
    Handled {
        sends,
        took_rebuilt: false,
    }
}

// A client is answered with the row that has its hash.
fn located(client: u32, row: &Row) -> Message
    ensures { result ∷ [] ≡ step.located (Node.Client client) (Some row.now) }
{
    Message {
        from: Node::Coordinator,
        to: Node::Client(client),
        body: Body::Located(Located {
            tablet: row.tablet,
            range: row.range,
            owner: owner_of(&row.phase),
        }),
    }
}

// The master that answers calls for a tablet, if one does.
fn owner_of(phase: &Phase) -> Option<u8>
    ensures { result ≡ owner_of_lem phase.now }
{
    match phase {
        Phase::Owned { master, .. } => Some(*master),
        Phase::Opening { source, .. } => Some(*source),
        Phase::Moving { target, .. } => Some(*target),
        Phase::Rebuilding { .. } => None,
    }
}

// A master is told that the tablet is its own.
fn own_to(master: u8, row: &Row) -> Message
    ensures { result ≡ step.own_to master row.now }
{
    to_master(master, Body::Own(tenure_of(row)))
}

// A master is told that the tablet is another's.
fn release_to(master: u8, row: &Row) -> Message
    ensures { result ≡ step.release_to master row.now }
{
    to_master(master, Body::Release(tenure_of(row)))
}
