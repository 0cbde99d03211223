// Work in a lane behind its lock: events one after the other.
ghost use Rattle.std.specs.Prelude.{◌≡◌, ℕ, [], true, is_some, IfErr, IfOk, IfSome, OnOk, Option, Some};
ghost use Rattle.rk_world.specs.Premises.{IsMaster};
ghost use Rattle.rk_lane.specs.Events.{MayComeTo};
ghost use Rattle.rk_lane.specs.LaneState.{IsSameLane, world_with};
ghost use Rattle.rk_attempts.specs.Came.{Comes, IsReplay, IsTurn, has_come};
ghost use Rattle.rk_attempts.specs.Ends.{EndsAt, IsEvent, IsHanded, IsHandedOut};
ghost use Rattle.rk_attempts.specs.Progress.{started};
ghost use Rattle.rk_attempts.specs.Replays.{is_replayed as is_replayed_lem};
ghost use Rattle.rk_attempts.specs.Selecting.{is_selected};
ghost use Rattle.rk_attempts.specs.Turns.{left_to_replays, master_turned, next_message as next_message_lem, nodes_turned};
ghost use Rattle.rk_attempts.specs.Wires.{numbers_with as numbers_with_lem};
ghost use Rattle.rk_laws_lanes.specs.Counts.{AddsNoClient};

use crate::kept::KeptLane;
use rk_attempts::{Selection, Short, first_with, heard, is_there, numbers_with};
use rk_outside::Replica;
use rk_shared::Roster;
use rk_types::Node;
use rk_world::Event;
use std::sync::ledger::Ledger;

impl<R: Replica + Drop, L: Ledger, A: Ledger, N: Roster> KeptLane<R, L, A, N> {
    // An event comes to the lane. A refusal of it is passed over, unless the lane is worn or memory is wanting.
    pub(crate) fn act(&mut self, event: Event) -> Result<(), Short>
        requires may { MayComeTo self.old event }
        requires clients { AddsNoClient event }
        requires runs { is_some self.old.running ≡ true }
        ensures came { (worn : Option ℕ) → EndsAt result worn → IsEvent R.segments self.old self.new event worn }
        ensures runs { OnOk result (is_some self.new.running ≡ true) }
        ensures lane { IsSameLane self.old self.new }
    {
        let answer = self.step(event);
        heard(&answer)
    }

    // A message is delivered, and then forgotten.
    pub(crate) fn hand(&mut self, number: u64) -> Result<(), Short>
        requires runs { is_some self.old.running ≡ true }
        ensures came { (worn : Option ℕ) → EndsAt result worn → IsHanded R.segments self.old self.new number worn }
        ensures runs { OnOk result (is_some self.new.running ≡ true) }
        ensures lane { IsSameLane self.old self.new }
    {
        self.act(Event::Deliver(number))?;
        self.act(Event::Forget(number))
    }

    // The coordinator and then the masters that live take their turns, by rising number.
    fn turn_nodes(&mut self) -> Result<(), Short>
        requires runs { is_some self.old.running ≡ true }
        ensures came { (worn : Option ℕ) → EndsAt result worn
            → Comes R.segments self.old self.new (λ w. nodes_turned w self.old.masters) (has_come worn) }
        ensures runs { OnOk result (is_some self.new.running ≡ true) }
        ensures lane { IsSameLane self.old self.new }
    {
        self.act(Event::Turn(Node::Coordinator))?;
        for index in 0..self.masters() {
            self.turn_master(index + 1)?;
        }
        Ok(())
    }

    // A master takes its turn, if it lives.
    fn turn_master(&mut self, master: u8) -> Result<(), Short>
        requires runs { is_some self.old.running ≡ true }
        requires there { IsMaster self.old.masters master }
        ensures came { (worn : Option ℕ) → EndsAt result worn
            → Comes R.segments self.old self.new (λ w. master_turned (started w) master) (has_come worn) }
        ensures runs { OnOk result (is_some self.new.running ≡ true) }
        ensures lane { IsSameLane self.old self.new }
    {
        if self.lane().crashed(master) {
            return Ok(());
        }
        self.act(Event::Turn(Node::Master(master)))
    }

    // Messages are delivered and forgotten, oldest first, until none is left that a turn delivers. It gives up after 2^64 - 1 of them, as
    // if memory had run out.
    fn hand_out(&mut self) -> Result<(), Short>
        requires runs { is_some self.old.running ≡ true }
        ensures came { (worn : Option ℕ) → EndsAt result worn → IsHandedOut R.segments self.old self.new worn }
        ensures runs { OnOk result (is_some self.new.running ≡ true) }
        ensures lane { IsSameLane self.old self.new }
    {
        'messages: for _ in 0..u64::MAX {
            let Some(number) = self.next_message() else {
                return Ok(());
            };
            self.hand(number)?;
        }
        Err(Short::NoMemory)
    }

    // The oldest message that a turn delivers.
    fn next_message(&self) -> Option<u64>
        ensures number { IfSome self.now.running (λ running. result ≡ next_message_lem (world_with self.now running [])) }
    {
        first_with(self.lane.wire(), Selection::ForTurn)
    }

    // The numbers of the messages of a kind, oldest first.
    pub(crate) fn numbers_of(&self, selection: Selection) -> Result<Vec<u64>, Short>
        ensures numbers { IfOk result (λ numbers. IfSome self.now.running (λ running.
            numbers.items ≡ numbers_with_lem (is_selected selection) running.wire.messages)) }
        ensures err { IfErr result (λ e. e ≡ Short.NoMemory) }
    {
        Ok(numbers_with(self.alloc, self.lane.wire(), selection)?)
    }

    /// A turn of the lane: its nodes take theirs, and each message that is for a node is delivered and forgotten, oldest first, but for
    /// those with pulled records. Answers the numbers of these, oldest first. What the nodes and the deliveries take.
    pub fn turn(&mut self) -> Result<Vec<u64>, Short>
        ensures came { (worn : Option ℕ) → EndsAt result worn → IsTurn R.segments self.old self.new worn }
        ensures left { IfOk result (λ numbers. IfSome self.new.running (λ running. numbers.items ≡ left_to_replays (world_with self.new running []))) }
        ensures lane { IsSameLane self.old self.new }
    {
        if self.lane().spent() {
            return Err(Short::NoMemory);
        }
        self.turn_nodes()?;
        self.hand_out()?;
        self.numbers_of(Selection::WithRecords)
    }

    /// Delivers and forgets the message of a number, if it is there and for a node; else nothing changes.
    pub fn replay(&mut self, number: u64) -> Result<(), Short>
        ensures came { (worn : Option ℕ) → EndsAt result worn → IsReplay R.segments self.old self.new number worn }
        ensures lane { IsSameLane self.old self.new }
    {
        if self.lane().spent() {
            return Err(Short::NoMemory);
        }
        if !self.is_replayed(number) {
            return Ok(());
        }
        self.hand(number)
    }

    // Whether the message of a number is there to be replayed.
    fn is_replayed(&self, number: u64) -> bool
        ensures { IfSome self.now.running (λ running. result ≡ is_replayed_lem (world_with self.now running []) number) }
    {
        is_there(self.lane().wire(), Selection::ForNode, number)
    }
}
