// Messages of a wire that work in a lane takes.
ghost use Rattle.std.specs.Prelude.{◌≡◌, IfOk, slice_get};
ghost use Rattle.rk_types.specs.NumberMap.{get};
ghost use Rattle.rk_world.specs.Refusals.{is_for};
ghost use Rattle.rk_attempts.specs.Selecting.{is_selected as is_selected_lem};
ghost use Rattle.rk_attempts.specs.Wires.{has_records as has_records_lem, is_for_node as is_for_node_lem, is_for_turn as is_for_turn_lem, is_there_with, is_to_client as is_to_client_lem, numbers_with as numbers_with_lem};

use rk_message::{Frame, Kind, Wire};
use rk_types::{NoMemory, Node};
use std::alloc::Global;

/// A kind of messages on a wire.
#[derive(Clone, Copy)]
pub enum Selection {
    /// Those for a client.
    ToClient(u32),
    /// Those for a node, and not for a client.
    ForNode,
    /// Those that a turn delivers: for a node, and without pulled records.
    ForTurn,
    /// Those with pulled records.
    WithRecords,
}

/// The numbers of the messages of a kind, oldest first. A step for each message that is there.
pub fn numbers_with(alloc: Global, wire: &Wire, selection: Selection) -> Result<Vec<u64>, NoMemory>
    ensures { IfOk result (λ found. found.items ≡ numbers_with_lem (is_selected_lem selection) wire.now.messages) }
{
    let mut found = Vec::new(alloc);
    for (number, frame) in wire.iter() {
        if selection.has(frame) {
            found.push(*number)?;
        }
    }
    Ok(found)
}

/// The number of the oldest message of a kind, if there is one. A step for each message up to there.
#[tactic(auto, using(crate::proofs::Finding::chosen_all))]
pub fn first_with(wire: &Wire, selection: Selection) -> Option<u64>
    ensures { result ≡ slice_get (numbers_with_lem (is_selected_lem selection) wire.now.messages) 0 }
{
    for (number, frame) in wire.iter() {
        if selection.has(frame) {
            return Some(*number);
        }
    }
    None
}

/// Whether the message of a number is there and of a kind. One search.
pub fn is_there(wire: &Wire, selection: Selection, number: u64) -> bool
    ensures { result ≡ is_there_with (is_selected_lem selection) (get wire.now.messages number) }
{
    match wire.frame(number) {
        Ok(frame) => selection.has(frame),
        Err(_) => false,
    }
}

impl Selection {
    fn has(&self, frame: &Frame) -> bool
        ensures { result ≡ is_selected_lem self.now frame.now }
    {
        match self {
            Selection::ToClient(client) => is_to_client(frame, *client),
            Selection::ForNode => is_for_node(frame),
            Selection::ForTurn => is_for_turn(frame),
            Selection::WithRecords => has_records(frame),
        }
    }
}

// Whether a message is for a client.
fn is_to_client(frame: &Frame, client: u32) -> bool
    ensures { result ≡ is_to_client_lem client frame.now }
{
    match frame.to() {
        Node::Client(other) => other == client,
        _ => false,
    }
}

// Whether a turn delivers a message.
fn is_for_turn(frame: &Frame) -> bool
    ensures { result ≡ is_for_turn_lem frame.now }
{
    is_for_node(frame) && !has_records(frame)
}

// Whether a message is for a node, and not for a client.
fn is_for_node(frame: &Frame) -> bool
    ensures { result ≡ is_for_node_lem frame.now }
{
    !matches!(frame.to(), Node::Client(_))
}

// Whether a message has pulled records.
#[tactic(auto, using(crate::proofs::ByKind::records_by_kind))]
fn has_records(frame: &Frame) -> bool
    ensures { result ≡ has_records_lem frame.now }
{
    matches!(frame.kind(), Kind::Pulled)
}
