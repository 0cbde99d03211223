ghost use Rattle.std.specs.Prelude.{◌≡◌, ◌≢◌, ◌+◌, ◌-◌, ◌^◌, ◌<◌, All, min, length, Some, None, IfSome, IfOk, OnOk, IfErr, OnErr};
ghost use Rattle.std.specs.VecDeque.Iter.{deque_iter_rest};
ghost use Rattle.rk_types.specs.NumberMap.{IsInOrder, get};
ghost use Rattle.rk_message.specs.declared.message.Message.{Message as Sent};
ghost use Rattle.rk_message.specs.declared.missing.WireError.TheVariants.{NoMemory as no_memory};
ghost use Rattle.rk_message.specs.Frames.{IsLawfulMessage};
ghost use Rattle.rk_message.specs.Wire.{HasLawfulMessages, HasSentNumbers, bytes_on, kind_number_of, missing, number_at, receiver_of, silent, wire_error_by, with_message, without_message};

use crate::framed::Frame;
use crate::message::Message;
use crate::missing::{NoMessage, WireError};
use rk_queue::Queue;
use rk_types::{NoMemory, Node};
use std::alloc::Global;
use std::collections::vec_deque::Iter;
use std::marker::Model;

/// The messages of a lane that are under way. Each has a number, counted from 1 in the order in which they were sent.
/// A message stays when it is delivered, so it may be delivered again and in any order, until it is forgotten.
#[derive(Drop)]
pub struct Wire {
    alloc: Global,
    messages: Queue<Frame>,
    sent: u64,
    // The bytes of the frames of all messages.
    bytes: u128,
}

impl Model for Wire {
    ghost use Rattle.rk_message.specs.Wire.{Traffic, traffic_code, IsConsistent};

    ghost Value = { Traffic };

    ghost coded = { traffic_code };

    ghost view = { λ wire. record { messages = wire.messages; sent = wire.sent } };

    ghost invariant = { λ wire. IsConsistent (record { messages = wire.messages; sent = wire.sent }) wire.bytes };
}

impl Wire {
    /// A wire to which nothing was sent, which takes no memory.
    pub fn new(alloc: Global) -> Wire
        ensures { result ≡ silent }
    {
        Wire {
            alloc,
            messages: Queue::new(alloc),
            sent: 0,
            bytes: 0,
        }
    }

    /// Puts a message on the wire, as its frame, and answers its number. After `NoMemory` the wire is as it was. The frame
    /// is written, and no message searched.
    pub fn send(&mut self, message: &Message) -> Result<u64, NoMemory>
        requires room { self.old.sent < 2 ^ 60 }
        requires lawful { IsLawfulMessage message.now }
        ensures number { IfOk result (λ n. n ≡ self.old.sent + 1) }
        ensures sent { OnOk result (self.new ≡ with_message message.now self.old) }
        ensures err { OnErr result (self.new ≡ self.old) }
    {
        let number = self.sent + 1;
        let frame = Frame::new(self.alloc, message)?;
        let length = u128::from(frame.length());
        self.messages.push(number, frame)?;
        self.sent = number;
        self.bytes += length;
        Ok(number)
    }

    /// The message of this number, read from its frame. `NoMessage` comes exactly when it was never sent or is forgotten, unless
    /// memory runs out. One search, and the frame is read.
    pub fn message(&self, n: u64) -> Result<Message, WireError>
        ensures ok { IfOk result (λ message. get self.now.messages n ≡ Some message) }
        ensures err { IfErr result (λ e. e ≢ no_memory → IfSome (missing n self.now) (λ none. e ≡ wire_error_by none)) }
        ensures there { (message : Sent) → get self.now.messages n ≡ Some message → IfErr result (λ e. e ≡ no_memory) }
        ensures lawful { HasLawfulMessages self.now }
    {
        Ok(self.frame(n)?.message()?)
    }

    /// The frame of the message of this number. `NoMessage` comes exactly when it was never sent or is forgotten. One search.
    pub fn frame(&self, n: u64) -> Result<&Frame, NoMessage>
        ensures ok { IfOk result (λ frame. get self.now.messages n ≡ Some frame.now) }
        ensures err { IfErr result (λ e. missing n self.now ≡ Some e) }
        ensures lawful { HasLawfulMessages self.now }
    {
        self.messages.get(n).ok_or(NoMessage(n))
    }

    /// Takes the message of this number off the wire and drops it. `NoMessage` comes exactly when it was never sent or is
    /// forgotten, and leaves the wire as it was. One search, and a move for each message that was sent before it, or for
    /// each after it if those are fewer.
    pub fn forget(&mut self, n: u64) -> Result<(), NoMessage>
        ensures ok { OnOk result (missing n self.old ≡ None) }
        ensures forgotten { OnOk result (self.new ≡ without_message n self.old) }
        ensures err { IfErr result (λ e. missing n self.old ≡ Some e) }
        ensures same { OnErr result (self.new ≡ self.old) }
    {
        let Some(frame) = self.messages.remove(n) else {
            return Err(NoMessage(n));
        };
        self.bytes -= u128::from(frame.length());
        Ok(())
    }

    /// The number of the oldest message; none if the wire is empty. No search.
    pub fn oldest(&self) -> Option<u64>
        ensures { result ≡ number_at 1 self.now }
    {
        self.at(1)
    }

    /// The number of the message at a place among those that are there, counted from 1, the oldest first. No
    /// search.
    pub fn at(&self, place: u32) -> Option<u64>
        ensures { result ≡ number_at place self.now }
    {
        if place == 0 {
            return None;
        }
        self.messages.number_at(place as usize - 1)
    }

    /// The frames of the messages that are there with their numbers, the oldest first.
    pub fn iter(&self) -> Iter<'_, (u64, Frame)>
        ensures messages { deque_iter_rest result ≡ self.now.messages }
        ensures found { All (λ entry. get self.now.messages entry.0 ≡ Some entry.1) self.now.messages }
    {
        self.messages.iter()
    }

    /// How many messages are there.
    pub fn count(&self) -> u64
        ensures count { result ≡ length self.now.messages }
        ensures order { IsInOrder self.now.messages }
        ensures numbers { HasSentNumbers self.now }
    {
        self.messages.count()
    }

    /// How many messages were ever sent: the number of the last of them, 0 if there was none.
    pub fn sent(&self) -> u64
        ensures { result ≡ self.now.sent }
    {
        self.sent
    }

    /// The bytes of the frames of all messages that are there; 2^64 - 1 if they are more.
    pub fn bytes(&self) -> u64
        ensures { result ≡ min (bytes_on self.now) (2 ^ 64 - 1) }
    {
        u64::try_from(self.bytes).unwrap_or(u64::MAX)
    }

    /// The receiver of the message of this number. `NoMessage` comes exactly when it was never sent or is forgotten.
    /// One search.
    pub fn address(&self, n: u64) -> Result<Node, NoMessage>
        ensures ok { IfOk result (λ to. receiver_of n self.now ≡ Some to) }
        ensures err { IfErr result (λ e. missing n self.now ≡ Some e) }
    {
        Ok(self.frame(n)?.to())
    }

    /// The number of the kind of the message of this number: the first byte of its frame. `NoMessage` comes exactly
    /// when it was never sent or is forgotten. One search.
    pub fn kind(&self, n: u64) -> Result<u8, NoMessage>
        ensures ok { IfOk result (λ number. kind_number_of n self.now ≡ Some number) }
        ensures err { IfErr result (λ e. missing n self.now ≡ Some e) }
    {
        Ok(self.frame(n)?.kind().number())
    }
}
