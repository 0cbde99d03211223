ghost use Rattle.std.specs.Prelude.{◌≡◌, IfOk};
ghost use Rattle.rk_message.specs.Kinds.{kind_of};
ghost use Rattle.rk_message.specs.Frames.{IsLawfulMessage, frame_len};

use crate::frame::{decode_frame, encode_frame};
use crate::kind::Kind;
use crate::message::Message;
use rk_types::{NoMemory, Node};
use std::alloc::Global;
use std::marker::Model;

/// A message as the bytes of its frame. Contracts see the message. Its receiver and its kind are kept beside the bytes, so
/// that a search for messages reads no frame.
#[derive(Drop)]
pub struct Frame {
    to: Node,
    kind: Kind,
    bytes: Vec<u8>,
}

impl Model for Frame {
    ghost use Rattle.rk_message.specs.declared.message.Message.{Message};
    ghost use Rattle.rk_message.specs.Framed.{IsFrame, spelled};

    ghost Value = { Message };

    ghost view = { λ frame. spelled frame.bytes.items };

    ghost invariant = { λ frame. IsFrame frame.to frame.kind frame.bytes.items };
}

impl Frame {
    /// The frame of a lawful message.
    pub fn new(alloc: Global, message: &Message) -> Result<Frame, NoMemory>
        requires { IsLawfulMessage message.now }
        ensures { IfOk result (λ frame. frame ≡ message.now) }
    {
        let mut bytes = Vec::new(alloc);
        encode_frame(message, &mut bytes)?;
        Ok(Frame {
            to: message.to,
            kind: message.body.kind(),
            bytes,
        })
    }

    /// The message, read from its frame.
    pub fn message(&self) -> Result<Message, NoMemory>
        ensures { IfOk result (λ message. message ≡ self.now) }
    {
        match decode_frame(*self.bytes.allocator(), self.bytes.as_slice()) {
            Ok((message, _)) => Ok(message),
            // A frame can always be read.
            Err(_) => Err(NoMemory),
        }
    }

    /// Who receives the message.
    pub fn to(&self) -> Node
        ensures { result ≡ self.now.to }
    {
        self.to
    }

    /// What the message is for.
    pub fn kind(&self) -> Kind
        ensures { result ≡ kind_of self.now.body }
    {
        self.kind
    }

    /// How many bytes the frame takes.
    pub fn length(&self) -> u64
        ensures { result ≡ frame_len self.now }
    {
        self.bytes.len() as u64
    }
}
