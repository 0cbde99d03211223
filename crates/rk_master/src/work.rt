ghost use Rattle.std.specs.Prelude.{◌≡◌, ◌++◌, ◌∷◌, [], None, OnOk};

use rk_message::Message;
use rk_types::{Call, NoMemory, Outcome};
use rk_world::{Mark, Served};
use std::alloc::Global;

/// What a master made of a message: the messages that it sends, and the calls that it served, each in their order; and
/// the piece of its log that a rebuild made, if one did.
#[derive(Drop)]
pub struct Worked {
    pub sends: Vec<Message>,
    pub served: Vec<Served>,
    pub marked: Option<Mark>,
}

impl Worked {
    /// Nothing is sent, no call served, and nothing marked. Takes no memory.
    pub fn nothing(alloc: Global) -> Worked
        ensures sends { result.sends.items ≡ [] }
        ensures served { result.served.items ≡ [] }
        ensures marked { result.marked ≡ None }
    {
        Worked {
            sends: Vec::new(alloc),
            served: Vec::new(alloc),
            marked: None,
        }
    }

    /// A message is sent behind those before it.
    pub fn send(&mut self, message: Message) -> Result<(), NoMemory>
        ensures sends { OnOk result (self.new.sends.items ≡ self.old.sends.items ++ message ∷ []) }
        ensures served { self.new.served.items ≡ self.old.served.items }
        ensures marked { self.new.marked ≡ self.old.marked }
    {
        self.sends.push(message)?;
        Ok(())
    }

    /// A call was served behind those before it.
    pub fn serve(&mut self, call: Call, outcome: Outcome) -> Result<(), NoMemory>
        ensures sends { self.new.sends.items ≡ self.old.sends.items }
        ensures served { OnOk result (self.new.served.items ≡ self.old.served.items ++ (record { call = call; outcome = outcome }) ∷ []) }
        ensures marked { self.new.marked ≡ self.old.marked }
    {
        self.served.push(Served { call, outcome })?;
        Ok(())
    }
}
