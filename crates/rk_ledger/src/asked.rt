ghost use Rattle.std.specs.Prelude.{◌≡◌, Some, None};

use rk_message::Message;
use rk_world::LastCall;

/// What a client asked in a lane: its last call, and its last request, if any.
#[derive(Drop)]
pub(crate) struct Asked {
    pub(crate) last: Option<LastCall>,
    pub(crate) request: Option<Message>,
}

impl Asked {
    /// Nothing so far.
    pub(crate) fn nothing() -> Asked
        ensures last { result.last ≡ None }
        ensures request { result.request ≡ None }
    {
        Asked {
            last: None,
            request: None,
        }
    }

    /// Another call takes the place of the last one, which is dropped.
    pub(crate) fn ask(&mut self, last: LastCall)
        ensures last { self.new.last ≡ Some last }
        ensures request { self.new.request ≡ self.old.request }
    {
        self.last = Some(last);
    }

    /// Another request takes the place of the last one, which is dropped.
    pub(crate) fn save(&mut self, request: Message)
        ensures last { self.new.last ≡ self.old.last }
        ensures request { self.new.request ≡ Some request }
    {
        self.request = Some(request);
    }
}
