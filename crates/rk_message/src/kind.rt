ghost use Rattle.std.specs.Prelude.{◌≡◌};
ghost use Rattle.rk_message.specs.Kinds.{kind_number, kind_numbered};

/// What a message is for: which fields follow the sender and the receiver in its frame.
#[derive(Clone, Copy, PartialEq, Eq)]
pub enum Kind {
    Request = 1,
    Reply = 2,
    Lookup = 3,
    Located = 4,
    Append = 5,
    Stored = 6,
    Prepare = 7,
    Ready = 8,
    Close = 9,
    Transfer = 10,
    Grant = 11,
    Pull = 12,
    Pulled = 13,
    Want = 14,
    Got = 15,
    Joined = 16,
    Own = 17,
    Release = 18,
    Rebuild = 19,
    Read = 20,
    Copy = 21,
    Rebuilt = 22,
}

/// All kinds, by rising number.
pub const KINDS: [Kind; 22] = [
    Kind::Request,
    Kind::Reply,
    Kind::Lookup,
    Kind::Located,
    Kind::Append,
    Kind::Stored,
    Kind::Prepare,
    Kind::Ready,
    Kind::Close,
    Kind::Transfer,
    Kind::Grant,
    Kind::Pull,
    Kind::Pulled,
    Kind::Want,
    Kind::Got,
    Kind::Joined,
    Kind::Own,
    Kind::Release,
    Kind::Rebuild,
    Kind::Read,
    Kind::Copy,
    Kind::Rebuilt,
];

impl Kind {
    /// The first byte of the frames of this kind.
    pub fn number(self) -> u8
        ensures { result ≡ kind_number self }
    {
        self as u8
    }

    /// The kind with this number, if there is one.
    pub fn numbered(number: u8) -> Option<Kind>
        ensures { result ≡ kind_numbered number }
    {
        KINDS.iter().copied().find(|kind| kind.number() == number)
    }
}
