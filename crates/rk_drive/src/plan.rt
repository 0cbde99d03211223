ghost use Rattle.std.specs.Prelude.{◌≡◌, ◌*◌, ◌-◌, ◌^◌, min};

/// A master that is to crash, once so many calls are answered.
#[derive(Clone, Copy)]
pub struct Crash {
    pub master: u8,
    pub after: u32,
}

/// What a drive does: how many clients make how many calls each, of how many keys, which master crashes meanwhile, if one does, and whether
/// the whole history is written.
#[derive(Clone, Copy)]
pub struct Plan {
    pub clients: u32,
    pub calls: u32,
    pub keys: u32,
    pub crash: Option<Crash>,
    pub history: bool,
}

impl Plan {
    /// How many calls all clients make together; 2^64 - 1 if they are more.
    pub fn all_calls(&self) -> u64
        ensures { result ≡ min (self.now.clients * self.now.calls) (2 ^ 64 - 1) }
    {
        u64::from(self.clients).saturating_mul(u64::from(self.calls))
    }
}
