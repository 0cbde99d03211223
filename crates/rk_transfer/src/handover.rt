ghost use Rattle.std.specs.Prelude.{◌≡◌, is_some, unwrap_or};
ghost use Rattle.rk_transfer.specs.Handover.{begun, prepared, closed, frozen, granted, joined, rebuilt, carried, owned, released, is_serving};

use crate::role::Role;
use rk_types::Range;

/// A master's side of the handover of one tablet: its role, the term and the range that it was given last, and the
/// counter that gives the next version. Places count the entries of the master's log from 0.
///
/// Each move answers whether it applied. If it did not, nothing has changed.
#[derive(Clone, Copy, PartialEq, Eq)]
pub struct Handover {
    pub role: Role,
    pub term: u64,
    pub range: Range,
    pub counter: u64,
}

impl Handover {
    /// Asks the master to take the tablet over; `from` is the place at which its own entries of the tablet start. It
    /// applies in any role, by a greater term than its own. The term and the range are those given then, and the role
    /// is `Wanting`.
    pub fn prepare(&mut self, term: u64, range: Range, from: u64) -> bool
        ensures answer { result ≡ is_some (prepared self.old term range from) }
        ensures after { self.new ≡ unwrap_or (prepared self.old term range from) self.old }
    {
        self.begin(term, range, Role::Wanting { from })
    }

    /// Asks the master to give the tablet away. It applies to `Serving`, `Joining` and `Rebuilding`, by a greater term
    /// than its own. The term is the one given then, and the role is `Closing`.
    pub fn close(&mut self, term: u64) -> bool
        ensures answer { result ≡ is_some (closed self.old term) }
        ensures after { self.new ≡ unwrap_or (closed self.old term) self.old }
    {
        let closes = matches!(
            self.role,
            Role::Serving | Role::Joining { .. } | Role::Rebuilding { .. }
        );
        if term <= self.term || !closes {
            return false;
        }
        self.term = term;
        self.role = Role::Closing;
        true
    }

    /// Reports that no entry of the tablet waits to be applied. It applies to `Closing`, at its own term. The role is
    /// `Frozen` then.
    pub fn freeze(&mut self, term: u64) -> bool
        ensures answer { result ≡ is_some (frozen self.old term) }
        ensures after { self.new ≡ unwrap_or (frozen self.old term) self.old }
    {
        if term != self.term || !matches!(self.role, Role::Closing) {
            return false;
        }
        self.role = Role::Frozen;
        true
    }

    /// Hands the tablet over, with the counter to go on from. It applies to `Wanting`, at its own term. The counter is
    /// the one given then, and the role is `Receiving`.
    pub fn grant(&mut self, term: u64, counter: u64) -> bool
        ensures answer { result ≡ is_some (granted self.old term counter) }
        ensures after { self.new ≡ unwrap_or (granted self.old term counter) self.old }
    {
        if term != self.term || !matches!(self.role, Role::Wanting { .. }) {
            return false;
        }
        self.role = Role::Receiving;
        self.counter = counter;
        true
    }

    /// Reports that all has been fetched, and the place of the closing entry, if that is in the log. It applies at its
    /// own term to `Receiving`, and with a place to `Joining` that has none. The role is `Joining` with that entry then.
    pub fn join(&mut self, term: u64, entry: Option<u64>) -> bool
        ensures answer { result ≡ is_some (joined self.old term entry) }
        ensures after { self.new ≡ unwrap_or (joined self.old term entry) self.old }
    {
        let joins = match self.role {
            Role::Receiving => true,
            Role::Joining { entry: None } => entry.is_some(),
            _ => false,
        };
        if term != self.term || !joins {
            return false;
        }
        self.role = Role::Joining { entry };
        true
    }

    /// Asks the master to rebuild the tablet; `from` is the place at which its own entries of the tablet start. It
    /// applies in any role, by a greater term than its own. The term and the range are those given then, and the role
    /// is `Rebuilding` with no closing entry.
    pub fn rebuild(&mut self, term: u64, range: Range, from: u64) -> bool
        ensures answer { result ≡ is_some (rebuilt self.old term range from) }
        ensures after { self.new ≡ unwrap_or (rebuilt self.old term range from) self.old }
    {
        self.begin(term, range, Role::Rebuilding { from, entry: None })
    }

    /// Gives the place of the entry that closes a rebuild, and the counter to go on from. It applies to `Rebuilding`
    /// that has no such place, at its own term. The place and the counter are those given then.
    pub fn carry(&mut self, term: u64, entry: u64, counter: u64) -> bool
        ensures answer { result ≡ is_some (carried self.old term entry counter) }
        ensures after { self.new ≡ unwrap_or (carried self.old term entry counter) self.old }
    {
        if term != self.term {
            return false;
        }
        let Role::Rebuilding { from, entry: None } = self.role else {
            return false;
        };
        self.role = Role::Rebuilding {
            from,
            entry: Some(entry),
        };
        self.counter = counter;
        true
    }

    /// Reports that the tablet is the master's own; `applied` is how many entries of its log are applied. It applies
    /// to `Joining` and `Rebuilding` whose closing entry is among those, at its own term. The role is `Serving` then.
    pub fn own(&mut self, term: u64, applied: u64) -> bool
        ensures answer { result ≡ is_some (owned self.old term applied) }
        ensures after { self.new ≡ unwrap_or (owned self.old term applied) self.old }
    {
        let owns = match self.role {
            Role::Joining { entry: Some(entry) } => entry < applied,
            Role::Rebuilding {
                from: _,
                entry: Some(entry),
            } => entry < applied,
            _ => false,
        };
        if term != self.term || !owns {
            return false;
        }
        self.role = Role::Serving;
        true
    }

    /// Reports that nobody will ask for what the master has of the tablet any more. It applies to `Frozen`, at its own
    /// term. The role is `Absent` then.
    pub fn release(&mut self, term: u64) -> bool
        ensures answer { result ≡ is_some (released self.old term) }
        ensures after { self.new ≡ unwrap_or (released self.old term) self.old }
    {
        if term != self.term || !matches!(self.role, Role::Frozen) {
            return false;
        }
        self.role = Role::Absent;
        true
    }

    /// Whether the master answers calls for the tablet.
    pub fn serves(&self) -> bool
        ensures { result ≡ is_serving self.now.role }
    {
        self.role.serves()
    }

    // Begins the handover anew in this role, by a greater term.
    fn begin(&mut self, term: u64, range: Range, role: Role) -> bool
        ensures answer { result ≡ is_some (begun self.old term range role) }
        ensures after { self.new ≡ unwrap_or (begun self.old term range role) self.old }
    {
        if term <= self.term {
            return false;
        }
        self.role = role;
        self.term = term;
        self.range = range;
        true
    }
}
