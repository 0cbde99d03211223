// What a client carries from lane to lane.
ghost use Rattle.std.specs.Prelude.{◌≡◌, ◌+◌, ◌↔◌, ℕ, Err, IfOk, None, OnErr, OnOk, Some, false, is_some, length, true};
ghost use Rattle.rk_world.specs.Client.{busy, next_call, with_next_call};
ghost use Rattle.rk_world.specs.Premises.{IsLawfulCall, MayAct};
ghost use Rattle.rk_laws_lanes.specs.Below.{waiting};
ghost use Rattle.rk_laws_lanes.specs.gathered.Gathered.{IsOrderly};
ghost use Rattle.rk_shared_lanes.specs.Passes.{MakesOnly};

use rk_session::{AskError, Session};
use rk_shared::Roster;
use rk_types::{Key, Op};
use std::marker::{Model, PhantomData};
use std::sync::ledger::{Ledger, Share};

/// A session beside its shares: of the receipts that it got, and of the calls that were asked. Contracts see the session, and whether its
/// outstanding call was counted as asked.
#[derive(Drop)]
pub struct Pass<M: Ledger, B: Ledger, N: Roster> {
    pub(crate) session: Session,
    pub(crate) counted: bool,
    pub(crate) got: Share<M>,
    pub(crate) made: Share<B>,
    pub(crate) marker: PhantomData<N>,
}

impl<M: Ledger, B: Ledger, N: Roster> Model for Pass<M, B, N> {
    ghost use Rattle.rk_shared_lanes.specs.Passes.{PassState};

    ghost Value = { PassState };

    ghost use Rattle.rk_shared_lanes.specs.Passes.{IsPass};

    ghost view = { λ pass. record { session = pass.session; counted = pass.counted } };

    ghost invariant = { λ pass. IsPass N.tells N.masters N.makes (record { session = pass.session; counted = pass.counted })
        (pass.got.parts, pass.got.amount) (pass.made.parts, pass.made.amount) };
}

impl<M: Ledger, B: Ledger, N: Roster> Pass<M, B, N> {
    /// The session. It may act in the lanes, and has a receipt for each of its calls but an outstanding one. It is orderly: its receipts
    /// are of its own calls, one of each, in the order of their stamps, all of which it has seen; and its calls are such as clients make.
    pub fn session(&self) -> &Session
        ensures session { result.now ≡ self.now.session }
        ensures may { MayAct N.masters self.now.session }
        ensures last { self.now.session.last ≡ length self.now.session.receipts + waiting self.now.session.outstanding }
        ensures orderly { N.tells → IsOrderly self.now.session.client self.now.session }
        ensures calls { N.tells → MakesOnly N.makes self.now.session }
    {
        &self.session
    }

    /// Whether the outstanding call was counted as asked.
    pub fn counted(&self) -> bool
        ensures counted { result ≡ self.now.counted }
        ensures pending { self.now.counted ≡ true → is_some self.now.session.outstanding ≡ true }
    {
        self.counted
    }

    /// Asks the client's next call, as its session does; `Busy` with the seq of the outstanding call comes exactly if there is one. The
    /// call is not counted before a lane is asked it. After an error nothing has changed.
    pub fn ask(&mut self, table: u64, key: Key, op: Op) -> Result<u64, AskError>
        requires lawful { IsLawfulCall (next_call self.old.session table key op) }
        requires makes { N.tells → N.makes (next_call self.old.session table key op) }
        ensures seq { IfOk result (λ seq. seq ≡ self.old.session.last + 1) }
        ensures ok { OnOk result (self.new.session ≡ with_next_call self.old.session table key op) }
        ensures free { OnOk result (self.old.session.outstanding ≡ None) }
        ensures counted { OnOk result (self.new.counted ≡ false) }
        ensures busy { (seq : ℕ) → (result ≡ Err (AskError.Busy seq)) ↔ (busy self.old.session ≡ Some seq) }
        ensures err { OnErr result (self.new ≡ self.old) }
    {
        self.session.ask(table, key, op)
    }
}
