// What lanes and clients count together, under the lock of the tally.
ghost use Rattle.std.specs.Prelude.{◌≡◌, ◌+◌, ◌<◌, ◌&&◌, true, not};
ghost use Rattle.rk_shared_lanes.specs.Counting.{is_answer as is_answer_lem};
ghost use Rattle.rk_shared_lanes.specs.Passes.{one_if};

use rk_shared::{Roster, Tally};
use rk_world::{Seen, Taken};
use std::sync::ledger::{Ledger, Share};
use std::sync::{Mutex, Wait};

/// Counts a call that was asked in a lane, unless it was counted before.
pub(crate) fn count_asked<X: Wait, L: Ledger, M: Ledger, A: Ledger, B: Ledger, N: Roster>(
    rt: &X,
    tally: &Mutex<Tally<L, M, A, B, N>>,
    asked: &mut Share<A>,
    made: &mut Share<B>,
    counted: &mut bool,
)
    requires asked { 0 < asked.old.parts }
    requires made { 0 < made.old.parts }
    ensures asked { (asked.new.parts ≡ asked.old.parts) × (asked.new.amount ≡ asked.old.amount + one_if (not counted.old)) }
    ensures made { (made.new.parts ≡ made.old.parts) × (made.new.amount ≡ made.old.amount + one_if (not counted.old)) }
    ensures counted { counted.new ≡ true }
{
    if *counted {
        return;
    }
    tally.lock(rt).ask(asked, made);
    *counted = true;
}

/// Counts an answer that a client took in a lane, if it took one. Its call is then no longer counted as an outstanding one.
pub(crate) fn count_answered<X: Wait, L: Ledger, M: Ledger, A: Ledger, B: Ledger, N: Roster>(
    rt: &X,
    tally: &Mutex<Tally<L, M, A, B, N>>,
    seen: &Seen,
    accepted: &mut Share<L>,
    got: &mut Share<M>,
    counted: &mut bool,
)
    requires accepted { 0 < accepted.old.parts }
    requires got { 0 < got.old.parts }
    ensures accepted { (accepted.new.parts ≡ accepted.old.parts) × (accepted.new.amount ≡ accepted.old.amount + one_if (is_answer_lem seen.now.taken)) }
    ensures got { (got.new.parts ≡ got.old.parts) × (got.new.amount ≡ got.old.amount + one_if (is_answer_lem seen.now.taken)) }
    ensures counted { counted.new ≡ (counted.old && not (is_answer_lem seen.now.taken)) }
{
    if !is_answer(seen) {
        return;
    }
    tally.lock(rt).accept(accepted, got);
    *counted = false;
}

// Whether what a client took answers its call.
fn is_answer(seen: &Seen) -> bool
    ensures { result ≡ is_answer_lem seen.now.taken }
{
    matches!(seen.taken, Some(Taken::Done))
}
