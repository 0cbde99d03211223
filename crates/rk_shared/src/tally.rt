// The books of all ledgers, under one lock.
ghost use Rattle.std.specs.Prelude.{◌≡◌, ◌+◌, ◌<◌};
ghost use Rattle.rk_shared.specs.Powers.{ALL_NUMBERS};

use crate::double_entry::DoubleEntry;
use std::sync::ledger::{Book, Ledger, Share};

/// The tally of all lanes and clients: as many records are accepted by lanes as clients got receipts, as many calls were asked of lanes
/// as clients counted, and the lanes are numbered from 0 to 7.
#[derive(Drop)]
pub struct Tally<L: Ledger, M: Ledger, A: Ledger, B: Ledger, N: Ledger> {
    accepted: DoubleEntry<L, M>,
    asked: DoubleEntry<A, B>,
    numbers: Book<N>,
    ghost numbered: { numbers.total ≡ ALL_NUMBERS },
}

impl<L: Ledger, M: Ledger, A: Ledger, B: Ledger, N: Ledger> Tally<L, M, A, B, N> {
    /// The tally of these books.
    pub fn new(
        accepted: DoubleEntry<L, M>,
        asked: DoubleEntry<A, B>,
        numbers: Book<N>,
    ) -> Tally<L, M, A, B, N>
        requires { numbers.total ≡ ALL_NUMBERS }
        ensures { (result.accepted ≡ accepted) × (result.asked ≡ asked) × (result.numbers ≡ numbers) }
    {
        Tally {
            accepted,
            asked,
            numbers,
        }
    }

    /// One more record is accepted by a lane, for which a client got its receipt.
    pub fn accept(&mut self, lane: &mut Share<L>, client: &mut Share<M>)
        requires lane { 0 < lane.old.parts }
        requires client { 0 < client.old.parts }
        ensures lane { (lane.new.amount ≡ lane.old.amount + 1) × (lane.new.parts ≡ lane.old.parts) }
        ensures client { (client.new.amount ≡ client.old.amount + 1) × (client.new.parts ≡ client.old.parts) }
    {
        self.accepted.add(lane, client);
    }

    /// One more call was asked of a lane, by a client.
    pub fn ask(&mut self, lane: &mut Share<A>, client: &mut Share<B>)
        requires lane { 0 < lane.old.parts }
        requires client { 0 < client.old.parts }
        ensures lane { (lane.new.amount ≡ lane.old.amount + 1) × (lane.new.parts ≡ lane.old.parts) }
        ensures client { (client.new.amount ≡ client.old.amount + 1) × (client.new.parts ≡ client.old.parts) }
    {
        self.asked.add(lane, client);
    }

    /// Shows, of shares that have all parts of their ledgers, that what lanes accepted is what clients got, and what was asked of lanes is
    /// what clients counted; and that the lanes are numbered from 0 to 7. It changes nothing.
    pub fn balance(
        &mut self,
        accepted: &mut Share<L>,
        got: &mut Share<M>,
        asked: &mut Share<A>,
        made: &mut Share<B>,
        number: &mut Share<N>,
    )
        requires accepted { (accepted.old.parts ≡ L.parts) × (got.old.parts ≡ M.parts) }
        requires asked { (asked.old.parts ≡ A.parts) × (made.old.parts ≡ B.parts) }
        requires number { number.old.parts ≡ N.parts }
        ensures accepted { accepted.old.amount ≡ got.old.amount }
        ensures asked { asked.old.amount ≡ made.old.amount }
        ensures number { number.old.amount ≡ ALL_NUMBERS }
    {
        self.accepted.balance(accepted, got);
        self.asked.balance(asked, made);
        self.numbers.audit(number);
    }
}
