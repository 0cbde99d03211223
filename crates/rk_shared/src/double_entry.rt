ghost use Rattle.std.specs.Prelude.{◌≡◌, ◌+◌, ◌<◌, ◌∷◌, []};

use std::sync::ledger::{Blank, Book, Ledger, Share};

/// Two books, one of the lanes and one of the clients, which are always raised together: so their totals are equal.
#[derive(Drop)]
pub struct DoubleEntry<L: Ledger, M: Ledger> {
    lanes: Book<L>,
    clients: Book<M>,
    ghost balanced: { lanes.total ≡ clients.total },
}

/// Double entry at its beginning, with the whole share of each book.
#[derive(Drop)]
pub struct Opened<L: Ledger, M: Ledger> {
    pub entry: DoubleEntry<L, M>,
    pub lane: Share<L>,
    pub client: Share<M>,
}

impl<L: Ledger, M: Ledger> DoubleEntry<L, M> {
    /// Opens both books, at 0. The shares have all parts of their ledgers.
    pub fn open(lanes: Blank, clients: Blank) -> Opened<L, M>
        requires lanes { (lanes.name ≡ L.name) × (lanes.parts ≡ L.parts) }
        requires clients { (clients.name ≡ M.name) × (clients.parts ≡ M.parts) }
        ensures lane { (result.lane.parts ≡ L.parts) × (result.lane.amount ≡ 0) }
        ensures client { (result.client.parts ≡ M.parts) × (result.client.amount ≡ 0) }
    {
        let (lanes, lane) = lanes.open::<L>();
        let (clients, client) = clients.open::<M>();
        Opened {
            entry: DoubleEntry { lanes, clients },
            lane,
            client,
        }
    }

    /// Adds one to a share of each book.
    pub fn add(&mut self, lane: &mut Share<L>, client: &mut Share<M>)
        requires lane { 0 < lane.old.parts }
        requires client { 0 < client.old.parts }
        ensures lane { (lane.new.amount ≡ lane.old.amount + 1) × (lane.new.parts ≡ lane.old.parts) }
        ensures client { (client.new.amount ≡ client.old.amount + 1) × (client.new.parts ≡ client.old.parts) }
    {
        let DoubleEntry { lanes, clients } = self;
        lanes.add(lane, 1);
        clients.add(client, 1);
    }

    /// Shows, of shares that have all parts of their ledgers, that their amounts are equal, and changes nothing.
    pub fn balance(&mut self, lane: &mut Share<L>, client: &mut Share<M>)
        requires lane { lane.old.parts ≡ L.parts }
        requires client { client.old.parts ≡ M.parts }
        ensures { lane.old.amount ≡ client.old.amount }
    {
        self.lanes.audit(lane);
        self.clients.audit(client);
    }
}
