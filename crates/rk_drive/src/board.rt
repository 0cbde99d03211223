// What the workers of a drive report to each other.
use crate::signal::Signal;
use crossbeam_utils::CachePadded;
use std::array;
use std::sync::atomic::{AtomicBool, AtomicU8, AtomicU64, Ordering};

/// How many lanes there are, and the most clients.
const LANES: usize = rk_types::LANES as usize;

/// By so many lanes each worker for clients begins behind the one before it.
const FURTHER: u8 = 2;

const CLIENTS: usize = crate::words::MOST_CLIENTS as usize;

/// What its workers know of a lane.
#[derive(Drop)]
struct LaneBoard {
    /// How often something was left to do there.
    asked: AtomicU64,
    /// How much of that had come when the lane began its last turn.
    taken: AtomicU64,
    /// How many turns the lane took.
    turned: AtomicU64,
    /// Whether its last turn left something to do by itself.
    is_busy: AtomicBool,
}

impl LaneBoard {
    // A lane with something to do.
    fn new() -> LaneBoard {
        LaneBoard {
            asked: AtomicU64::new(1),
            taken: AtomicU64::new(0),
            turned: AtomicU64::new(0),
            is_busy: AtomicBool::new(false),
        }
    }
}

/// How far a drive has come, as its workers see it. What different workers write is on cache lines of its own.
#[derive(Drop)]
pub(crate) struct Board {
    /// How many workers for clients have not ended.
    callers: AtomicU64,
    /// How many of them have begun.
    begun: AtomicU8,
    /// Whether memory was wanting.
    short: AtomicBool,
    /// How many calls are answered.
    answered: CachePadded<AtomicU64>,
    lanes: [CachePadded<LaneBoard>; LANES],
    /// For each client that waits for a turn of its call's lane, one more than the turns that the lane had taken when the client looked
    /// there last; for others 0.
    waiting: [CachePadded<AtomicU64>; CLIENTS],
    /// Rises with each call that is answered.
    pub(crate) news: CachePadded<Signal>,
    /// Rises when lanes may have something to do.
    pub(crate) asked: CachePadded<Signal>,
    /// Rises when lanes took a turn.
    pub(crate) turned: CachePadded<Signal>,
    /// Rises when parcels were given.
    pub(crate) given: CachePadded<Signal>,
}

impl Board {
    /// A board for so many workers for clients.
    pub(crate) fn new(callers: u64) -> Board {
        Board {
            callers: AtomicU64::new(callers),
            begun: AtomicU8::new(0),
            short: AtomicBool::new(false),
            answered: CachePadded::new(AtomicU64::new(0)),
            lanes: array::from_fn(|_| CachePadded::new(LaneBoard::new())),
            waiting: array::from_fn(|_| CachePadded::new(AtomicU64::new(0))),
            news: CachePadded::new(Signal::new()),
            asked: CachePadded::new(Signal::new()),
            turned: CachePadded::new(Signal::new()),
            given: CachePadded::new(Signal::new()),
        }
    }

    /// Whether all workers for clients have ended, or memory was wanting: then the others end.
    pub(crate) fn is_over(&self) -> bool {
        self.is_short() || self.callers.load(Ordering::SeqCst) == 0
    }

    /// Whether memory was wanting.
    pub(crate) fn is_short(&self) -> bool {
        self.short.load(Ordering::SeqCst)
    }

    /// Memory was wanting: all workers are to end.
    pub(crate) fn stop(&self) {
        self.short.store(true, Ordering::SeqCst);
        self.wake();
    }

    /// A worker for clients begins: the lane at which it begins.
    pub(crate) fn begin_caller(&self) -> u8 {
        self.begun.fetch_add(FURTHER, Ordering::SeqCst)
    }

    /// A worker for clients has ended.
    pub(crate) fn end_caller(&self) {
        self.callers.fetch_sub(1, Ordering::SeqCst);
        self.wake();
    }

    // Whoever waits looks again.
    fn wake(&self) {
        self.news.raise();
        self.asked.raise();
        self.turned.raise();
        self.given.raise();
    }

    /// How many calls are answered.
    pub(crate) fn answered(&self) -> u64 {
        self.answered.load(Ordering::SeqCst)
    }

    /// One more call is answered, and its client waits for nothing.
    pub(crate) fn answer(&self, client: u32) {
        self.answered.fetch_add(1, Ordering::SeqCst);
        self.set_waiting(client, 0);
        self.news.raise();
    }

    /// How many turns a lane took.
    pub(crate) fn turns_of(&self, lane: u8) -> u64 {
        match self.lanes.get(usize::from(lane)) {
            Some(it) => it.turned.load(Ordering::SeqCst),
            None => 0,
        }
    }

    /// A client that looked at its call's lane when that had taken so many turns waits for the next one, and left something to do there.
    pub(crate) fn wait_for_turn(&self, client: u32, lane: u8, turns: u64) {
        self.set_waiting(client, turns.saturating_add(1));
        self.leave_work(lane);
    }

    /// Whether a client waits for a turn that its call's lane has not taken.
    pub(crate) fn waits_for_turn(&self, client: u32, lane: u8) -> bool {
        match self.waiting.get((client as usize).wrapping_sub(1)) {
            Some(it) => it.load(Ordering::SeqCst) == self.turns_of(lane).saturating_add(1),
            None => false,
        }
    }

    /// Whether a client waits for nothing: it has not looked for its call's answer in vain.
    pub(crate) fn waits_for_nothing(&self, client: u32) -> bool {
        match self.waiting.get((client as usize).wrapping_sub(1)) {
            Some(it) => it.load(Ordering::SeqCst) == 0,
            None => true,
        }
    }

    fn set_waiting(&self, client: u32, waiting: u64) {
        if let Some(it) = self.waiting.get((client as usize).wrapping_sub(1)) {
            it.store(waiting, Ordering::SeqCst);
        }
    }

    /// There is something to do in a lane: the worker that takes its turns is woken.
    pub(crate) fn leave_work(&self, lane: u8) {
        if let Some(it) = self.lanes.get(usize::from(lane)) {
            it.asked.fetch_add(1, Ordering::SeqCst);
        }
        self.asked.raise();
    }

    /// Whether there is something to do in a lane, which is about to take a turn then.
    pub(crate) fn begin_turn(&self, lane: u8) -> bool {
        let Some(it) = self.lanes.get(usize::from(lane)) else {
            return false;
        };
        let asked = it.asked.load(Ordering::SeqCst);
        it.taken.swap(asked, Ordering::SeqCst) != asked || it.is_busy.load(Ordering::SeqCst)
    }

    /// A lane took a turn, which left something to do by itself, or not.
    pub(crate) fn end_turn(&self, lane: u8, is_busy: bool) {
        if let Some(it) = self.lanes.get(usize::from(lane)) {
            it.is_busy.store(is_busy, Ordering::SeqCst);
            it.turned.fetch_add(1, Ordering::SeqCst);
        }
    }
}
