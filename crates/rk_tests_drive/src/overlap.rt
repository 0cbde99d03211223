// Workers run beside each other: pulled records are replayed while a client is held up, and the client goes on while a replay is.
use rk_drive::{Plan, Watch, drive};
use rk_outside::{Gate, MemoryReplica, MemorySink, Point};
use rk_types::Status;
use std::sync::atomic::{AtomicBool, Ordering};
use std::test::*;
use std::thread;

/// The lane of the one key, and one of those in which a replay is held up.
const OF_KEY: u8 = 6;

const OF_REPLAY: u8 = 5;

/// The lanes of the second worker for turns, which goes on while the lane of the key is held.
const OTHERS: [u8; 4] = [1, 3, 5, 7];

/// How often a gate looks at most before it lets go.
const MOST_LOOKS: u32 = 10_000_000;

/// How many replicas a drive has, and how many bytes the sink takes.
const REPLICAS: usize = rk_types::REPLICAS;

const ROOM: usize = 4_096;

/// A flag that is raised once and stays so.
#[derive(Drop)]
struct Flag {
    raised: AtomicBool,
}

impl Flag {
    fn new() -> Flag {
        Flag {
            raised: AtomicBool::new(false),
        }
    }

    fn is_raised(&self) -> bool {
        self.raised.load(Ordering::SeqCst)
    }

    // Raises the flag: whether it was raised before.
    fn raise(&self) -> bool {
        self.raised.swap(true, Ordering::SeqCst)
    }
}

/// A gate that holds the first step of a client in the lane of its key until a replay was reached in each of the other lanes, and the first
/// replay in one of these until the client was reached. It lets go after so many looks, and notes that.
#[derive(Drop)]
struct Crossing {
    replays: [Flag; 4],
    client: Flag,
    failed: Flag,
}

impl Crossing {
    fn new() -> Crossing {
        Crossing {
            replays: [Flag::new(), Flag::new(), Flag::new(), Flag::new()],
            client: Flag::new(),
            failed: Flag::new(),
        }
    }

    // Whether a replay was reached in each of the other lanes.
    fn all_replayed(&self) -> bool {
        for replay in &self.replays {
            if !replay.is_raised() {
                return false;
            }
        }
        true
    }

    fn hold_client(&self) {
        for _ in 0..MOST_LOOKS {
            if self.all_replayed() {
                return;
            }
            thread::yield_now();
        }
        self.failed.raise();
    }

    fn hold_replay(&self) {
        for _ in 0..MOST_LOOKS {
            if self.client.is_raised() {
                return;
            }
            thread::yield_now();
        }
        self.failed.raise();
    }

    fn pass_replay(&self, lane: u8) {
        for (place, other) in OTHERS.iter().enumerate() {
            if *other == lane && !self.replays[place].raise() && lane == OF_REPLAY {
                self.hold_replay();
            }
        }
    }
}

impl Gate for Crossing {
    fn at(&self, lane: u8, point: Point) {
        match point {
            Point::ClientStep if lane == OF_KEY => {
                if !self.client.raise() {
                    self.hold_client();
                }
            }
            Point::PullReplayed => self.pass_replay(lane),
            _ => {}
        }
    }
}

impl Watch for Crossing {
    fn answered(&self, _count: u64, _all: u64) {}

    fn owned(&self, _lane: u8, _master: Option<u8>) {}
}

#[test]
fn pulls_run_beside_clients(rt: HostRuntime) -> Result<(), Fail> {
    let plan = Plan {
        clients: 1,
        calls: 8,
        keys: 1,
        crash: None,
        history: false,
    };
    let gate = Crossing::new();
    let mut sink = MemorySink::new(rt.alloc(), ROOM)?;
    let mut replicas = Vec::with_capacity(rt.alloc(), REPLICAS)?;
    for _ in 0..REPLICAS {
        replicas.push(MemoryReplica::new(rt.alloc()))?;
    }
    assert_eq!(rt; replicas.len(), REPLICAS);
    let status = drive(&rt, rt.alloc(), &plan, &mut sink, &mut replicas, &gate);
    assert_eq!(rt; status, Status::Done);
    assert!(rt; gate.client.is_raised());
    assert!(rt; gate.all_replayed());
    assert!(rt; !gate.failed.is_raised());
    Ok(())
}
