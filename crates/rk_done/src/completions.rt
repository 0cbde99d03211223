ghost use Rattle.std.specs.Prelude.{◌≡◌, [], map as map_list, ◌≤◌, ◌<◌, ◌+◌, IfOk, IfErr, OnOk, OnErr};
ghost use Rattle.rk_types.specs.NumberMap.{IsInOrder};
ghost use Rattle.rk_types.specs.Places.{IsAt, IsBetween};
ghost use Rattle.rk_done.specs.Completions.{look as look_lem, noted, ended_of, ends_of};

use crate::completion::{Completion, Look};
use rk_types::{Ended, NoMemory};
use std::alloc::Global;
use std::marker::Model;

/// The last completion of each client. Contracts see a map by client, and the room for more clients.
#[derive(Drop)]
pub struct Completions {
    completions: Vec<(u32, Completion)>,
}

impl Model for Completions {
    ghost use Rattle.std.specs.Prelude.{◌-◌, vec_len, vec_capacity};
    ghost use Rattle.rk_types.specs.NumberMap.{IsInOrder};
    ghost use Rattle.rk_done.specs.Completions.{Completed, completed_code};

    ghost Value = { Completed };

    ghost coded = { completed_code };

    ghost view = { λ a. record { completions = a.completions.items; room = vec_capacity a.completions - vec_len a.completions } };

    ghost invariant = { λ a. IsInOrder a.completions.items };
}

// The place of the client, or where it would be.
fn place(completions: &[(u32, Completion)], client: u32) -> Result<usize, usize>
    requires { IsInOrder completions.now }
    ensures found { IfOk result (IsAt client completions.now) }
    ensures absent { IfErr result (IsBetween client completions.now) }
{
    completions.binary_search_by_key(&client, |entry| entry.0)
}

impl Completions {
    /// No completions, and room for none. Takes no memory.
    pub fn new(alloc: Global) -> Completions
        ensures { result.completions ≡ [] }
    {
        Completions {
            completions: Vec::new(alloc),
        }
    }

    /// What is known of this client's call with this seq. One binary search.
    pub fn look(&self, client: u32, seq: u64) -> Look
        ensures value { result ≡ look_lem self.now.completions client seq }
        ensures order { IsInOrder self.now.completions }
    {
        match place(self.completions.as_slice(), client) {
            Ok(at) => self.completions[at].1.look(seq),
            Err(_) => Look::New,
        }
    }

    /// Makes room for this many more clients. After `NoMemory` nothing has changed.
    pub fn reserve(&mut self, clients: usize) -> Result<(), NoMemory>
        ensures completions { self.new.completions ≡ self.old.completions }
        ensures ok { OnOk result (clients ≤ self.new.room) }
        ensures err { OnErr result (self.new ≡ self.old) }
    {
        self.completions.reserve(clients)?;
        Ok(())
    }

    /// Notes how a call ended: it becomes its client's last completion if it is the first, or its seq is greater
    /// than that of the last one; else nothing changes. It takes at most the room of one client.
    pub fn note(&mut self, ended: Ended)
        requires { 0 < self.old.room }
        ensures completions { self.new.completions ≡ noted self.old.completions ended }
        ensures room { self.old.room ≤ self.new.room + 1 }
    {
        let completion = Completion {
            seq: ended.seq,
            end: ended.end,
        };
        match place(self.completions.as_slice(), ended.client) {
            Ok(at) => {
                if self.completions[at].1.seq < ended.seq {
                    self.completions[at].1 = completion;
                }
            }
            Err(at) => {
                let _ = self.completions.insert(at, (ended.client, completion));
            }
        }
    }

    /// Completions of their own with the same ends, and room for no more clients. A step for each client.
    pub fn duplicate(&self) -> Result<Completions, NoMemory>
        ensures { IfOk result (λ it. it.completions ≡ self.now.completions) }
    {
        let alloc = *self.completions.allocator();
        Ok(Completions {
            completions: Vec::from_slice(alloc, self.completions.as_slice())?,
        })
    }

    /// The end of each client's last call, by rising client.
    pub fn ends(&self) -> Result<Vec<Ended>, NoMemory>
        ensures { IfOk result (λ ends. ends.items ≡ ends_of self.now.completions) }
    {
        listed(self.completions.as_slice(), *self.completions.allocator())
    }
}

// The end of each client's last call, in the order of the completions.
fn listed(completions: &[(u32, Completion)], alloc: Global) -> Result<Vec<Ended>, NoMemory>
    ensures { IfOk result (λ ends. ends.items ≡ map_list ended_of completions.now) }
{
    let ends = completions.iter().map(|entry| Ended {
        client: entry.0,
        seq: entry.1.seq,
        end: entry.1.end,
    });
    Ok(ends.collect(alloc)?)
}
