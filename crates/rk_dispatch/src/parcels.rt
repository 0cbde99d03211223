// The queue of parcels.
ghost use Rattle.std.specs.Prelude.{◌≡◌, ◌<◌, ◌++◌, IfErr, IfOk, IfSome, IsNone, OnOk};
ghost use Rattle.crossbeam_queue.specs.Fifo.{Held};
ghost use Rattle.crossbeam_queue.specs.Passes.{IsSamePass};
ghost use Rattle.rk_dispatch.specs.Balance.{AreSame, PARTS, first_account, joined, new_account, with_given, with_taken, without_part};
ghost use Rattle.rk_dispatch.specs.Queue.{IsOf, WasEmpty, WasFull, account_of, capacity_of};

use crate::account::{Account, Audit, Balance, Gives, Parts, Takes};
use crossbeam_queue::{Pass, RuledArrayQueue};
use rk_types::{NoMemory, Parcel};
use std::alloc::Global;
use std::sync::Wait;

/// A pass of a queue of parcels: its holder may give and take, and it has the account of what its holder gave and took. It has
/// no bytes.
pub type ParcelPass = Pass<Parcel, Account>;

/// A bounded queue of parcels for any number of givers and takers, shared by reference. Each worker holds a pass of its own.
#[derive(Drop)]
pub struct Parcels {
    queue: RuledArrayQueue<Parcel, Account, Balance>,
}

impl Parcels {
    /// An empty queue for so many parcels, and its first pass, from which all others are split off.
    pub fn new(alloc: Global, capacity: usize) -> Result<(Parcels, ParcelPass), NoMemory>
        requires { 0 < capacity }
        ensures capacity { IfOk result (λ made. capacity_of made.0 ≡ capacity) }
        ensures pass { IfOk result (λ made. IsOf made.0 made.1 × (account_of made.1 ≡ first_account)) }
    {
        let (queue, pass) = RuledArrayQueue::ruled(alloc, capacity)?;
        Ok((Parcels { queue }, pass))
    }

    /// How many parcels it takes.
    pub fn capacity(&self) -> usize
        ensures { result ≡ capacity_of self.now }
    {
        self.queue.capacity()
    }

    /// Gives a parcel. It is handed back, and nothing is given, only if the queue was full at a moment of the call.
    pub fn give<R: Wait>(&self, rt: &R, pass: &mut ParcelPass, parcel: Parcel) -> Result<(), Parcel>
        requires queue { IsOf self.now pass.old }
        requires part { 0 < (account_of pass.old).parts }
        ensures same { IsSamePass pass.old pass.new }
        ensures given { OnOk result (account_of pass.new ≡ with_given (account_of pass.old) parcel) }
        ensures back { IfErr result (λ back. (back ≡ parcel) × (account_of pass.new ≡ account_of pass.old)) }
        ensures full { IfErr result (λ _. WasFull self.now (account_of pass.old)) }
    {
        self.queue.push_as::<Gives, R>(rt, pass, parcel)
    }

    /// Takes the oldest parcel. There is none, and nothing is taken, only if the queue was empty at a moment of the call.
    pub fn take<R: Wait>(&self, rt: &R, pass: &mut ParcelPass) -> Option<Parcel>
        requires queue { IsOf self.now pass.old }
        requires part { 0 < (account_of pass.old).parts }
        ensures same { IsSamePass pass.old pass.new }
        ensures taken { IfSome result (λ parcel. account_of pass.new ≡ with_taken (account_of pass.old) parcel) }
        ensures none { IsNone result → account_of pass.new ≡ account_of pass.old }
        ensures empty { IsNone result → WasEmpty (account_of pass.old) }
    {
        self.queue.pop_as::<Takes, R>(rt, pass)
    }

    /// A pass for another worker, which has given and taken nothing. It is split off from one with two parts or more.
    pub fn another(&self, pass: &mut ParcelPass) -> ParcelPass
        requires queue { IsOf self.now pass.old }
        requires parts { 1 < (account_of pass.old).parts }
        ensures same { IsSamePass pass.old pass.new }
        ensures left { account_of pass.new ≡ without_part (account_of pass.old) }
        ensures other { IsOf self.now result × (account_of result ≡ new_account) }
    {
        self.queue.another::<Parts>(pass)
    }

    /// Joins another worker's pass to this one, which then has given and taken what both had.
    pub fn absorb(&self, pass: &mut ParcelPass, other: ParcelPass)
        requires queue { IsOf self.now pass.old × IsOf self.now other }
        requires part { 0 < (account_of pass.old).parts }
        ensures same { IsSamePass pass.old pass.new }
        ensures both { account_of pass.new ≡ joined (account_of pass.old) (account_of other) }
    {
        self.queue.absorb::<Parts>(pass, other);
    }

    /// How many parcels are left, once all passes are joined to this one. What was given is what was taken and what is left,
    /// each as often.
    pub fn left<R: Wait>(&self, rt: &R, pass: &mut ParcelPass) -> usize
        requires queue { IsOf self.now pass.old }
        requires whole { (account_of pass.old).parts ≡ PARTS }
        ensures same { IsSamePass pass.old pass.new × (account_of pass.new ≡ account_of pass.old) }
        ensures balance { Held result (λ left. AreSame (account_of pass.old).given ((account_of pass.old).taken ++ left)) }
    {
        self.queue.len_as::<Audit, R>(rt, pass)
    }
}
