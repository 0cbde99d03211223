// What a pass knows, and the rule of the queue.
use crossbeam_queue::protocol::{Join, Lesson, Outcome, Protocol, Split};
use rk_types::Parcel;
use std::collections::LinkedList;

/// What the holder of a pass has given and taken, and its parts of the right to know the whole. It exists in proofs alone: no
/// value of it is made.
pub struct Account {
    pub parts: u64,
    pub given: LinkedList<Parcel>,
    pub taken: LinkedList<Parcel>,
}

/// The rule: what was given is what was taken and what is in the queue, each as often.
pub struct Balance;

impl Protocol<Parcel, Account> for Balance {
    ghost use Rattle.rk_dispatch.specs.Balance.{IsBalanced, first_account};

    ghost holds = { IsBalanced };

    ghost first = { first_account };
}

/// A pass is split off with one part, and has given and taken nothing; two passes become one.
pub struct Parts;

impl Split<Account> for Parts {
    ghost use Rattle.rk_dispatch.specs.Balance.{new_account, without_part};

    ghost left = { without_part };

    ghost right = { λ a. new_account };
}

impl Join<Account> for Parts {
    ghost use Rattle.rk_dispatch.specs.Balance.{joined, spent as nothing};

    ghost both = { joined };

    ghost spent = { nothing };
}

/// A parcel was given. If the queue is full, the pass with all parts learns what is in it.
pub struct Gives;

impl Outcome<Parcel, Account> for Gives {
    ghost use Rattle.std.specs.Prelude.{◌≡◌};
    ghost use Rattle.rk_dispatch.specs.Balance.{with_given};

    ghost then = { λ before parcel after. after ≡ with_given before parcel };
}

impl Lesson<Parcel, Account> for Gives {
    ghost use Rattle.rk_dispatch.specs.Balance.{IsLeft};

    ghost fact = { IsLeft };
}

/// A parcel was taken. If the queue is empty, the pass with all parts learns that all was taken.
pub struct Takes;

impl Outcome<Parcel, Account> for Takes {
    ghost use Rattle.std.specs.Prelude.{◌≡◌};
    ghost use Rattle.rk_dispatch.specs.Balance.{with_taken};

    ghost then = { λ before parcel after. after ≡ with_taken before parcel };
}

impl Lesson<Parcel, Account> for Takes {
    ghost use Rattle.rk_dispatch.specs.Balance.{IsLeft};

    ghost fact = { IsLeft };
}

/// The pass with all parts learns what is in the queue.
pub struct Audit;

impl Lesson<Parcel, Account> for Audit {
    ghost use Rattle.rk_dispatch.specs.Balance.{IsLeft};

    ghost fact = { IsLeft };
}
