ghost use Rattle.std.specs.Prelude.{◌≡◌, ◌<◌, ◌+◌, ◌*◌, ◌^◌, length};
ghost use Rattle.std.specs.List.{AllByRecursion, sum_by};
ghost use Rattle.std.specs.Int.{w64};
ghost use Rattle.rk_entry.specs.Numbers.{number_bytes, IsNumber, HasRoom, Gains};
ghost use Rattle.rk_entry.specs.Lawful.{IsLawfulEntry};
ghost use Rattle.rk_message.specs.Fields.{list_bytes};
ghost use Rattle.rk_message.specs.Pulling.{pull_bytes, entry_count, pulled_bytes, pulled_count, IsLawfulPulled, want_bytes, want_count, IsLawfulWant, got_bytes, got_count, IsLawfulGot};

use crate::fields::{COUNT_BYTES, put_list, put_tenure, put_token};
use crate::pulling::{
    GOT_BYTES, Got, HASH_BYTES, PULL_BYTES, PULLED_BYTES, Pull, Pulled, WANT_BYTES, Want,
};
use rk_entry::{Entry, entry_len};

/// Puts a Pull at the end.
#[tactic(auto, unfolding(crate::specs::Pulling::pull_bytes))]
pub fn put_pull(into: &mut Vec<u8>, pull: &Pull)
    requires { HasRoom into.old PULL_BYTES }
    ensures { Gains into.old into.new (pull_bytes pull.now) PULL_BYTES }
{
    put_tenure(into, &pull.tenure);
    put_token(into, &pull.token);
}

/// Puts a Pulled at the end.
#[tactic(auto, unfolding(crate::specs::Pulling::pulled_bytes))]
pub fn put_pulled(into: &mut Vec<u8>, pulled: &Pulled)
    requires lawful { IsLawfulPulled pulled.now }
    requires few { length pulled.now.entries < 2 ^ 32 }
    requires room { HasRoom into.old (pulled_count pulled.now) }
    ensures { Gains into.old into.new (pulled_bytes pulled.now) (pulled_count pulled.now) }
{
    put_tenure(into, &pulled.tenure);
    put_token(into, &pulled.token);
    put_token(into, &pulled.next);
    put_list(into, pulled.entries.as_slice());
}

// Puts hashes after their count at the end.
fn put_hashes(into: &mut Vec<u8>, hashes: &[u64])
    requires few { length hashes.now < 2 ^ 32 }
    requires lawful { AllByRecursion (IsNumber w64 0) hashes.now }
    requires room { HasRoom into.old (COUNT_BYTES + HASH_BYTES * length hashes.now) }
    ensures { Gains into.old into.new (list_bytes (number_bytes w64) hashes.now) (COUNT_BYTES + HASH_BYTES * length hashes.now) }
{
    put_list(into, hashes);
}

/// Puts a Want at the end.
#[tactic(auto, unfolding(crate::specs::Pulling::want_bytes))]
pub fn put_want(into: &mut Vec<u8>, want: &Want)
    requires lawful { IsLawfulWant want.now }
    requires few { length want.now.hashes < 2 ^ 32 }
    requires room { HasRoom into.old (want_count want.now) }
    ensures { Gains into.old into.new (want_bytes want.now) (want_count want.now) }
{
    put_tenure(into, &want.tenure);
    put_hashes(into, want.hashes.as_slice());
}

/// Puts a Got at the end.
#[tactic(auto, unfolding(crate::specs::Pulling::got_bytes))]
pub fn put_got(into: &mut Vec<u8>, got: &Got)
    requires lawful { IsLawfulGot got.now }
    requires few_hashes { length got.now.hashes < 2 ^ 32 }
    requires few_entries { length got.now.entries < 2 ^ 32 }
    requires room { HasRoom into.old (got_count got.now) }
    ensures { Gains into.old into.new (got_bytes got.now) (got_count got.now) }
{
    put_tenure(into, &got.tenure);
    put_hashes(into, got.hashes.as_slice());
    put_list(into, got.entries.as_slice());
}

// How many bytes entries take, one after the other.
fn entries_len(entries: &[Entry]) -> u32
    requires lawful { AllByRecursion IsLawfulEntry entries.now }
    requires within { sum_by entry_count entries.now < 2 ^ 32 }
    ensures { result ≡ sum_by entry_count entries.now }
{
    let mut count = 0;
    'entries: for entry in entries {
        count += entry_len(entry);
    }
    count
}

/// How many bytes the fields of a lawful Pulled take.
pub fn pulled_len(pulled: &Pulled) -> u32
    requires lawful { IsLawfulPulled pulled.now }
    requires within { pulled_count pulled.now < 2 ^ 32 }
    ensures { result ≡ pulled_count pulled.now }
{
    PULLED_BYTES + entries_len(pulled.entries.as_slice())
}

/// How many bytes the fields of a Want take.
pub fn want_len(want: &Want) -> u32
    requires { want_count want.now < 2 ^ 32 }
    ensures { result ≡ want_count want.now }
{
    WANT_BYTES + HASH_BYTES * want.hashes.as_slice().len() as u32
}

/// How many bytes the fields of a lawful Got take.
pub fn got_len(got: &Got) -> u32
    requires lawful { IsLawfulGot got.now }
    requires within { got_count got.now < 2 ^ 32 }
    ensures { result ≡ got_count got.now }
{
    let hashes = HASH_BYTES * got.hashes.as_slice().len() as u32;
    GOT_BYTES + hashes + entries_len(got.entries.as_slice())
}
