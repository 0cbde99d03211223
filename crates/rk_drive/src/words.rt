// The words that name a drive.
ghost use Rattle.std.specs.Prelude.{◌≡◌, ◌≤◌, ◌*◌, ◌<◌, map, IfOk, IfSome, string_bytes};
ghost use Rattle.rk_drive.specs.Words.{crash_in, end_in, plan_in, planned, rest_in, sizes_in};

use crate::plan::{Crash, Plan};
use crate::start::MASTERS;
use rk_script::{Code, number};

/// The most clients of a drive.
pub const MOST_CLIENTS: u64 = rk_types::MOST_CLIENTS as u64;

/// The most calls that all clients of a drive make together.
pub const MOST_CALLS: u64 = 200_000;

/// The most keys of a drive.
pub const MOST_KEYS: u64 = 100_000;

/// How many clients a drive has, how many calls each of them makes, and of how many keys.
#[derive(Clone, Copy)]
struct Sizes {
    clients: u32,
    calls: u32,
    keys: u32,
}

impl Sizes {
    // A plan of this size.
    fn plan(self, crash: Option<Crash>, history: bool) -> Plan
        ensures { result ≡ planned self crash history }
    {
        Plan {
            clients: self.clients,
            calls: self.calls,
            keys: self.keys,
            crash,
            history,
        }
    }
}

/// The plan that these words name: `drive CLIENTS CALLS KEYS`, then `crash M AFTER`, then `history`, each of the last two or not.
///
/// CLIENTS is 1 to 64, CALLS at least 1, and both together make at most 200,000 calls; KEYS is 1 to 100,000, M is 1 or 2, and AFTER 1 to
/// the count of all calls. Numbers are decimal digits without a sign and without a leading zero. `BadNumber` comes if a number is none of
/// these, and `WordCount` if the words are of no such form.
pub fn plan_of(words: &[String]) -> Result<Plan, Code>
    ensures plan { result ≡ plan_in (map string_bytes words.now) }
    ensures keys { IfOk result (λ plan. 0 < plan.keys) }
{
    let [word, clients, calls, keys, rest @ ..] = words else {
        return Err(Code::WordCount);
    };
    if word.as_str() != "drive" {
        return Err(Code::WordCount);
    }
    let sizes = sizes_of(clients.as_bytes(), calls.as_bytes(), keys.as_bytes())?;
    with_rest(sizes, rest)
}

// Three numbers, of at most so many calls in all.
fn sizes_of(clients: &[u8], calls: &[u8], keys: &[u8]) -> Result<Sizes, Code>
    ensures sizes { result ≡ sizes_in clients.now calls.now keys.now }
    ensures keys { IfOk result (λ sizes. 0 < sizes.keys) }
    ensures few { IfOk result (λ sizes. sizes.clients * sizes.calls ≤ MOST_CALLS) }
{
    let clients = number(clients, 1, MOST_CLIENTS)?;
    let calls = number(calls, 1, MOST_CALLS)?;
    let keys = number(keys, 1, MOST_KEYS)?;
    if clients * calls > MOST_CALLS {
        return Err(Code::BadNumber);
    }
    Ok(Sizes {
        clients: clients as u32,
        calls: calls as u32,
        keys: keys as u32,
    })
}

// The plan that the words after the numbers make.
fn with_rest(sizes: Sizes, rest: &[String]) -> Result<Plan, Code>
    requires { sizes.clients * sizes.calls ≤ MOST_CALLS }
    ensures plan { result ≡ rest_in sizes (map string_bytes rest.now) }
    ensures keys { IfOk result (λ plan. plan.keys ≡ sizes.keys) }
{
    match rest {
        [word, master, after, rest @ ..] => {
            if word.as_str() != "crash" {
                return Err(Code::WordCount);
            }
            let crash = crash_of(sizes, master.as_bytes(), after.as_bytes())?;
            with_end(sizes, Some(crash), rest)
        }
        _ => with_end(sizes, None, rest),
    }
}

// Which master crashes, and after how many of the calls.
fn crash_of(sizes: Sizes, master: &[u8], after: &[u8]) -> Result<Crash, Code>
    requires { sizes.clients * sizes.calls ≤ MOST_CALLS }
    ensures { result ≡ crash_in sizes master.now after.now }
{
    let master = number(master, 1, u64::from(MASTERS))?;
    let after = number(after, 1, u64::from(sizes.clients) * u64::from(sizes.calls))?;
    Ok(Crash {
        master: master as u8,
        after: after as u32,
    })
}

// The plan that the last word makes, if there is one.
fn with_end(sizes: Sizes, crash: Option<Crash>, rest: &[String]) -> Result<Plan, Code>
    ensures plan { result ≡ end_in sizes crash (map string_bytes rest.now) }
    ensures keys { IfOk result (λ plan. plan.keys ≡ sizes.keys) }
{
    match rest {
        [] => Ok(sizes.plan(crash, false)),
        [word] if word.as_str() == "history" => Ok(sizes.plan(crash, true)),
        _ => Err(Code::WordCount),
    }
}
