// The sessions of clients, by client.
ghost use Rattle.std.specs.Prelude.{◌≡◌, is_some, length, OnOk, OnErr};
ghost use Rattle.rk_types.specs.NumberMap.{get, insert};

use rk_session::Session;
use rk_types::NoMemory;
use std::collections::BTreeMap;

/// Whether a client has a session. One search.
pub(crate) fn has_session(sessions: &BTreeMap<u32, Session>, client: u32) -> bool
    ensures { result ≡ is_some (get sessions.now.entries client) }
{
    sessions.contains_key(&client)
}

/// How many clients have one.
pub(crate) fn count(sessions: &BTreeMap<u32, Session>) -> usize
    ensures { result ≡ length sessions.now.entries }
{
    sessions.len()
}

/// Gives a client this session. After `NoMemory` all are as they were. One search.
pub(crate) fn put_session(
    sessions: &mut BTreeMap<u32, Session>,
    client: u32,
    session: Session,
) -> Result<(), NoMemory>
    ensures ok { OnOk result (sessions.new.entries ≡ insert sessions.old.entries client session) }
    ensures err { OnErr result (sessions.new.entries ≡ sessions.old.entries) }
{
    sessions.insert(client, session)?;
    Ok(())
}
