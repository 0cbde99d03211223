ghost use Rattle.std.specs.Prelude.{◌≡◌, ◌≢◌, ◌∷◌, [], map, length, IfOk, IfErr};
ghost use Rattle.rk_script.specs.declared.code.Code.TheVariants.{WordCount};
ghost use Rattle.rk_script.specs.Commands.{advance_of, none, one, plain_command, two};
ghost use Rattle.rk_script.specs.Numbers.{backups_of, client_of, hash_of, lane_of, master_of, masters_of, place_of, table_of, tablet_of};

use crate::code::Code;
use crate::command::Command;
use crate::names::{Keyword, read_reach};
use crate::numbers;

// The only word.
fn one_word<'a>(words: &[&'a [u8]]) -> Result<&'a [u8], Code>
    ensures ok { IfOk result (λ word. map (λ word. word.now) words.now ≡ word.now ∷ []) }
    ensures err { IfErr result (λ e. (e ≡ WordCount) × (length words.now ≢ 1)) }
{
    let [word] = words else {
        return Err(Code::WordCount);
    };
    Ok(word)
}

// The only two words.
fn two_words<'a>(words: &[&'a [u8]]) -> Result<(&'a [u8], &'a [u8]), Code>
    ensures ok { IfOk result (λ both. map (λ word. word.now) words.now ≡ both.0.now ∷ both.1.now ∷ []) }
    ensures err { IfErr result (λ e. (e ≡ WordCount) × (length words.now ≢ 2)) }
{
    let [left, right] = words else {
        return Err(Code::WordCount);
    };
    Ok((left, right))
}

// The only word, as how many masters there are.
fn only_masters(words: &[&[u8]]) -> Result<u8, Code>
    ensures { result ≡ one masters_of (map (λ word. word.now) words.now) }
{
    numbers::masters(one_word(words)?)
}

// The only word, as how many backups there are.
fn only_backups(words: &[&[u8]]) -> Result<u8, Code>
    ensures { result ≡ one backups_of (map (λ word. word.now) words.now) }
{
    numbers::backups(one_word(words)?)
}

// The only word, as a client.
fn only_client(words: &[&[u8]]) -> Result<u32, Code>
    ensures { result ≡ one client_of (map (λ word. word.now) words.now) }
{
    numbers::client(one_word(words)?)
}

// The only word, as a tablet.
fn only_tablet(words: &[&[u8]]) -> Result<u32, Code>
    ensures { result ≡ one tablet_of (map (λ word. word.now) words.now) }
{
    numbers::tablet(one_word(words)?)
}

// The only word, as a lane.
fn only_lane(words: &[&[u8]]) -> Result<u8, Code>
    ensures { result ≡ one lane_of (map (λ word. word.now) words.now) }
{
    numbers::lane(one_word(words)?)
}

// The only word, as a master.
fn only_master(words: &[&[u8]]) -> Result<u8, Code>
    ensures { result ≡ one master_of (map (λ word. word.now) words.now) }
{
    numbers::master(one_word(words)?)
}

// A command of no further word.
fn alone(command: Command, words: &[&[u8]]) -> Result<Command, Code>
    ensures { result ≡ none command (map (λ word. word.now) words.now) }
{
    if words.is_empty() {
        return Ok(command);
    }
    Err(Code::WordCount)
}

// `table T M`
fn table(words: &[&[u8]]) -> Result<Command, Code>
    ensures { result ≡ plain_command Keyword.Table (map (λ word. word.now) words.now) }
{
    let (table, master) = two_words(words)?;
    let table = numbers::table(table)?;
    let master = numbers::master(master)?;
    Ok(Command::Table { table, master })
}

// `migrate N M`
fn migrate(words: &[&[u8]]) -> Result<Command, Code>
    ensures { result ≡ plain_command Keyword.Migrate (map (λ word. word.now) words.now) }
{
    let (tablet, master) = two_words(words)?;
    let tablet = numbers::tablet(tablet)?;
    let master = numbers::master(master)?;
    Ok(Command::Migrate { tablet, master })
}

// `split N HASH`
fn split(words: &[&[u8]]) -> Result<Command, Code>
    ensures { result ≡ plain_command Keyword.Split (map (λ word. word.now) words.now) }
{
    let (tablet, hash) = two_words(words)?;
    let tablet = numbers::tablet(tablet)?;
    let hash = numbers::hash(hash)?;
    Ok(Command::Split { tablet, hash })
}

// `deliver L I`
fn deliver(words: &[&[u8]]) -> Result<Command, Code>
    ensures { result ≡ plain_command Keyword.Deliver (map (λ word. word.now) words.now) }
{
    let (lane, place) = two_words(words)?;
    let lane = numbers::lane(lane)?;
    let place = numbers::place(place)?;
    Ok(Command::Deliver { lane, place })
}

// `forget L I`
fn forget(words: &[&[u8]]) -> Result<Command, Code>
    ensures { result ≡ plain_command Keyword.Forget (map (λ word. word.now) words.now) }
{
    let (lane, place) = two_words(words)?;
    let lane = numbers::lane(lane)?;
    let place = numbers::place(place)?;
    Ok(Command::Forget { lane, place })
}

/// The command with this name and these words after it.
pub fn plain(keyword: Keyword, words: &[&[u8]]) -> Result<Command, Code>
    ensures { result ≡ plain_command keyword (map (λ word. word.now) words.now) }
{
    match keyword {
        Keyword::Masters => Ok(Command::Masters(only_masters(words)?)),
        Keyword::Backups => Ok(Command::Backups(only_backups(words)?)),
        Keyword::Table => table(words),
        Keyword::Client => Ok(Command::Client(only_client(words)?)),
        Keyword::Serve => Ok(Command::Serve(only_client(words)?)),
        Keyword::Repeat => Ok(Command::Repeat(only_client(words)?)),
        Keyword::Migrate => migrate(words),
        Keyword::Priority => Ok(Command::Priority(only_tablet(words)?)),
        Keyword::Split => split(words),
        Keyword::Turn => Ok(Command::Turn(only_lane(words)?)),
        Keyword::Deliver => deliver(words),
        Keyword::Forget => forget(words),
        Keyword::Crash => Ok(Command::Crash(only_master(words)?)),
        Keyword::Notice => Ok(Command::Notice(only_master(words)?)),
        Keyword::Settle => alone(Command::Settle, words),
        Keyword::Where => Ok(Command::Where(only_tablet(words)?)),
        Keyword::Dump => Ok(Command::Dump(only_tablet(words)?)),
        Keyword::History => alone(Command::History, words),
    }
}

/// The command that `advance` says with these words after it.
pub fn advance(words: &[&[u8]]) -> Result<Command, Code>
    ensures { result ≡ advance_of (map (λ word. word.now) words.now) }
{
    let [tablet, reach, more @ ..] = words else {
        return Err(Code::WordCount);
    };
    let reach = read_reach(reach)?;
    if !more.is_empty() {
        return Err(Code::WordCount);
    }
    let tablet = numbers::tablet(tablet)?;
    Ok(Command::Advance { tablet, reach })
}
