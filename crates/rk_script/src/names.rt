ghost use Rattle.std.specs.Prelude.{◌≡◌, bytes_eq};
ghost use Rattle.rk_script.specs.Names.{keyword_of, operation_of, reach_of};

use crate::code::Code;
use rk_types::Reach;

/// The name of a command, but for `call` and `advance`, of which a later word names a part.
#[derive(Clone, Copy, PartialEq, Eq)]
pub enum Keyword {
    Masters,
    Backups,
    Table,
    Client,
    Serve,
    Repeat,
    Migrate,
    Priority,
    Split,
    Turn,
    Deliver,
    Forget,
    Crash,
    Notice,
    Settle,
    Where,
    Dump,
    History,
}

/// The operation of a call.
#[derive(Clone, Copy, PartialEq, Eq)]
pub enum Operation {
    Get,
    Put,
    CondPut,
    Delete,
}

/// Whether a word is this name.
pub fn is(word: &[u8], name: &[u8]) -> bool
    ensures { result ≡ bytes_eq word.now name.now }
{
    word == name
}

/// The command that a word names.
pub fn read_keyword(word: &[u8]) -> Result<Keyword, Code>
    ensures { result ≡ keyword_of word.now }
{
    if is(word, b"masters") {
        Ok(Keyword::Masters)
    } else if is(word, b"backups") {
        Ok(Keyword::Backups)
    } else if is(word, b"table") {
        Ok(Keyword::Table)
    } else if is(word, b"client") {
        Ok(Keyword::Client)
    } else if is(word, b"serve") {
        Ok(Keyword::Serve)
    } else if is(word, b"repeat") {
        Ok(Keyword::Repeat)
    } else if is(word, b"migrate") {
        Ok(Keyword::Migrate)
    } else if is(word, b"priority") {
        Ok(Keyword::Priority)
    } else if is(word, b"split") {
        Ok(Keyword::Split)
    } else if is(word, b"turn") {
        Ok(Keyword::Turn)
    } else if is(word, b"deliver") {
        Ok(Keyword::Deliver)
    } else if is(word, b"forget") {
        Ok(Keyword::Forget)
    } else if is(word, b"crash") {
        Ok(Keyword::Crash)
    } else if is(word, b"notice") {
        Ok(Keyword::Notice)
    } else if is(word, b"settle") {
        Ok(Keyword::Settle)
    } else if is(word, b"where") {
        Ok(Keyword::Where)
    } else if is(word, b"dump") {
        Ok(Keyword::Dump)
    } else if is(word, b"history") {
        Ok(Keyword::History)
    } else {
        Err(Code::UnknownName)
    }
}

/// The operation of a call that a word names.
pub fn read_operation(word: &[u8]) -> Result<Operation, Code>
    ensures { result ≡ operation_of word.now }
{
    match word {
        b"get" => Ok(Operation::Get),
        b"put" => Ok(Operation::Put),
        b"cput" => Ok(Operation::CondPut),
        b"del" => Ok(Operation::Delete),
        _ => Err(Code::UnknownName),
    }
}

/// The reach that a word names.
pub fn read_reach(word: &[u8]) -> Result<Reach, Code>
    ensures { result ≡ reach_of word.now }
{
    if is(word, b"begun") {
        Ok(Reach::Begun)
    } else if is(word, b"frozen") {
        Ok(Reach::Frozen)
    } else if is(word, b"granted") {
        Ok(Reach::Granted)
    } else if is(word, b"pulled") {
        Ok(Reach::Pulled)
    } else if is(word, b"joined") {
        Ok(Reach::Joined)
    } else if is(word, b"finished") {
        Ok(Reach::Finished)
    } else {
        Err(Code::UnknownName)
    }
}
