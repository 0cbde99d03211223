ghost use Rattle.std.specs.Prelude.{◌≡◌, ◌≤◌, ◌^◌, ◌-◌, ◌==◌, ◌&&◌, true, length, IfOk, IfSome, IfNone};
ghost use Rattle.std.specs.Char.{is_ascii_digit};
ghost use Rattle.std.specs.List.{list_all};
ghost use Rattle.std.specs.Str.{IsAscii};
ghost use Rattle.std.specs.Str.Parse.{digits_value};
ghost use Rattle.rk_script.specs.Numbers.{hash_of, is_decimal, is_lower_hex, number_in};
ghost use Rattle.rk_script.specs.Numbers.{backups_of, client_of, lane_of, master_of, masters_of, place_of, table_of, tablet_of, version_of};

use crate::code::Code;
use rk_types::LANES;

/// The digit of zero, with which no other number begins.
pub const ZERO: u8 = b'0';

/// The fewest masters of a run.
pub const FEWEST_MASTERS: u64 = 2;

/// The most masters of a run.
pub const MOST_MASTERS: u64 = rk_types::MOST_MASTERS as u64;

/// The most backups of a run.
pub const MOST_BACKUPS: u64 = rk_types::MOST_BACKUPS as u64;

/// The most tablets of a run.
pub const MOST_TABLETS: u64 = rk_types::MOST_TABLETS as u64;

/// How many digits a hash is written with.
pub const HASH_DIGITS: usize = 16;

// Whether each byte is a decimal digit.
fn all_digits(word: &[u8]) -> bool
    ensures { result ≡ list_all is_ascii_digit word.now }
{
    word.iter().all(|byte| byte.is_ascii_digit())
}

// Whether each byte is a hexadecimal digit in lower case.
fn all_lower_hex(word: &[u8]) -> bool
    ensures { result ≡ list_all is_lower_hex word.now }
{
    word.iter().all(|byte| byte.is_ascii_digit() || (b'a' <= *byte && *byte <= b'f'))
}

// Whether a word is a number in decimal digits, without a sign and without a leading zero.
fn is_numeral(word: &[u8]) -> bool
    ensures { result ≡ is_decimal word.now }
{
    all_digits(word) && !word.is_empty() && (word.len() == 1 || word[0] != ZERO)
}

// The text of bytes below 128.
fn text(word: &[u8]) -> &str
    requires { IsAscii word.now }
    ensures { result.now ≡ word.now }
{
    str::from_utf8(word).unwrap()
}

// The number that decimal digits spell; none if it has more than 64 bits.
fn decimal(word: &[u8]) -> Option<u64>
    requires { is_decimal word.now ≡ true }
    ensures some { IfSome result (λ number. number ≡ digits_value 10 word.now) }
    ensures none { IfNone result (2 ^ 64 ≤ digits_value 10 word.now) }
{
    text(word).parse::<u64>().ok()
}

/// The number that a word spells in decimal digits, without a sign and without a leading zero, if it is one of this range; else
/// `BadNumber`.
pub fn number(word: &[u8], least: u64, most: u64) -> Result<u64, Code>
    ensures value { result ≡ number_in least most word.now }
    ensures within { IfOk result (λ number. number ≤ most) }
{
    if !is_numeral(word) {
        return Err(Code::BadNumber);
    }
    let Some(number) = decimal(word) else {
        return Err(Code::BadNumber);
    };
    if number < least || number > most {
        return Err(Code::BadNumber);
    }
    Ok(number)
}

/// How many masters there are.
pub fn masters(word: &[u8]) -> Result<u8, Code>
    ensures { result ≡ masters_of word.now }
{
    Ok(number(word, FEWEST_MASTERS, MOST_MASTERS)? as u8)
}

/// How many backups there are.
pub fn backups(word: &[u8]) -> Result<u8, Code>
    ensures { result ≡ backups_of word.now }
{
    Ok(number(word, 1, MOST_BACKUPS)? as u8)
}

/// A master's number.
pub fn master(word: &[u8]) -> Result<u8, Code>
    ensures { result ≡ master_of word.now }
{
    Ok(number(word, 1, MOST_MASTERS)? as u8)
}

/// A tablet's number.
pub fn tablet(word: &[u8]) -> Result<u32, Code>
    ensures { result ≡ tablet_of word.now }
{
    Ok(number(word, 1, MOST_TABLETS)? as u32)
}

/// A table's number.
pub fn table(word: &[u8]) -> Result<u64, Code>
    ensures { result ≡ table_of word.now }
{
    number(word, 1, u64::MAX)
}

/// A client's number.
pub fn client(word: &[u8]) -> Result<u32, Code>
    ensures { result ≡ client_of word.now }
{
    Ok(number(word, 1, u64::from(u32::MAX))? as u32)
}

/// The version that a record is to have, 0 for a record that is not there.
pub fn version(word: &[u8]) -> Result<u64, Code>
    ensures { result ≡ version_of word.now }
{
    number(word, 0, u64::MAX)
}

/// A lane's number.
pub fn lane(word: &[u8]) -> Result<u8, Code>
    ensures { result ≡ lane_of word.now }
{
    Ok(number(word, 0, u64::from(LANES) - 1)? as u8)
}

/// A place on a lane's wire, counted from 1.
pub fn place(word: &[u8]) -> Result<u32, Code>
    ensures { result ≡ place_of word.now }
{
    Ok(number(word, 1, u64::from(u32::MAX))? as u32)
}

// The number that sixteen hexadecimal digits spell.
fn hexadecimal(word: &[u8]) -> u64
    requires length { length word.now ≡ HASH_DIGITS }
    requires digits { list_all is_lower_hex word.now ≡ true }
    ensures { result ≡ digits_value 16 word.now }
{
    u64::from_str_radix(text(word), 16).unwrap()
}

/// A hash, in sixteen hexadecimal digits in lower case.
pub fn hash(word: &[u8]) -> Result<u64, Code>
    ensures { result ≡ hash_of word.now }
{
    if word.len() != HASH_DIGITS || !all_lower_hex(word) {
        return Err(Code::BadNumber);
    }
    Ok(hexadecimal(word))
}
